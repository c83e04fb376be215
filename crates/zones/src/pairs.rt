// Two neighbouring cores contracted and split again.
ghost use Rattle.pairform.specs.Call.{core_of, pair_call};
ghost use Rattle.records.specs.Given.{sizes_in};
ghost use Rattle.zones.specs.Ends.{SplitsAs};

use records::{given, told};

#[unsafe(no_mangle)]
pub extern "C" fn uyavsker_contract_and_split(
    l: given::CSizes,
    r: given::CSizes,
    eps: f64,
    left: &[f64],
    right: &[f64],
    lefts: &mut [f64],
    rights: &mut [f64],
    scratch: &mut [f64],
) -> told::CPaired
    ensures { SplitsAs (pair_call (core_of (sizes_in l) left.now)
        (core_of (sizes_in r) right.now) eps lefts.old rights.old scratch.old)
        result lefts.new rights.new scratch.new }
{
    told::paired_out(pair::contract_and_split(
        l.into(),
        r.into(),
        eps,
        left,
        right,
        lefts,
        rights,
        scratch,
    ))
}
