// The work of a run from one zone on, once its checks have passed.
#![tactic(auto)]

pub mod again;
pub mod kept;
pub mod renewal;
pub mod weights;

ghost use Rattle.std.specs.Prelude.{◌≡◌, Err};

// A refusal leaves the run as it was.
pub fn refused(q: answers::Refusal, r: runform::Run) -> runform::Ran
    ensures { result ≡ record { verdict = Err q; run = r } }
{
    runform::Ran {
        verdict: Err(q),
        run: r,
    }
}
