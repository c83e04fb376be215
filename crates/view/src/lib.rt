// One core of a lent chain, read through a view that holds the chain and the core's place. Each function over the view is
// thin: it takes the view apart, or puts it together, and leaves the work to a function over a plain slice and a spot.
#![tactic(auto)]

ghost use Rattle.std.specs.Prelude.{◌≡◌, ◌<◌};
ghost use Rattle.shape.specs.Sizes.{SizesWithin};
ghost use Rattle.view.specs.View.{core_spot, spot_of, view_of, seen_at, seen};

// Where a core stands in its chain, and its sizes.
#[derive(Clone, Copy, Debug, PartialEq, Eq)]
pub struct Spot {
    pub start: usize,
    pub rl: usize,
    pub n: usize,
    pub rr: usize,
}

// A lent chain, and where the core stands in it; nowhere, if there is no such core.
#[derive(Clone, Copy)]
pub struct CoreView<'a> {
    pub chain: &'a [f64],
    pub spot: Option<Spot>,
}

// Where core k of an accepted shape stands.
fn core_spot(s: shape::Shape, k: usize) -> Spot
    requires sizes_within { SizesWithin s }
    requires k_lt_d { k < s.d }
    ensures { result ≡ core_spot s k }
{
    Spot {
        start: s.offset(k),
        rl: s.left[k],
        n: s.n[k],
        rr: s.right[k],
    }
}

// Where core k stands, if the shape is accepted and has one.
pub fn spot_of(s: shape::Shape, k: usize) -> Option<Spot>
    ensures { result ≡ spot_of s k }
{
    s.check().ok()?;
    if s.d <= k {
        return None;
    }
    Some(core_spot(s, k))
}

// Entry (il, im, ir) of the core that stands there, or none, where the indices lie outside of it or of the chain.
pub fn entry_at(chain: &[f64], spot: Spot, il: usize, im: usize, ir: usize) -> Option<f64>
    ensures { result ≡ seen_at chain.now spot il im ir }
{
    if spot.rl <= il || spot.n <= im || spot.rr <= ir {
        return None;
    }
    let room = chain.get(spot.start..)?;
    let place = shape::place_within(spot.n, spot.rr, il, im, ir, room.len());
    room.get(place).copied()
}

// The view of core k.
pub fn view_of<'a>(chain: &'a [f64], s: shape::Shape, k: usize) -> CoreView<'a>
    ensures { result ≡ view_of chain.entry s k }
{
    CoreView {
        chain,
        spot: spot_of(s, k),
    }
}

impl<'a> CoreView<'a> {
    // Entry (il, im, ir) of the core.
    pub fn get(self, il: usize, im: usize, ir: usize) -> Option<f64>
        ensures { result ≡ seen self.entry il im ir }
    {
        entry_at(self.chain, self.spot?, il, im, ir)
    }
}

// Entry (il, im, ir) of core k, through its view. Whoever calls this needs to know of no view.
pub fn entry_of(
    chain: &[f64],
    s: shape::Shape,
    k: usize,
    il: usize,
    im: usize,
    ir: usize,
) -> Option<f64>
    ensures { result ≡ seen (view_of chain.entry s k) il im ir }
{
    view_of(chain, s, k).get(il, im, ir)
}
