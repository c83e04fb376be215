// The plan with its run, by value: a record and five arrays; a fresh run of it, and the replacement of one zone's core, weights
// or axis record; and whether it keeps the bits of a fresh run.
ghost use Rattle.std.specs.Prelude.{◌≡◌};
ghost use Rattle.runform.specs.Slices.{outputs};
ghost use Rattle.comparing.specs.Same.{Tells, SameKept};
ghost use Rattle.plan.specs.Answers.{fresh_end, core_end, weights_end, axis_end, answer_of, AsFresh};

#[derive(Clone, Copy)]
pub struct Plan {
    pub run: runform::Run,
    pub source: [f64; crate::inputs::ENTRIES],
    pub weights: [f64; crate::inputs::POINTS],
    pub chain: [f64; crate::inputs::ENTRIES],
    pub carries: [f64; crate::inputs::CARRIES],
    pub sums: [f64; crate::inputs::SUMS],
}

// What a call answered, and the plan after it.
#[derive(Clone, Copy)]
pub struct Answer {
    pub verdict: Result<(), answers::Refusal>,
    pub plan: Plan,
}

pub fn fresh(p: Plan) -> Answer
    ensures { result ≡ answer_of (fresh_end p) }
{
    let run = p.run;
    let s = run.shape;
    let xs = run.axes;
    let set = run.set;
    let source = p.source;
    let weights = p.weights;
    let mut chain = p.chain;
    let mut carries = p.carries;
    let mut sums = p.sums;
    let mut scratch = [0.0; crate::inputs::SCRATCH];
    let a = runs::fresh_run(
        s,
        xs,
        set,
        &source,
        &weights,
        &mut chain,
        &mut carries,
        &mut sums,
        &mut scratch,
    );
    let verdict = a.verdict;
    let made = a.run;
    let plan = Plan {
        run: made,
        source,
        weights,
        chain,
        carries,
        sums,
    };
    Answer { verdict, plan }
}

pub fn new_core(p: Plan, z: usize, part: &[f64]) -> Answer
    ensures { result ≡ answer_of (core_end p z part.now) }
{
    let run = p.run;
    let mut source = p.source;
    let weights = p.weights;
    let mut chain = p.chain;
    let mut carries = p.carries;
    let mut sums = p.sums;
    let mut scratch = [0.0; crate::inputs::SCRATCH];
    let a = runs::replace_core(
        run,
        z,
        &mut source,
        &weights,
        &mut chain,
        &mut carries,
        &mut sums,
        part,
        &mut scratch,
    );
    let verdict = a.verdict;
    let made = a.run;
    let plan = Plan {
        run: made,
        source,
        weights,
        chain,
        carries,
        sums,
    };
    Answer { verdict, plan }
}

pub fn new_weights(p: Plan, z: usize, part: &[f64]) -> Answer
    ensures { result ≡ answer_of (weights_end p z part.now) }
{
    let run = p.run;
    let source = p.source;
    let mut weights = p.weights;
    let chain = p.chain;
    let carries = p.carries;
    let mut sums = p.sums;
    let mut scratch = [0.0; crate::inputs::SCRATCH];
    let a = runs::replace_weights(
        run,
        z,
        &source,
        &mut weights,
        &chain,
        &carries,
        &mut sums,
        part,
        &mut scratch,
    );
    let verdict = a.verdict;
    let made = a.run;
    let plan = Plan {
        run: made,
        source,
        weights,
        chain,
        carries,
        sums,
    };
    Answer { verdict, plan }
}

pub fn new_axis(p: Plan, z: usize, x: stepform::Axis) -> Answer
    ensures { result ≡ answer_of (axis_end p z x) }
{
    let run = p.run;
    let source = p.source;
    let weights = p.weights;
    let mut chain = p.chain;
    let mut carries = p.carries;
    let mut sums = p.sums;
    let mut scratch = [0.0; crate::inputs::SCRATCH];
    let a = runs::replace_axis(
        run,
        z,
        x,
        &source,
        &weights,
        &mut chain,
        &mut carries,
        &mut sums,
        &mut scratch,
    );
    let verdict = a.verdict;
    let made = a.run;
    let plan = Plan {
        run: made,
        source,
        weights,
        chain,
        carries,
        sums,
    };
    Answer { verdict, plan }
}

// Whether two runs of the plan's sizes keep the same.
fn same_kept(
    chain: [f64; crate::inputs::ENTRIES],
    chain2: [f64; crate::inputs::ENTRIES],
    carries: [f64; crate::inputs::CARRIES],
    carries2: [f64; crate::inputs::CARRIES],
    sums: [f64; crate::inputs::SUMS],
    sums2: [f64; crate::inputs::SUMS],
    a: runform::Run,
    b: runform::Run,
) -> bool
    ensures { Tells result (SameKept a b (outputs chain carries sums) (outputs chain2 carries2 sums2)) }
{
    comparing::same_kept(a, b, &chain, &chain2, &carries, &carries2, &sums, &sums2)
}

// Whether a fresh run on the plan's inputs is accepted and keeps the same, down to the bits of every number.
pub fn as_fresh(p: Plan) -> bool
    ensures { Tells result (AsFresh p) }
{
    let a = fresh(p);
    let verdict = a.verdict;
    if let Err(_) = verdict {
        return false;
    }
    let q = a.plan;
    let chain = p.chain;
    let chain2 = q.chain;
    let carries = p.carries;
    let carries2 = q.carries;
    let sums = p.sums;
    let sums2 = q.sums;
    let run = p.run;
    let run2 = q.run;
    same_kept(chain, chain2, carries, carries2, sums, sums2, run, run2)
}
