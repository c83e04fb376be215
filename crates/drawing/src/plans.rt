// What a day starts with: a shape, axis records and settings, drawn within the limits; and where the parts of its zones stand.
use crate::chance;

// d cores of ranks up to `rank` and sizes up to `points`. What stands in the array places from d on means nothing.
pub fn shape(seed: usize, d: usize, rank: usize, points: usize) -> shape::Shape {
    let mut left = [1; shape::MOST_AXES];
    let mut n = [1; shape::MOST_AXES];
    let mut right = [1; shape::MOST_AXES];
    let mut last = 1;
    let mut x = seed;
    for k in 0..shape::MOST_AXES {
        x = chance::next(x);
        left[k] = last;
        n[k] = 1 + chance::below(x, points);
        last = 1 + chance::below(x / 64, rank);
        if k + 1 == d {
            last = 1;
        }
        right[k] = last;
    }
    shape::Shape { d, left, n, right }
}

// A record in order, of either boundary. A domain of no width lets its core stay, and so does a shift of 0.
pub fn axis(x: usize) -> stepform::Axis {
    let y = chance::next(x);
    let xmin = chance::number(y);
    stepform::Axis {
        a: chance::whole(x, 9) / 16.0,
        b: chance::number(x / 16),
        xmin,
        xmax: xmin + chance::whole(y / 64, 24) / 8.0,
        boundary: chance::below(y / 4096, 2),
    }
}

pub fn records(seed: usize) -> [stepform::Axis; shape::MOST_AXES] {
    let mut list = [axis(seed); shape::MOST_AXES];
    let mut x = seed;
    for a in &mut list {
        x = chance::next(x);
        *a = axis(x);
    }
    list
}

// What the numbers of a day are scaled by: mostly 1, else so little that only scaled mode keeps them.
pub fn scale(x: usize) -> f64 {
    [1.0, 1.0, 1.0, 1e-40][chance::below(x, 4)]
}

// eps of 0 keeps every rank that it can, a large one cuts most; one cut in two is scaled.
pub fn settings(x: usize) -> stepform::Settings {
    let cutoffs = [0.0, -0.0, 1e-12, 0.125, 0.5];
    stepform::Settings {
        tau: chance::whole(x, 9) / 8.0,
        c: chance::number(x / 128),
        cutting: cutform::Cutting {
            eps: cutoffs[chance::below(x / 16, cutoffs.len())],
            mode: chance::below(x / 4096, 2),
        },
    }
}

// Where what belongs to one zone starts in the source and the chain, in the weights, the carries and the sums.
#[derive(Clone, Copy)]
pub struct Places {
    pub core: usize,
    pub weights: usize,
    pub carry: usize,
    pub sums: usize,
}

// Of zone d that is the lists' lengths; all 0 for a shape that is refused, or has no such zone.
pub fn starts(s: shape::Shape, k: usize) -> Places {
    let nowhere = Places {
        core: 0,
        weights: 0,
        carry: 0,
        sums: 0,
    };
    if let Err(_) = s.check() {
        return nowhere;
    }
    if s.d < k {
        return nowhere;
    }
    Places {
        core: s.offset(k),
        weights: s.points_offset(k),
        carry: cuts::carry_offset(s, k),
        sums: product::sums::sum_offset(s, k),
    }
}
