// The internal coefficients at which the cells of a wind are furthest out: by the sign of the weight the least or the
// greatest of them, and the first where nothing weighs.
ghost use Rattle.std.specs.Prelude.{◌≡◌, ◌+◌, ◌<◌};
ghost use Rattle.worst.specs.Inside.{inside_numbered, sides_of, InsidesSmall, Furthest};
ghost use Rattle.worst.specs.Small.{LowInternals};

use crate::Side;
use crate::tops::{Compared, the_further};
use job::Internals;

// One of them in thousandths, with its number.
#[derive(Clone, Copy)]
pub struct Inside {
    pub part: i64,
    pub number: u32,
}

impl Compared for Inside {
    ghost number = { λ c. c.part };

    fn falls_short(self, side: Side, later: Inside) -> bool {
        self.part.falls_short(side, later.part)
    }
}

// The first, the least and the greatest: of those that are alike the first.
#[derive(Clone, Copy)]
pub struct Insides {
    pub first: Inside,
    pub low: Inside,
    pub high: Inside,
}

// That of the greatest sum, and that of the least.
#[derive(Clone, Copy)]
pub struct Sides {
    pub up: Inside,
    pub down: Inside,
}

// The one at a place, from 0.
fn inside_at(internals: Internals, i: usize) -> Inside
    requires { LowInternals internals × (i < internals.count) }
    ensures { result ≡ inside_numbered internals (i + 1) }
{
    let internal = internals.entry[i];
    Inside {
        part: internal * 10,
        number: (i + 1) as u32,
    }
}

pub(crate) fn insides_of(internals: Internals) -> Insides
    requires { LowInternals internals × (0 < internals.count) }
    ensures { InsidesSmall result × Furthest internals internals.count result }
{
    let count = internals.count as usize;
    let first = inside_at(internals, 0);
    let mut low = first;
    let mut high = first;
    for i in 1..count {
        let next = inside_at(internals, i);
        low = the_further(Side::Least, low, next);
        high = the_further(Side::Greatest, high, next);
    }
    Insides { first, low, high }
}

pub(crate) fn sides_at(insides: Insides, weight: i64) -> Sides
    ensures { result ≡ sides_of insides weight }
{
    let low = insides.low;
    let high = insides.high;
    if weight > 0 {
        return Sides {
            up: low,
            down: high,
        };
    }
    if weight < 0 {
        return Sides {
            up: high,
            down: low,
        };
    }
    let first = insides.first;
    Sides {
        up: first,
        down: first,
    }
}
