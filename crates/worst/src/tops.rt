// The best cell so far: a total, with the numbers of its wind and its internal coefficient.
ghost use Rattle.std.specs.Prelude.{◌≡◌, ℤ, true, cond, ◌<◌};
ghost use Rattle.pair.specs.Total.{units, proper};
ghost use Rattle.worst.specs.Best.{short, at, better};
ghost use Rattle.worst.specs.Engine.{cell, top_by, no_ends};

use crate::Side;
use pair::Pair;

// What is compared by the number that it stands for.
pub(crate) trait Compared: Copy {
    ghost number: { Self → ℤ };

    // It stands for one.
    ghost Stands: { Self → Type 0 } = { λ x. Unit {0} };

    // Whether the later of two is strictly further out.
    fn falls_short(self, side: Side, later: Self) -> bool
        requires { Stands self × Stands later }
        ensures { result ≡ short side (number self) (number later) };
}

impl Compared for i64 {
    ghost number = { λ x. x };

    fn falls_short(self, side: Side, later: i64) -> bool {
        match side {
            Side::Greatest => self < later,
            Side::Least => later < self,
        }
    }
}

impl Compared for Pair {
    ghost number = { units };

    ghost Stands = { λ p. proper p ≡ true };

    fn falls_short(self, side: Side, later: Pair) -> bool {
        match side {
            Side::Greatest => pair::less(self, later),
            Side::Least => pair::less(later, self),
        }
    }
}

// The further out of two, the first where they are alike.
pub(crate) fn the_further<T: Compared>(side: Side, first: T, last: T) -> T
    requires { T.Stands first × T.Stands last }
    ensures { result ≡ cond (short side (T.number first) (T.number last)) last first }
{
    if first.falls_short(side, last) {
        return last;
    }
    first
}

// Nothing yet, where the wind is 0.
#[derive(Clone, Copy)]
pub struct Top<T = Pair> {
    pub total: T,
    pub wind: u32,
    pub internal: u32,
}

// On one axis, and on all.
#[derive(Clone, Copy)]
pub struct Tops<T = Pair> {
    pub greatest: Top<T>,
    pub least: Top<T>,
}

#[derive(Clone, Copy)]
pub struct Ends<T = Pair> {
    pub x: Tops<T>,
    pub y: Tops<T>,
    pub z: Tops<T>,
}

pub(crate) const NO_PAIR: Pair = Pair {
    newtons: 0,
    remainder: 0,
};

pub(crate) fn no_ends<T: Copy>(zero: T) -> Ends<T>
    ensures { result ≡ no_ends zero }
{
    let none = Top {
        total: zero,
        wind: 0,
        internal: 0,
    };
    let pair = Tops {
        greatest: none,
        least: none,
    };
    Ends {
        x: pair,
        y: pair,
        z: pair,
    }
}

// A later cell takes the place of an earlier one only where that falls short of it.
pub(crate) fn kept<T: Compared>(
    side: Side,
    top: Top<T>,
    total: T,
    wind: u32,
    internal: u32,
) -> Top<T>
    requires { (0 < wind) × T.Stands top.total × T.Stands total }
    ensures { (top_by T.number result ≡ better side (top_by T.number top) (at (T.number total) (cell wind internal)))
        × T.Stands result.total }
{
    if top.wind == 0 || top.total.falls_short(side, total) {
        return Top {
            total,
            wind,
            internal,
        };
    }
    top
}
