// The case that goes furthest so far, on each axis and side: a later one takes its place only where it goes further.
ghost use Rattle.std.specs.Prelude.{◌≡◌, List, ℕ, ◌<◌, length};
ghost use Rattle.whole.specs.Lists.{first_of};
ghost use Rattle.job.specs.Carried.{most_faces};
ghost use Rattle.worst.specs.declared.Side.{Side};
ghost use Rattle.worst.specs.declared.Axis.{Axis};
ghost use Rattle.worst.specs.Best.{Best, none, at, better};
ghost use Rattle.worst.specs.Cases.{Case, total};
ghost use Rattle.worst.specs.Shown.{padded, shown};
ghost use Rattle.worst.specs.Rows.{force_in};
ghost use Rattle.worst.specs.Worst.{on_side, shown_in};
ghost use Rattle.plain.specs.Walked.{case_with, short_of, Keeps, KeepsWith, Underway};

use crate::add;
use job::MOST_FACES;
use pair::Pair;
use worst::{Extreme, Extremes, FaceForces, Side, Six};

// No case yet, for a job with so many faces: the number of the wind is 0.
pub(crate) fn nothing_yet(faces: u32) -> Six
    ensures { (axis : Axis) (s : Side) → shown_in result axis s ≡ shown faces none }
{
    let alternative = [0u8; MOST_FACES];
    let total = Pair {
        newtons: 0,
        remainder: 0,
    };
    let none = Extreme {
        total,
        wind: 0,
        internal: 0,
        faces,
        alternative,
    };
    let both = Extremes {
        greatest: none,
        least: none,
    };
    Six {
        x: both,
        y: both,
        z: both,
    }
}

// Whether a later total is strictly further out.
fn further(side: Side, earlier: Pair, later: Pair) -> bool
    ensures { result ≡ short_of side earlier later }
{
    match side {
        Side::Greatest => pair::less(earlier, later),
        Side::Least => pair::less(later, earlier),
    }
}

// On one side of one axis.
fn kept(
    side: Side,
    e: Extreme,
    total: Pair,
    choice: [u8; MOST_FACES],
    wind: u32,
    internal: u32,
) -> Extreme
    requires { 0 < wind }
    ensures { KeepsWith side e result total choice wind internal }
{
    let later = Extreme {
        total,
        wind,
        internal,
        faces: e.faces,
        alternative: choice,
    };
    if e.wind == 0 || further(side, e.total, total) {
        return later;
    }
    e
}

// On both sides of it.
fn both_kept(
    e: Extremes,
    total: Pair,
    choice: [u8; MOST_FACES],
    wind: u32,
    internal: u32,
) -> Extremes
    requires { 0 < wind }
    ensures { (s : Side) → KeepsWith s (on_side s e) (on_side s result) total choice wind internal }
{
    let greatest = kept(Side::Greatest, e.greatest, total, choice, wind, internal);
    let least = kept(Side::Least, e.least, total, choice, wind, internal);
    Extremes { greatest, least }
}

// One case more on every axis.
pub(crate) fn with_case(
    six: Six,
    fs: &[FaceForces],
    choice: [u8; MOST_FACES],
    wind: u32,
    internal: u32,
) -> Six
    requires { Underway wind fs.now }
    ensures { (axis : Axis) (s : Side) (n : ℕ) (ks : List ℕ) (b : Best (Case ℕ ℕ ℕ))
        → choice ≡ padded most_faces ks → Keeps n (shown_in six axis s) b
        → Keeps n (shown_in result axis s)
        (better s b (at (total (force_in axis) fs.now (first_of 0 (length fs.now) choice))
        (case_with wind internal ks))) }
{
    let t = add::total(fs, choice);
    let x = both_kept(six.x, t.x, choice, wind, internal);
    let y = both_kept(six.y, t.y, choice, wind, internal);
    let z = both_kept(six.z, t.z, choice, wind, internal);
    Six { x, y, z }
}
