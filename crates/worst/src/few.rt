// Up to 24 faces under one wind, added up: 64 bits hold each sum. A face's weight on an axis is its pressure number ×
// its projected area. An internal coefficient is one for all faces: it changes no choice of alternatives, and meets the
// sum of the weights.
ghost use Rattle.std.specs.Prelude.{◌≡◌, List, ℕ, ◌+◌, ◌-◌, ◌≤◌};
ghost use Rattle.whole.specs.Lists.{first_of};
ghost use Rattle.entry.specs.declared.Step.{Step};
ghost use Rattle.entry.specs.Flat.{faces_in};
ghost use Rattle.job.specs.Carried.{no_face};
ghost use Rattle.worst.specs.Sums.{no_axes, plus_axes};
ghost use Rattle.worst.specs.Few.{few_in, few_axes, FewAxisSmall, FewSmall};
ghost use Rattle.worst.specs.Lent.{faces_by, Lent};
ghost use Rattle.worst.specs.Engine.{faces_of, with_weight, with_pressure, with_face, axes_of};
ghost use Rattle.worst.specs.Small.{OutsideSmall, FaceSmall, Pressure, Weight, Met, AllMet};
ghost use Rattle.worst.specs.Factors.{Fraction, FactorsStand, Fractions};

use crate::Side;
use crate::faces::face_in;
use crate::outside::{Outside, Table, takes_part};
use crate::speeds::Factor;
use crate::sums::pressure_of;
use crate::tops::the_further;
use building::Building;
use entry::{Face, Wind};

// On one axis, of the products of outside coefficient and weight the greatest and the least sum; and the sum of the
// weights.
#[derive(Clone, Copy)]
pub struct FewAxis {
    pub greatest: i64,
    pub least: i64,
    pub weight: i64,
}

#[derive(Clone, Copy)]
pub struct FewSums {
    pub x: FewAxis,
    pub y: FewAxis,
    pub z: FewAxis,
}

// One face more on one axis, at its weight there.
fn with_weight(sums: FewAxis, o: Outside, weight: i64) -> FewAxis
    requires { FewAxisSmall 23 sums × OutsideSmall o × Weight weight }
    ensures { (few_in result ≡ with_weight o weight (few_in sums))
        × ((n : ℕ) → FewAxisSmall n sums → FewAxisSmall (n + 1) result) }
{
    let first = o.first * weight;
    let last = o.last * weight;
    let most = the_further(Side::Greatest, first, last);
    let fewest = the_further(Side::Least, first, last);
    FewAxis {
        greatest: sums.greatest + most,
        least: sums.least + fewest,
        weight: sums.weight + weight,
    }
}

// One face more on every axis, at its pressure number.
fn with_pressure(sums: FewSums, f: Face, o: Outside, pressure: i64) -> FewSums
    requires { FewSmall 23 sums × FaceSmall f × OutsideSmall o × Pressure pressure }
    ensures { (few_axes result ≡ with_pressure f o pressure (few_axes sums))
        × ((n : ℕ) → FewSmall n sums → FewSmall (n + 1) result) }
{
    let x = with_weight(sums.x, o, pressure * f.x);
    let y = with_weight(sums.y, o, pressure * f.y);
    let z = with_weight(sums.z, o, pressure * f.z);
    FewSums { x, y, z }
}

// One face more under a wind, at its factor. One that does not take part adds nothing, and nothing is looked up for
// it.
fn with_face(
    sums: FewSums,
    b: Building,
    w: Wind,
    factor: Factor,
    f: Face,
    table: &mut Table,
) -> FewSums
    requires { FewSmall 23 sums × Met b w f × Fraction factor × (table.old.building ≡ b) }
    ensures { (few_axes result ≡ with_face b w factor f (few_axes sums))
        × ((n : ℕ) → FewSmall n sums → FewSmall (n + 1) result)
        × (table.new.building ≡ b) }
{
    if takes_part(f, w) {
        let o = table.found(w, f.zone);
        let p = pressure_of(b, w, factor);
        return with_pressure(sums, f, o, p);
    }
    sums
}

fn none() -> FewSums
    ensures { (few_axes result ≡ no_axes) × FewSmall 0 result }
{
    let zero = FewAxis {
        greatest: 0,
        least: 0,
        weight: 0,
    };
    FewSums {
        x: zero,
        y: zero,
        z: zero,
    }
}

// The faces from one place up to another, each at its factor: with the sums of those before they are the sums of all up
// to there, at whatever profile has these factors at their heights.
pub(crate) fn few_added(
    b: Building,
    flat: &[i64],
    factors: &[Factor],
    from: usize,
    to: usize,
    w: Wind,
    table: &mut Table,
) -> FewSums
    requires { Lent to flat.now factors.now × (from ≤ to) × (to ≤ from + 24)
        × AllMet b (faces_by to flat.now) w × Fractions (faces_by to flat.now) factors.now
        × (table.old.building ≡ b) }
    ensures { FewSmall (to - from) result
        × ((profile : List Step)
        → FactorsStand profile (faces_by to flat.now) factors.now
        → plus_axes (axes_of b profile w (first_of no_face from (faces_in to flat.now))) (few_axes result)
        ≡ axes_of b profile w (faces_of (faces_by to flat.now)))
        × (table.new.building ≡ b) }
{
    let mut sums = none();
    for i in from..to {
        let f = face_in(flat, i);
        sums = with_face(sums, b, w, factors[i], f, table);
    }
    sums
}
