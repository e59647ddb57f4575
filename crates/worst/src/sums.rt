// The faces under one wind, added up: those of up to 24 faces at a time, whose sums move over into amounts.
ghost use Rattle.std.specs.Prelude.{◌≡◌, List, ℕ, ◌+◌, ◌≤◌, ◌<◌};
ghost use Rattle.entry.specs.declared.Step.{Step};
ghost use Rattle.worst.specs.Speed.{speed_at};
ghost use Rattle.worst.specs.Forces.{pressure};
ghost use Rattle.worst.specs.Sums.{no_axes, plus_sums, plus_axes};
ghost use Rattle.worst.specs.Few.{few_in, few_axes, FewAxisSmall, FewSmall};
ghost use Rattle.worst.specs.Amounts.{sums_in, axes_in, AxisSumsSmall, AllSumsSmall};
ghost use Rattle.worst.specs.Lent.{faces_by, Lent};
ghost use Rattle.worst.specs.Engine.{faces_of, axes_of};
ghost use Rattle.worst.specs.Small.{Dense, Slow, AllMet};
ghost use Rattle.worst.specs.Factors.{Fraction, FactorsStand, Fractions};

use crate::amounts::{Amount, plus};
use crate::few::{FewAxis, FewSums, few_added};
use crate::outside::Table;
use crate::speeds::{Factor, speed_at};
use building::Building;
use entry::Wind;

// On one axis, and on all.
#[derive(Clone, Copy)]
pub struct AxisSums {
    pub greatest: Amount,
    pub least: Amount,
    pub weight: i64,
}

#[derive(Clone, Copy)]
pub struct AllSums {
    pub x: AxisSums,
    pub y: AxisSums,
    pub z: AxisSums,
}

// The pressure number of a wind at a factor.
pub(crate) fn pressure_of(b: Building, w: Wind, factor: Factor) -> i64
    requires { Dense b × Slow w × Fraction factor }
    ensures { result ≡ pressure b.density (speed_at factor w.speed) }
{
    let speed = speed_at(factor, w.speed);
    b.density * (speed * speed)
}

// Some faces more: on one axis, and on all.
fn with_few(sums: AxisSums, few: FewAxis) -> AxisSums
    requires { AxisSumsSmall 239 sums × FewAxisSmall 24 few }
    ensures { (sums_in result ≡ plus_sums (sums_in sums) (few_in few))
        × ((n m : ℕ) → AxisSumsSmall n sums → FewAxisSmall (m + 1) few → AxisSumsSmall (n + (m + 1)) result) }
{
    let greatest = plus(sums.greatest, few.greatest);
    let least = plus(sums.least, few.least);
    AxisSums {
        greatest,
        least,
        weight: sums.weight + few.weight,
    }
}

fn with_all_few(sums: AllSums, few: FewSums) -> AllSums
    requires { AllSumsSmall 239 sums × FewSmall 24 few }
    ensures { (axes_in result ≡ plus_axes (axes_in sums) (few_axes few))
        × ((n m : ℕ) → AllSumsSmall n sums → FewSmall (m + 1) few → AllSumsSmall (n + (m + 1)) result) }
{
    let x = with_few(sums.x, few.x);
    let y = with_few(sums.y, few.y);
    let z = with_few(sums.z, few.z);
    AllSums { x, y, z }
}

fn nothing() -> AllSums
    ensures { (axes_in result ≡ no_axes) × AllSumsSmall 0 result }
{
    let zero = Amount {
        newtons: 0,
        units: 0,
    };
    let none = AxisSums {
        greatest: zero,
        least: zero,
        weight: 0,
    };
    AllSums {
        x: none,
        y: none,
        z: none,
    }
}

// Where the next 24 end, or all.
fn end_of_few(from: usize, count: usize) -> usize
    requires { (from < count) × (count ≤ 240) }
    ensures { (from < result) × (result ≤ count) × (result ≤ from + 24) }
{
    if from + 24 < count {
        return from + 24;
    }
    count
}

// All faces under a wind, each at its factor: they are those of whatever profile has these factors at their heights.
pub(crate) fn added(
    b: Building,
    faces: u32,
    flat: &[i64],
    factors: &[Factor],
    w: Wind,
    table: &mut Table,
) -> AllSums
    requires { Lent faces flat.now factors.now × AllMet b (faces_by faces flat.now) w
        × Fractions (faces_by faces flat.now) factors.now
        × (table.old.building ≡ b) }
    ensures { AllSumsSmall 240 result
        × ((profile : List Step)
        → FactorsStand profile (faces_by faces flat.now) factors.now
        → axes_in result ≡ axes_of b profile w (faces_of (faces_by faces flat.now)))
        × (table.new.building ≡ b) }
{
    let count = faces as usize;
    let mut sums = nothing();
    let mut i = 0;
    while i < count {
        let to = end_of_few(i, count);
        let few = few_added(b, flat, factors, i, to, w, table);
        sums = with_all_few(sums, few);
        i = to;
    }
    sums
}
