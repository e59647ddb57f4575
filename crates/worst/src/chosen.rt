// The six cases that were found, with their alternatives: under its wind each face goes as far as it can. Zone F alone
// has two to choose from.
ghost use Rattle.std.specs.Prelude.{◌≡◌, ℕ, ◌≤◌, ◌<◌, replicate};
ghost use Rattle.building.specs.Places.{F};
ghost use Rattle.entry.specs.Flat.{face_in};
ghost use Rattle.worst.specs.declared.Axis.{Axis};
ghost use Rattle.worst.specs.declared.Side.{Side};
ghost use Rattle.worst.specs.Forces.{area};
ghost use Rattle.worst.specs.Shown.{padded};
ghost use Rattle.worst.specs.Engine.{pick, pick_of, top_at, extreme_with, six_with, put_at};
ghost use Rattle.worst.specs.Engine.{case_wind, six_winds, six_of};
ghost use Rattle.worst.specs.Small.{OutsideSmall, Weight, Met, Ready, OnJob};
ghost use Rattle.worst.specs.Lent.{faces_by, job_by, Numbered, Lent};
ghost use Rattle.worst.specs.Factors.{profile_of, Fraction, FactorsStand, Fractions};

use crate::faces::{face_in, zone_in};
use crate::outside::{Outside, Table, takes_part};
use crate::speeds::Factor;
use crate::sums::pressure_of;
use crate::tops::{Compared, Ends, Top};
use crate::winds::{CaseWind, SixWinds, six_winds};
use crate::{Axis, Extreme, Extremes, Side, Six};
use building::Building;
use entry::Face;
use job::Setting;

fn area_on(axis: Axis, f: Face) -> i64
    ensures { result ≡ area axis f }
{
    match axis {
        Axis::X => f.x,
        Axis::Y => f.y,
        Axis::Z => f.z,
    }
}

// The last alternative only where the first falls short of it.
fn picked(side: Side, o: Outside, weight: i64) -> u8
    requires { OutsideSmall o × Weight weight }
    ensures { result ≡ pick side o weight }
{
    let first = o.first * weight;
    let last = o.last * weight;
    if first.falls_short(side, last) {
        return 2;
    }
    1
}

// That of a face of zone F in the case of an axis and a side, under the wind of that case.
fn one_of_two(axis: Axis, side: Side, b: Building, under: CaseWind, factor: Factor, f: Face) -> u8
    requires { Met b under.wind f × Fraction factor × (f.zone ≡ F) × (under ≡ case_wind b under.wind) }
    ensures { result ≡ pick_of side axis b under.wind factor f }
{
    let w = under.wind;
    if takes_part(f, w) {
        let p = pressure_of(b, w, factor);
        return picked(side, under.outside, p * area_on(axis, f));
    }
    1
}

// A case with its alternatives, and all six with the same.
fn extreme(top: Top, faces: u32, alternative: [u8; 240]) -> Extreme
    ensures { result ≡ extreme_with top faces alternative }
{
    let total = top.total;
    Extreme {
        total,
        wind: top.wind,
        internal: top.internal,
        faces,
        alternative,
    }
}

fn six_cases(ends: Ends, faces: u32, alternative: [u8; 240]) -> Six
    ensures { result ≡ six_with ends faces alternative alternative alternative alternative alternative alternative }
{
    let x_most = extreme(ends.x.greatest, faces, alternative);
    let x_least = extreme(ends.x.least, faces, alternative);
    let y_most = extreme(ends.y.greatest, faces, alternative);
    let y_least = extreme(ends.y.least, faces, alternative);
    let z_most = extreme(ends.z.greatest, faces, alternative);
    let z_least = extreme(ends.z.least, faces, alternative);
    let x = Extremes {
        greatest: x_most,
        least: x_least,
    };
    let y = Extremes {
        greatest: y_most,
        least: y_least,
    };
    let z = Extremes {
        greatest: z_most,
        least: z_least,
    };
    Six { x, y, z }
}

// The first alternative for so many faces.
fn firsts(count: usize) -> [u8; 240]
    requires { count ≤ 240 }
    ensures { result ≡ padded 240 (replicate count 1) }
{
    let mut all = [0u8; 240];
    for i in 0..count {
        all[i] = 1;
    }
    all
}

// How many faces stand before the first of zone F: all, where there is none.
fn before_f(faces: u32, flat: &[i64]) -> usize
    requires { Numbered faces flat.now }
    ensures { (result ≤ faces) × ((k : ℕ) → k < result → (face_in flat.now k).zone ≡ F → ⊥)
        × (result < faces → (face_in flat.now result).zone ≡ F) }
{
    let count = faces as usize;
    for i in 0..count {
        if zone_in(flat, i) == b'F' {
            return i;
        }
    }
    count
}

// The alternatives of face i in the two cases of an axis, put there.
fn put(cases: &mut Extremes, i: usize, greatest: u8, least: u8)
    requires { i < 240 }
    ensures { cases.new ≡ put_at i greatest least cases.old }
{
    cases.greatest.alternative[i] = greatest;
    cases.least.alternative[i] = least;
}

// All six in one pass over the faces.
fn all_chosen(
    s: Setting,
    faces: u32,
    flat: &[i64],
    ends: Ends,
    under: SixWinds,
    factors: &[Factor],
) -> Six
    requires { Lent faces flat.now factors.now × Ready (job_by s faces flat.now)
        × Fractions (faces_by faces flat.now) factors.now
        × FactorsStand (profile_of (job_by s faces flat.now)) (faces_by faces flat.now) factors.now
        × ((axis : Axis) (side : Side) → OnJob (job_by s faces flat.now) (top_at axis side ends))
        × (under ≡ six_winds s.building s.winds ends) }
    ensures { result ≡ six_of (job_by s faces flat.now) ends }
{
    let b = s.building;
    let mut six = six_cases(ends, faces, [0; 240]);
    for i in 0..faces as usize {
        if zone_in(flat, i) != b'F' {
            put(&mut six.x, i, 1, 1);
            put(&mut six.y, i, 1, 1);
            put(&mut six.z, i, 1, 1);
            continue;
        }
        let f = face_in(flat, i);
        let k = factors[i];
        let x_up = one_of_two(Axis::X, Side::Greatest, b, under.x.greatest, k, f);
        let x_down = one_of_two(Axis::X, Side::Least, b, under.x.least, k, f);
        let y_up = one_of_two(Axis::Y, Side::Greatest, b, under.y.greatest, k, f);
        let y_down = one_of_two(Axis::Y, Side::Least, b, under.y.least, k, f);
        let z_up = one_of_two(Axis::Z, Side::Greatest, b, under.z.greatest, k, f);
        let z_down = one_of_two(Axis::Z, Side::Least, b, under.z.least, k, f);
        put(&mut six.x, i, x_up, x_down);
        put(&mut six.y, i, y_up, y_down);
        put(&mut six.z, i, z_up, z_down);
    }
    six
}

// The six cases: without a face of zone F nothing is chosen.
pub(crate) fn shown(
    s: Setting,
    faces: u32,
    flat: &[i64],
    ends: Ends,
    factors: &[Factor],
    table: &mut Table,
) -> Six
    requires { Lent faces flat.now factors.now × Ready (job_by s faces flat.now)
        × Fractions (faces_by faces flat.now) factors.now
        × FactorsStand (profile_of (job_by s faces flat.now)) (faces_by faces flat.now) factors.now
        × ((axis : Axis) (side : Side) → OnJob (job_by s faces flat.now) (top_at axis side ends))
        × (table.old.building ≡ s.building) }
    ensures { result ≡ six_of (job_by s faces flat.now) ends }
{
    let count = faces as usize;
    let before = before_f(faces, flat);
    if before == count {
        return six_cases(ends, faces, firsts(count));
    }
    let under = six_winds(table, s.winds, ends);
    all_chosen(s, faces, flat, ends, under, factors)
}
