// The tests of a building's line, in their order.
ghost use Rattle.std.specs.Prelude.{◌≡◌, false, map, ◌≤◌, ℤ, pos};
ghost use Rattle.building.specs.Roof.{last_kind, roof_of, along_of, across_of};
ghost use Rattle.building.specs.Order.{Ranged};
ghost use Rattle.building.specs.Building as building;
ghost use Rattle.building.specs.Test.{beyond};
ghost use Rattle.building.specs.Fault.{first_spot, spot_of};
ghost use Rattle.building.specs.Building.{Range, ranges, range_faults, faults};
ghost use Rattle.building.specs.Building.{out_of_form, out_of_range, out_of_walls, out_of_roof, sizes};

use super::limits::{beyond, too_long};
use super::ratio::up_to;
use super::year::has_squares;
use super::{Building, Sizes};

pub(crate) fn out_of_form(g: Building) -> bool
    ensures { result ≡ out_of_form g }
{
    [
        too_long(g.h),
        too_long(g.a),
        too_long(g.b),
        too_long(g.density),
        too_long(g.kind),
        too_long(g.x),
    ]
    .iter()
    .any(|t| *t)
}

// The ranges of the line's numbers.
pub(crate) const LEAST_LENGTH: i64 = 100;

pub(crate) const MOST_LENGTH: i64 = 30000;

pub(crate) const LEAST_DENSITY: i64 = 1000;

pub(crate) const MOST_DENSITY: i64 = 1500;

pub(crate) const LAST_KIND: i64 = 6;

pub(crate) const MOST_X: i64 = 30000;

// Which of the line's numbers lie outside their ranges.
fn outside(g: Building) -> [bool; 6]
    ensures { result ≡ map (λ r. beyond (pos r.least) (pos r.greatest) r.number) (ranges g) }
{
    [
        beyond(LEAST_LENGTH, MOST_LENGTH, g.h),
        beyond(LEAST_LENGTH, MOST_LENGTH, g.a),
        beyond(LEAST_LENGTH, MOST_LENGTH, g.b),
        beyond(LEAST_DENSITY, MOST_DENSITY, g.density),
        beyond(0, LAST_KIND, g.kind),
        beyond(0, MOST_X, g.x),
    ]
}

pub(crate) fn out_of_range(g: Building) -> bool
    ensures { result ≡ out_of_range g }
{
    outside(g).iter().any(|t| *t)
}

// The field of the first number that is out of its range, 0 where none is.
pub(crate) fn range_field(g: Building) -> u32
    ensures { (year : ℤ) → first_spot (range_faults 1 (ranges g)) ≡ spot_of result (faults year g) }
{
    match outside(g).iter().position(|t| *t) {
        Some(i) => i as u32 + 1,
        None => 0,
    }
}

// A roof: the least x and the greatest, and whether they are thousandths of h.
#[derive(Clone, Copy)]
pub(crate) struct Roof(pub u64, pub u64, pub bool);

// Kind by kind. A constant array would be built anew wherever it is indexed.
pub(crate) fn roof_of(kind: u64) -> Roof
    requires { kind ≤ last_kind }
    ensures least { result.0 ≡ (roof_of kind).least }
    ensures greatest { result.1 ≡ (roof_of kind).greatest }
    ensures by_height { result.2 ≡ (roof_of kind).by_height }
{
    match kind {
        0 => Roof(0, 0, false),
        1 => Roof(0, 600, false),
        2 => Roof(0, 0, false),
        3 => Roof(25, 100, true),
        4 => Roof(50, 200, true),
        5 => Roof(300, 900, false),
        _ => Roof(50, 300, false),
    }
}

// x, or 1000 x where it is compared with h.
pub(crate) fn along(kind: u64, x: u64) -> u64
    requires { (kind ≤ last_kind) × (x ≤ 30000) }
    ensures { result ≡ along_of kind x }
{
    let by_height = roof_of(kind).2;
    if by_height { 1000 * x } else { x }
}

fn across(kind: u64, h: u64) -> u64
    requires { kind ≤ last_kind }
    ensures { result ≡ across_of kind h }
{
    let by_height = roof_of(kind).2;
    if by_height { h } else { 1 }
}

pub(crate) fn sizes_of(g: Building) -> Sizes
    requires { out_of_range g ≡ false }
    ensures { result ≡ sizes g }
{
    let h = whole::magnitude(g.h);
    let b = whole::magnitude(g.b);
    let kind = whole::magnitude(g.kind);
    Sizes {
        h: h as u32,
        a: whole::magnitude(g.a) as u32,
        b: b as u32,
        kind,
        along: along(kind, whole::magnitude(g.x)),
        across: across(kind, h),
    }
}

// Whether the walls' table has begun at a/b: just over 1, and at 1 where it has square plans.
fn begun(year: i64, a: u32, b: u32) -> bool
    ensures { result ≡ building.begun year a b }
{
    if has_squares(year) { b <= a } else { b < a }
}

// h/b over 6; a/b before the table begins; a/b over 4.
pub(crate) fn out_of_walls(year: i64, s: Sizes) -> bool
    ensures { result ≡ out_of_walls year s }
{
    !up_to(s.h, s.b, 6, 1) || !begun(year, s.a, s.b) || !up_to(s.a, s.b, 4, 1)
}

// Along over across below the least of the roof's kind, or above the greatest.
pub(crate) fn out_of_roof(s: Sizes) -> bool
    requires { Ranged s }
    ensures { result ≡ out_of_roof s }
{
    let roof = roof_of(s.kind);
    s.along < roof.0 * s.across || roof.1 * s.across < s.along
}
