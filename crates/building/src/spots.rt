// Where the line of a building has its fault, and what may stand there.
ghost use Rattle.std.specs.Prelude.{◌≡◌, cond, ◌*◌, ◌≤◌, min, ℤ, pos};
ghost use Rattle.building.specs.Fault as fault;
ghost use Rattle.building.specs.Fault.{first_spot, spot_of};
ghost use Rattle.building.specs.Order.{Ranged};
ghost use Rattle.building.specs.Building.{ranges, range_faults, faults, most_length, walls_spot, roof_spot};

use super::ratio::up_to;
use super::year::has_squares;
use super::{Building, Dated, Sizes, Spot, faults};

pub fn ranged(field: u32, least: i64, greatest: i64) -> Spot
    ensures { result ≡ fault.ranged field least greatest }
{
    Spot {
        field,
        least,
        greatest,
    }
}

// A field of the line, whatever stands there.
pub fn field_spot(field: u32) -> Spot
    ensures { (year : ℤ) (g : Building) → result ≡ spot_of field (faults year g) }
{
    if field == 0 {
        return ranged(0, 0, 0);
    }
    if field <= 3 {
        return ranged(field, faults::LEAST_LENGTH, faults::MOST_LENGTH);
    }
    if field == 4 {
        return ranged(4, faults::LEAST_DENSITY, faults::MOST_DENSITY);
    }
    if field == 5 {
        return ranged(5, 0, faults::LAST_KIND);
    }
    if field == 6 {
        return ranged(6, 0, faults::MOST_X);
    }
    ranged(field, 0, 0)
}

// So many times b, but no more than a length may be.
fn length_to(times: u64, b: u32) -> i64
    requires { times ≤ 6 }
    ensures { result ≡ pos (min most_length (times * b)) }
{
    let most = times * (b as u64);
    if 30000 < most {
        return 30000;
    }
    most as i64
}

fn walls_spot(year: i64, s: Sizes) -> Spot
    ensures { result ≡ walls_spot year s }
{
    if !up_to(s.h, s.b, 6, 1) {
        return ranged(1, faults::LEAST_LENGTH, length_to(6, s.b));
    }
    if has_squares(year) {
        return ranged(2, s.b as i64, length_to(4, s.b));
    }
    ranged(2, ((s.b as u64) + 1) as i64, length_to(4, s.b))
}

fn roof_spot(s: Sizes) -> Spot
    requires { Ranged s }
    ensures { result ≡ roof_spot s }
{
    let roof = faults::roof_of(s.kind);
    let least = roof.0 * s.across;
    let greatest = roof.1 * s.across;
    let scale = faults::along(s.kind, 1);
    ranged(
        6,
        ((least + (scale - 1)) / scale) as i64,
        (greatest / scale) as i64,
    )
}

// The spot of the line's first fault in a sheet of its year, field 0 where it has none.
pub fn building_spot(d: Dated) -> Spot
    ensures { result ≡ first_spot (faults d.year d.building) }
{
    if faults::out_of_range(d.building) {
        return field_spot(faults::range_field(d.building));
    }
    let s = faults::sizes_of(d.building);
    if faults::out_of_walls(d.year, s) {
        return walls_spot(d.year, s);
    }
    if faults::out_of_roof(s) {
        return roof_spot(s);
    }
    ranged(0, 0, 0)
}
