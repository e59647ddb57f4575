// Where a line has its fault, and what may stand there: by the values of a line in form, and by the field of another.
ghost use Rattle.std.specs.Prelude.{◌≡◌, cond, List, ℕ, eqb, ℤ};
ghost use Rattle.field.specs.declared.Field.{Field};
ghost use Rattle.lines.specs.Held.{held};
ghost use Rattle.building.specs.Fault as fault;
ghost use Rattle.building.specs.Fault.{first_spot, spot_of};
ghost use Rattle.building.specs.Building.{faults};
ghost use Rattle.rules.specs.Faults.{year_faults, wind_faults, internal_faults, step_faults, face_faults, next_height};
ghost use Rattle.rules.specs.Faults.{height_field, area_field, area_fault, place_faults};
ghost use Rattle.rules.specs.Sections.{count_faults, faults_of};

use crate::{Before, Kind, Section, entries, shape};
use building::kinds::knows;
use building::limits::beyond;
use building::spots::ranged;
use building::year::{LAST_YEAR, has_heights};
use building::{Building, Dated, Spot, spots};
use entry::{Face, Step, Wind, says};
use lines::{Line, field_at};

// ---- by the values of a line in form

// The spot where its fault is found, and else the next that is.
fn first(found: bool, here: Spot, next: Spot) -> Spot
    ensures { result ≡ cond found here next }
{
    if found {
        return here;
    }
    next
}

fn count_spot(year: i64, s: Section, letter: u8, n: i64) -> Spot
    ensures { result ≡ first_spot (count_faults year s letter n) }
{
    let own = shape::section_letter(s);
    let l = shape::limits_of(year, s);
    let least = l.least as i64;
    let most = l.most as i64;
    let count = first(
        beyond(least, most, n),
        ranged(2, least, most),
        ranged(0, 0, 0),
    );
    first(letter != own, ranged(1, 0, 0), count)
}

fn year_spot(year: i64) -> Spot
    ensures { result ≡ first_spot (year_faults year) }
{
    first(
        beyond(entries::FIRST_SAID, LAST_YEAR, year),
        ranged(1, entries::FIRST_SAID, LAST_YEAR),
        ranged(0, 0, 0),
    )
}

fn wind_spot(g: Building, w: Wind) -> Spot
    ensures { result ≡ first_spot (wind_faults g w) }
{
    let speed = first(
        beyond(1, entries::MOST_SPEED, w.speed),
        ranged(2, 1, entries::MOST_SPEED),
        ranged(0, 0, 0),
    );
    first(!knows(g.kind, w.direction), ranged(1, 0, 0), speed)
}

fn internal_spot(i: i64) -> Spot
    ensures { result ≡ first_spot (internal_faults i) }
{
    first(
        beyond(entries::LEAST_INTERNAL, entries::MOST_INTERNAL, i),
        ranged(1, entries::LEAST_INTERNAL, entries::MOST_INTERNAL),
        ranged(0, 0, 0),
    )
}

// The least height of a profile's next step: 0, or above the highest before it.
fn next_height(highest: i64) -> i64
    ensures { result ≡ next_height highest }
{
    if highest < 0 {
        return 0;
    }
    if highest < entries::MOST_HEIGHT {
        return highest + 1;
    }
    entries::MOST_HEIGHT + 1
}

fn step_spot(highest: i64, s: Step) -> Spot
    ensures { result ≡ first_spot (step_faults highest s) }
{
    let factor = first(
        beyond(1, entries::MOST_FACTOR, s.factor),
        ranged(2, 1, entries::MOST_FACTOR),
        ranged(0, 0, 0),
    );
    let rise = first(
        !(highest < s.height),
        ranged(1, next_height(highest), entries::MOST_HEIGHT),
        factor,
    );
    first(
        beyond(0, entries::MOST_HEIGHT, s.height),
        ranged(1, 0, entries::MOST_HEIGHT),
        rise,
    )
}

// The field of a face's height, 0 where it has none.
fn height_field(heights: bool) -> u32
    ensures { result ≡ height_field heights }
{
    if heights {
        return 3;
    }
    0
}

// The field of its first area.
fn area_field(heights: bool) -> u32
    ensures { result ≡ area_field heights 0 }
{
    if heights {
        return 4;
    }
    3
}

fn area_spot(field: u32, z: i64, next: Spot) -> Spot
    ensures { result ≡ cond (area_fault field z).found (area_fault field z).place next }
{
    first(
        beyond(entries::LEAST_AREA, entries::MOST_AREA, z),
        ranged(field, entries::LEAST_AREA, entries::MOST_AREA),
        next,
    )
}

// Of the faults behind the areas.
fn place_spot(b: Before, f: Face) -> Spot
    ensures { result ≡ first_spot (place_faults b f) }
{
    let g = b.building;
    let field = height_field(has_heights(b.year));
    let height = first(
        entries::off_profile(b, f.height),
        ranged(field, b.lowest, b.highest),
        ranged(0, 0, 0),
    );
    let wall = first(entries::unmarked_wall(g, f), ranged(2, 0, 0), height);
    first(!building::zone_on(g.kind, f.zone), ranged(1, 0, 0), wall)
}

fn face_spot(b: Before, f: Face) -> Spot
    ensures { result ≡ first_spot (face_faults b f) }
{
    let heights = has_heights(b.year);
    let at = area_field(heights);
    let z = area_spot(at + 2, f.z, place_spot(b, f));
    let areas = area_spot(at, f.x, area_spot(at + 1, f.y, z));
    let height = first(
        beyond(0, entries::MOST_HEIGHT, f.height),
        ranged(height_field(heights), 0, entries::MOST_HEIGHT),
        areas,
    );
    let mark = first(
        !entries::is_marked(b.building, f.mark),
        ranged(2, 0, 0),
        height,
    );
    first(!entries::is_zone(f.zone), ranged(1, 0, 0), mark)
}

// Of the first fault of a line in form, by what was read before it; field 0 where it has none.
pub fn line_spot(k: Kind, b: Before, x: Line) -> Spot
    ensures { result ≡ first_spot (faults_of k b (held x)) }
{
    match k {
        Kind::Count(s) => count_spot(
            b.year,
            s,
            says::letter_of(field_at(x, 0)),
            says::number_of(field_at(x, 1)),
        ),
        Kind::Entry(s) => match s {
            Section::V => year_spot(says::year_of(x)),
            Section::B => spots::building_spot(Dated {
                year: b.year,
                building: says::building_of(x),
            }),
            Section::W => wind_spot(b.building, says::wind_of(x)),
            Section::I => internal_spot(says::internal_of(x)),
            Section::P => step_spot(b.highest, says::step_of(x)),
            Section::F => face_spot(b, says::face_of(has_heights(b.year), x)),
        },
    }
}

// ---- by the field of a line out of form

// Field `own` with its range, where that is asked for, and else the next.
fn at(field: u32, own: u32, least: i64, greatest: i64, next: Spot) -> Spot
    ensures { result ≡ cond (eqb field own) (fault.ranged own least greatest) next }
{
    if field == own {
        return ranged(own, least, greatest);
    }
    next
}

fn count_field(year: i64, s: Section, field: u32) -> Spot
    ensures { (letter : ℕ) (n : ℤ) → result ≡ spot_of field (count_faults year s letter n) }
{
    let l = shape::limits_of(year, s);
    let none = ranged(field, 0, 0);
    at(
        field,
        1,
        0,
        0,
        at(field, 2, l.least as i64, l.most as i64, none),
    )
}

fn wind_field(field: u32) -> Spot
    ensures { (g : Building) (w : Wind) → result ≡ spot_of field (wind_faults g w) }
{
    let none = ranged(field, 0, 0);
    at(field, 1, 0, 0, at(field, 2, 1, entries::MOST_SPEED, none))
}

fn step_field(field: u32) -> Spot
    ensures { (highest : ℤ) (s : Step) → result ≡ spot_of field (step_faults highest s) }
{
    let none = ranged(field, 0, 0);
    at(
        field,
        1,
        0,
        entries::MOST_HEIGHT,
        at(field, 2, 1, entries::MOST_FACTOR, none),
    )
}

fn area_at(field: u32, own: u32, next: Spot) -> Spot
    ensures { (z : ℤ) → result ≡ cond (eqb field own) (area_fault own z).place next }
{
    at(field, own, entries::LEAST_AREA, entries::MOST_AREA, next)
}

fn face_field(b: Before, field: u32) -> Spot
    ensures { (f : Face) → result ≡ spot_of field (face_faults b f) }
{
    let heights = has_heights(b.year);
    let a = area_field(heights);
    let z = area_at(field, a + 2, ranged(field, 0, 0));
    let areas = area_at(field, a, area_at(field, a + 1, z));
    let height = at(field, height_field(heights), 0, entries::MOST_HEIGHT, areas);
    at(field, 1, 0, 0, at(field, 2, 0, 0, height))
}

// A field of a line of this kind, whatever stands in the line.
pub fn field_spot(k: Kind, b: Before, field: u32) -> Spot
    ensures { (fs : List Field) → result ≡ spot_of field (faults_of k b fs) }
{
    let none = ranged(field, 0, 0);
    match k {
        Kind::Count(s) => count_field(b.year, s, field),
        Kind::Entry(s) => match s {
            Section::V => at(field, 1, entries::FIRST_SAID, LAST_YEAR, none),
            Section::B => spots::field_spot(field),
            Section::W => wind_field(field),
            Section::I => at(
                field,
                1,
                entries::LEAST_INTERNAL,
                entries::MOST_INTERNAL,
                none,
            ),
            Section::P => step_field(field),
            Section::F => face_field(b, field),
        },
    }
}
