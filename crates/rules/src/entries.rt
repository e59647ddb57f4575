// The lowest fault of an entry, or of a count, by its values: of a line that is in form, and of a record.
ghost use Rattle.std.specs.Prelude.{◌≡◌, cond, ◌||◌, ℕ};
ghost use Rattle.building.specs.Fault.{first};
ghost use Rattle.building.specs.Places as places;
ghost use Rattle.building.specs.Test as test;
ghost use Rattle.entry.specs.Says.{both};
ghost use Rattle.rules.specs.Faults.{year_faults, wind_faults, internal_faults, height_fault, step_faults};
ghost use Rattle.rules.specs.Faults.{unmarked_wall, area_fault, off_profile, place_faults, face_faults};
ghost use Rattle.rules.specs.Sections.{count_faults};

use crate::{Before, Section, shape};
use building::Building;
use building::kinds::{knows, on_walls, single, wall_place};
use building::limits::beyond;
use building::year::{LAST_YEAR, has_heights};
use entry::{BOTH, Face, Step, Wind};

// The ranges of an entry's numbers: the year that a sheet says, a speed, an internal coefficient, a height, a factor
// and an area.
pub(crate) const FIRST_SAID: i64 = 2;

pub(crate) const MOST_SPEED: i64 = 1000;

pub(crate) const LEAST_INTERNAL: i64 = -100;

pub(crate) const MOST_INTERNAL: i64 = 100;

pub(crate) const MOST_HEIGHT: i64 = 30000;

pub(crate) const MOST_FACTOR: i64 = 1000;

pub(crate) const LEAST_AREA: i64 = -100000;

pub(crate) const MOST_AREA: i64 = 100000;

// Fault n where it is found, and else the next that is.
fn fault(n: u32, found: bool, next: u32) -> u32
    ensures { result ≡ cond found n next }
{
    if found {
        return n;
    }
    next
}

pub fn count_fault(year: i64, s: Section, letter: u8, n: i64) -> u32
    ensures { result ≡ first (count_faults year s letter n) }
{
    let own = shape::section_letter(s);
    let l = shape::limits_of(year, s);
    fault(
        1,
        letter != own,
        fault(2, beyond(l.least as i64, l.most as i64, n), 0),
    )
}

pub fn year_fault(year: i64) -> u32
    ensures { result ≡ first (year_faults year) }
{
    fault(3, beyond(FIRST_SAID, LAST_YEAR, year), 0)
}

pub fn wind_fault(g: Building, w: Wind) -> u32
    ensures { result ≡ first (wind_faults g w) }
{
    fault(
        3,
        !knows(g.kind, w.direction),
        fault(3, beyond(1, MOST_SPEED, w.speed), 0),
    )
}

pub fn internal_fault(i: i64) -> u32
    ensures { result ≡ first (internal_faults i) }
{
    fault(3, beyond(LEAST_INTERNAL, MOST_INTERNAL, i), 0)
}

fn height_fault(z: i64, next: u32) -> u32
    ensures { (field : ℕ) → result ≡ cond (height_fault field z).found 3 next }
{
    fault(3, beyond(0, MOST_HEIGHT, z), next)
}

// A step behind one of this height.
pub fn step_fault(highest: i64, s: Step) -> u32
    ensures { result ≡ first (step_faults highest s) }
{
    let factor = fault(3, beyond(1, MOST_FACTOR, s.factor), 0);
    let rise = fault(3, !(highest < s.height), factor);
    height_fault(s.height, rise)
}

// A letter from A to H.
pub(crate) fn is_zone(b: u8) -> bool
    ensures { result ≡ test.among places.A places.H b }
{
    matches!(b, b'A'..=b'H')
}

// For every direction, or for one that the roof knows.
pub(crate) fn is_marked(g: Building, m: i64) -> bool
    ensures { result ≡ (test.is both m || places.knows g.kind m) }
{
    m == BOTH || knows(g.kind, m)
}

// On a single slope, a wall that is not marked for a direction that the walls' table has.
pub(crate) fn unmarked_wall(g: Building, f: Face) -> bool
    ensures { result ≡ unmarked_wall g.kind f }
{
    single(g.kind) && wall_place(f.zone) && !on_walls(f.mark)
}

fn off_area(z: i64) -> bool
    ensures { (field : ℕ) → result ≡ (area_fault field z).found }
{
    beyond(LEAST_AREA, MOST_AREA, z)
}

pub(crate) fn off_profile(b: Before, z: i64) -> bool
    ensures { result ≡ off_profile b z }
{
    has_heights(b.year) && beyond(b.lowest, b.highest, z)
}

// Where a face stands: its zone, its wall, its height.
fn place_fault(b: Before, f: Face) -> u32
    ensures { result ≡ first (place_faults b f) }
{
    let g = b.building;
    if !building::zone_on(g.kind, f.zone) || unmarked_wall(g, f) {
        return 6;
    }
    if off_profile(b, f.height) {
        return 8;
    }
    0
}

pub fn face_fault(b: Before, f: Face) -> u32
    ensures { result ≡ first (face_faults b f) }
{
    if !is_zone(f.zone) {
        return 1;
    }
    if !is_marked(b.building, f.mark) {
        return 3;
    }
    if beyond(0, MOST_HEIGHT, f.height) {
        return 3;
    }
    if off_area(f.x) {
        return 3;
    }
    if off_area(f.y) {
        return 3;
    }
    if off_area(f.z) {
        return 3;
    }
    place_fault(b, f)
}
