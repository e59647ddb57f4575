// The fault of a count or an entry of a job given as a record, as its line would get it: a number too long is out of
// form.
ghost use Rattle.std.specs.Prelude.{◌≡◌, false, cond, not, ◌&&◌, ◌||◌, [], ◌∷◌};
ghost use Rattle.building.specs.Test.{is, too_long};
ghost use Rattle.building.specs.Year.{has_heights};
ghost use Rattle.entry.specs.Says.{both};
ghost use Rattle.rules.specs.Sections.{about, line_fault};
ghost use Rattle.entry_written.specs.Fields.{year_fields, building_fields, wind_fields, internal_fields};
ghost use Rattle.entry_written.specs.Fields.{step_fields, face_fields};

use building::Dated;
use building::limits::too_long;
use building::year::has_heights;
use entry::says::carried_face;
use entry::{BOTH, Face, Step, Wind};
use field::Field;
use rules::{Before, Kind, Section, entries, shape};

pub(crate) fn count_fault(b: Before, s: Section, n: u32) -> u32
    ensures { result ≡ line_fault (Kind.Count s) b (Field.Letter (about s).letter ∷ Field.Plus n ∷ []) }
{
    let letter = shape::section_letter(s);
    entries::count_fault(b.year, s, letter, n as i64)
}

// 1 where one of these tests finds a number that is too long, and else n.
fn in_form(a: bool, b: bool, c: bool, d: bool, e: bool, n: u32) -> u32
    ensures { result ≡ cond (a || (b || (c || (d || (e || false))))) 1 n }
{
    if a || b || c || d || e {
        return 1;
    }
    n
}

pub(crate) fn year_fault(year: i64) -> u32
    ensures { (b : Before) → result ≡ line_fault (Kind.Entry Section.«V») b (year_fields year) }
{
    let long = too_long(year);
    in_form(long, false, false, false, false, entries::year_fault(year))
}

// The building, by the year that was read before it.
pub(crate) fn building_fault(b: Before) -> u32
    ensures { result ≡ line_fault (Kind.Entry Section.B) b (building_fields b.building) }
{
    let year = b.year;
    let building = b.building;
    building::given_fault(Dated { year, building })
}

pub(crate) fn wind_fault(b: Before, w: Wind) -> u32
    ensures { result ≡ line_fault (Kind.Entry Section.W) b (wind_fields w) }
{
    in_form(
        too_long(w.direction),
        too_long(w.speed),
        false,
        false,
        false,
        entries::wind_fault(b.building, w),
    )
}

pub(crate) fn internal_fault(i: i64) -> u32
    ensures { (b : Before) → result ≡ line_fault (Kind.Entry Section.I) b (internal_fields i) }
{
    let long = too_long(i);
    in_form(long, false, false, false, false, entries::internal_fault(i))
}

// A step behind one of this height.
pub(crate) fn step_fault(highest: i64, s: Step) -> u32
    ensures { (b : Before) → highest ≡ b.highest
        → result ≡ line_fault (Kind.Entry Section.P) b (step_fields s) }
{
    in_form(
        too_long(s.height),
        too_long(s.factor),
        false,
        false,
        false,
        entries::step_fault(highest, s),
    )
}

// The mark for every direction is written as a dash.
fn mark_too_long(m: i64) -> bool
    ensures { result ≡ (not (is both m) && too_long m) }
{
    m != BOTH && too_long(m)
}

// A height that the sheet does not carry counts for nothing.
pub(crate) fn face_fault(b: Before, face: Face) -> u32
    ensures { result ≡ line_fault (Kind.Entry Section.F) b (face_fields (has_heights b.year) face) }
{
    let f = carried_face(has_heights(b.year), face);
    in_form(
        mark_too_long(f.mark),
        too_long(f.height),
        too_long(f.x),
        too_long(f.y),
        too_long(f.z),
        entries::face_fault(b, f),
    )
}
