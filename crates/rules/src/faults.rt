// The lowest fault of one line: 1 where it is out of form, and else that of its entry.
ghost use Rattle.std.specs.Prelude.{◌≡◌};
ghost use Rattle.lines.specs.Held.{held};
ghost use Rattle.building.specs.Fault.{first};
ghost use Rattle.building.specs.Building.{faults};
ghost use Rattle.rules.specs.Sections.{faults_of, line_fault};

use crate::form_of::in_form;
use crate::{Before, Kind, Section, entries};
use building::year::has_heights;
use building::{Building, Dated};
use entry::says;
use lines::{Line, field_at};

// A count line in form.
fn count_fault(b: Before, s: Section, x: Line) -> u32
    ensures { result ≡ first (faults_of (Kind.Count s) b (held x)) }
{
    entries::count_fault(
        b.year,
        s,
        says::letter_of(field_at(x, 0)),
        says::number_of(field_at(x, 1)),
    )
}

// A building by the year that was read before it.
fn building_fault(b: Before, building: Building) -> u32
    ensures { result ≡ first (faults b.year building) }
{
    let year = b.year;
    building::building_fault(Dated { year, building })
}

// The lowest fault of a line of this kind by what was read before it, 0 where there is none.
pub fn line_fault(k: Kind, b: Before, x: Line) -> u32
    ensures { result ≡ line_fault k b (held x) }
{
    let heights = has_heights(b.year);
    if !in_form(heights, k, x) {
        return 1;
    }
    match k {
        Kind::Count(s) => count_fault(b, s, x),
        Kind::Entry(s) => match s {
            Section::V => entries::year_fault(says::year_of(x)),
            Section::B => building_fault(b, says::building_of(x)),
            Section::W => entries::wind_fault(b.building, says::wind_of(x)),
            Section::I => entries::internal_fault(says::internal_of(x)),
            Section::P => entries::step_fault(b.highest, says::step_of(x)),
            Section::F => entries::face_fault(b, says::face_of(heights, x)),
        },
    }
}
