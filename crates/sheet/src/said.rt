// What a line says as numbers, its fault, and where the next one begins.
ghost use Rattle.std.specs.Prelude.{◌≡◌, Bool, true, List, ℕ, ◌≤◌, nat_abs, pos, get_or, IfSome};
ghost use Rattle.field.specs.declared.Field.{Field};
ghost use Rattle.lines.specs.Held.{held, line_at};
ghost use Rattle.building.specs.Fault.{first};
ghost use Rattle.building.specs.Year.{has_heights};
ghost use Rattle.entry.specs.Says.{letter};
ghost use Rattle.entry.specs.Flat.{numbers_of, face_in};
ghost use Rattle.rules.specs.Sections.{faults_of};
ghost use Rattle.sheet.specs.Said.{says_of, six_numbers, building_in, wind_in, step_in};
ghost use Rattle.sheet.specs.Said.{Ended, entry_said, count_said, PlainLine};

use crate::plainly::{Numbers, letter_at, number_at, numbers_at};
use building::year::has_heights;
use building::{Building, Dated};
use entry::says::{face_of, number_of, size_of};
use entry::{Face, Step, Wind};
use lines::{Line, field_at, line_at};
use rules::faults::line_fault;
use rules::{Before, Kind, Section, entries};

// What a count line says, and the place behind it.
#[derive(Clone, Copy)]
pub(crate) struct Counted {
    pub(crate) next: usize,
    pub(crate) count: u32,
}

pub(crate) fn building_in(v: [i64; 6]) -> Building
    ensures { result ≡ building_in v }
{
    Building {
        h: v[0],
        a: v[1],
        b: v[2],
        density: v[3],
        kind: v[4],
        x: v[5],
    }
}

pub(crate) fn wind_in(v: [i64; 6]) -> Wind
    ensures { result ≡ wind_in v }
{
    Wind {
        direction: v[0],
        speed: v[1],
    }
}

pub(crate) fn step_in(v: [i64; 6]) -> Step
    ensures { result ≡ step_in v }
{
    Step {
        height: v[0],
        factor: v[1],
    }
}

fn face_in(v: [i64; 6]) -> Face
    ensures { result ≡ face_in v 0 }
{
    Face {
        zone: (whole::magnitude(v[0]) % 256) as u8,
        mark: v[1],
        height: v[2],
        x: v[3],
        y: v[4],
        z: v[5],
    }
}

// The fault of an entry in form.
fn fault_of(sec: Section, b: Before, v: [i64; 6]) -> u32
    ensures { (fs : List Field) → letter (get_or fs 0 Field.Bad) ≤ 90 → v ≡ says_of sec (has_heights b.year) fs
        → result ≡ first (faults_of (Kind.Entry sec) b fs) }
{
    match sec {
        Section::V => entries::year_fault(v[0]),
        Section::B => building::building_fault(Dated {
            year: b.year,
            building: building_in(v),
        }),
        Section::W => entries::wind_fault(b.building, wind_in(v)),
        Section::I => entries::internal_fault(v[0]),
        Section::P => entries::step_fault(b.highest, step_in(v)),
        Section::F => entries::face_fault(b, face_in(v)),
    }
}

fn numbers_in(x: Line) -> Numbers
    ensures { result ≡ record { next = x.next; number = six_numbers (held x) } }
{
    let number = [
        number_of(field_at(x, 0)),
        number_of(field_at(x, 1)),
        number_of(field_at(x, 2)),
        number_of(field_at(x, 3)),
        number_of(field_at(x, 4)),
        number_of(field_at(x, 5)),
    ];
    Numbers {
        next: x.next,
        number,
    }
}

fn numbers_of(f: Face, x: Line) -> Numbers
    ensures { result ≡ record { next = x.next; number = numbers_of f } }
{
    Numbers {
        next: x.next,
        number: [f.zone as i64, f.mark, f.height, f.x, f.y, f.z],
    }
}

fn numbers_by(sec: Section, heights: bool, x: Line) -> Numbers
    ensures { result ≡ record { next = x.next; number = says_of sec heights (held x) } }
{
    match sec {
        Section::F => numbers_of(face_of(heights, x), x),
        _ => numbers_in(x),
    }
}

// Of any line, field by field.
fn by_fields(sec: Section, s: &[u8], at: usize, b: Before) -> Result<Numbers, u32>
    ensures { result ≡ entry_said sec b (line_at s.now at) }
{
    let x = line_at(s, at);
    match line_fault(Kind::Entry(sec), b, x) {
        0 => Ok(numbers_by(sec, has_heights(b.year), x)),
        fault => Err(fault),
    }
}

// Of a plain line in a text that ends in LF. Plain face lines are read in a loop of their own.
fn entry_at(sec: Section, s: &[u8], at: usize, ended: bool) -> Option<Numbers>
    requires { ended ≡ true → Ended s.now }
    ensures { IfSome result (λ w. (heights : Bool) → PlainLine sec heights s.now at w) }
{
    if !ended {
        return None;
    }
    match sec {
        Section::V | Section::I => numbers_at(s, at, 1),
        Section::W | Section::P => numbers_at(s, at, 2),
        Section::B => numbers_at(s, at, 6),
        Section::F => None,
    }
}

pub(crate) fn entry_said(
    sec: Section,
    s: &[u8],
    at: usize,
    b: Before,
    ended: bool,
) -> Result<Numbers, u32>
    requires { ended ≡ true → Ended s.now }
    ensures { result ≡ entry_said sec b (line_at s.now at) }
{
    let Some(w) = entry_at(sec, s, at, ended) else {
        return by_fields(sec, s, at, b);
    };
    match fault_of(sec, b, w.number) {
        0 => Ok(w),
        fault => Err(fault),
    }
}

fn count_by_fields(sec: Section, s: &[u8], at: usize, b: Before) -> Result<Counted, u32>
    ensures { result ≡ count_said sec b (line_at s.now at) }
{
    let x = line_at(s, at);
    match line_fault(Kind::Count(sec), b, x) {
        0 => Ok(Counted {
            next: x.next,
            count: size_of(field_at(x, 1)),
        }),
        fault => Err(fault),
    }
}

pub(crate) fn count_said(
    sec: Section,
    s: &[u8],
    at: usize,
    b: Before,
    ended: bool,
) -> Result<Counted, u32>
    requires { ended ≡ true → Ended s.now }
    ensures { result ≡ count_said sec b (line_at s.now at) }
{
    if ended
        && let Some(letter) = letter_at(s, at)
        && let Some(w) = number_at(s, at + 2, 10)
    {
        return match entries::count_fault(b.year, sec, letter, w.z) {
            0 => Ok(Counted {
                next: w.end,
                count: whole::magnitude(w.z) as u32,
            }),
            fault => Err(fault),
        };
    }
    count_by_fields(sec, s, at, b)
}
