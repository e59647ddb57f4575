// Where the first fault of a sheet lies, and what may stand there.
#![tactic(auto)]

ghost use Rattle.std.specs.Prelude.{◌≡◌, ◌+◌, ◌≤◌, ◌<◌, length, drop};
ghost use Rattle.lines.specs.Lines.{fields_of};
ghost use Rattle.lines.specs.Held.{until};
ghost use Rattle.rules.specs.Sections.{line_spot};
ghost use Rattle.slip.specs.Slip.{bytes_of, section_of, entry_of, spot_in, no_slip, slip_on, slip_of};

use crate::form::first_out;
use crate::parts::{Part, bytes_at, part_of};
use crate::reach::{Reached, reach};
use building::Spot;
use building::spots::ranged;
use building::year::has_heights;
use lines::line_at;
use rules::form_of::in_form;
use rules::shape::section_letter;
use rules::{Before, Kind, spots};
use sheet::read::verdict_of;
use verdict::Verdict;

mod form;
mod parts;
mod reach;

// The number and line of the first fault. Then the letter of the section that called for the line, 0 where no more
// were called for, and the number of its entry, 0 at its count; the field, from 1, 0 for the line as a whole, and its
// bytes; and what may stand there, where a range says it. All is 0 where the sheet is accepted.
#[repr(C)]
#[derive(Clone, Copy)]
pub struct Slip {
    pub number: u32,
    pub line: u32,
    pub section: u8,
    pub entry: u32,
    pub field: u32,
    pub from: usize,
    pub to: usize,
    pub least: i64,
    pub greatest: i64,
}

fn section_of(called: Option<Kind>) -> u8
    ensures { result ≡ section_of called }
{
    match called {
        None => 0,
        Some(Kind::Count(s) | Kind::Entry(s)) => section_letter(s),
    }
}

fn entry_of(called: Option<Kind>, read: u32) -> u32
    requires { read < 4294967295 }
    ensures { result ≡ entry_of called read }
{
    match called {
        Some(Kind::Entry(_)) => read + 1,
        _ => 0,
    }
}

// Of a line that was called for and is ended: by its values where it is in form, and else by its fields.
fn line_spot(k: Kind, b: Before, s: &[u8], line: Part) -> Spot
    requires { (line.to ≡ line.from + until 10 (drop line.from s.now)) × (line.to < length s.now) }
    ensures { result ≡ line_spot k b (fields_of (bytes_of line s.now)) }
{
    let heights = has_heights(b.year);
    let from = line.from;
    let to = line.to;
    let x = line_at(s, from);
    if in_form(heights, k, x) {
        return spots::line_spot(k, b, x);
    }
    spots::field_spot(k, b, first_out(&s[from..to], heights, k))
}

fn spot_in(at: Reached, s: &[u8], line: Part) -> Spot
    requires { (line.to ≡ line.from + until 10 (drop line.from s.now)) × (line.to ≤ length s.now) }
    ensures { result ≡ spot_in at line s.now }
{
    if line.to == s.len() {
        return ranged(0, 0, 0);
    }
    match at.called {
        None => ranged(0, 0, 0),
        Some(k) => line_spot(k, at.before, s, line),
    }
}

fn no_slip() -> Slip
    ensures { result ≡ no_slip }
{
    Slip {
        number: 0,
        line: 0,
        section: 0,
        entry: 0,
        field: 0,
        from: 0,
        to: 0,
        least: 0,
        greatest: 0,
    }
}

// On this line of the text.
fn slip_on(v: Verdict, at: Reached, line: Part, s: &[u8]) -> Slip
    requires { (line.to ≡ line.from + until 10 (drop line.from s.now)) × (line.to ≤ length s.now)
        × (at.read < 4294967295) }
    ensures { result ≡ slip_on v at line s.now }
{
    let p = spot_in(at, s, line);
    let from = line.from;
    let to = line.to;
    let bytes = bytes_at(p.field, line, &s[from..to]);
    Slip {
        number: v.number,
        line: v.line,
        section: section_of(at.called),
        entry: entry_of(at.called, at.read),
        field: p.field,
        from: bytes.from,
        to: bytes.to,
        least: p.least,
        greatest: p.greatest,
    }
}

// The first fault of the text s.
pub fn slip_of(s: &[u8]) -> Slip
    ensures { result ≡ slip_of s.now }
{
    let v = verdict_of(s);
    if v.number == 0 {
        return no_slip();
    }
    let n = v.line - 1;
    slip_on(v, reach(s, n), part_of(s, 10, n), s)
}
