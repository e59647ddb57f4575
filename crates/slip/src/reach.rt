// What is called for behind the lines before a fault, which are all in order.
ghost use Rattle.std.specs.Prelude.{◌≡◌, List, ◌++◌, map, suc, ◌≤◌, ltb, length, drop};
ghost use Rattle.lines.specs.Lines.{fields_of, lines_in};
ghost use Rattle.entry.specs.Says.{at};
ghost use Rattle.lines.specs.Held.{held};
ghost use Rattle.job.specs.Carried as job;
ghost use Rattle.job.specs.Carried.{Carried};
ghost use Rattle.job.specs.Walk as walk;
ghost use Rattle.job.specs.Walk.{entries, learn, opening};
ghost use Rattle.rules.specs.Sections.{sections};
ghost use Rattle.sheet.specs.Sheet.{reading};
ghost use Rattle.slip.specs.Slip.{called, reached_in};

use crate::parts::until;
use building::Building;
use entry::says;
use field::{Field, field_of};
use lines::{Line, field_at, line_at};
use rules::shape::{section_at, section_count};
use rules::{Before, Kind, Section};

// Behind some lines of a sheet: the line that is called for, if one is, what it is judged by, and how many entries of
// its section were read.
#[derive(Clone, Copy)]
pub struct Reached {
    pub called: Option<Kind>,
    pub before: Before,
    pub read: u32,
}

fn first_field(l: &[u8]) -> Field
    ensures { result ≡ at (fields_of l.now) 0 }
{
    let end = until(l, 0, 32);
    field_of(&l[0..end])
}

// Whether the text opens with a line whose first field is V.
fn opens_tall(s: &[u8]) -> bool
    ensures { result ≡ opening (lines_in s.now) }
{
    let end = until(s, 0, 10);
    if end == s.len() {
        return false;
    }
    says::letter_of(first_field(&s[0..end])) == b'V'
}

fn start() -> Before
    ensures { result ≡ job.before job.nothing }
{
    let building = Building {
        h: 0,
        a: 0,
        b: 0,
        density: 0,
        kind: 0,
        x: 0,
    };
    Before {
        year: 1,
        building,
        lowest: 0,
        highest: -1,
    }
}

// What is judged by, with one entry more; `risen` where a step of the profile was read before it.
fn learned(sec: Section, b: Before, risen: bool, x: Line) -> Before
    ensures { (c : Carried) → b ≡ job.before c → risen ≡ ltb 0 (length c.profile)
        → result ≡ job.before (learn (Kind.Entry sec) (held x) c) }
{
    match sec {
        Section::V => Before {
            year: says::year_of(x),
            ..b
        },
        Section::B => Before {
            building: says::building_of(x),
            ..b
        },
        Section::P => {
            let t = says::step_of(x);
            if risen {
                return Before {
                    highest: t.height,
                    ..b
                };
            }
            Before {
                lowest: t.height,
                highest: t.height,
                ..b
            }
        }
        Section::W | Section::I | Section::F => b,
    }
}

// Whether an entry of the section is a step of the profile, or one was read before.
fn rises(sec: Section, risen: bool) -> bool
    ensures { (c : Carried) (fs : List Field) → risen ≡ ltb 0 (length c.profile)
        → result ≡ ltb 0 (length (learn (Kind.Entry sec) fs c).profile) }
{
    risen || matches!(sec, Section::P)
}

// With so many entries of a section left, and then the sections after the first `begun`.
fn called_for(heights: bool, sec: Section, left: u32, begun: usize) -> Option<Kind>
    ensures { result ≡ called (entries sec left ++ map Kind.Count (drop begun (sections heights))) }
{
    if left != 0 {
        return Some(Kind::Entry(sec));
    }
    if begun < section_count(heights) {
        return Some(Kind::Count(section_at(heights, begun)));
    }
    None
}

// Behind the first n lines, where the line after them is the first at fault.
pub(crate) fn reach(s: &[u8], n: u32) -> Reached
    requires { (walk.verdict (reading s.now)).line ≡ suc n }
    ensures { (result ≡ reached_in n s.now) × (result.read ≤ n) }
{
    let heights = opens_tall(s);
    let mut before = start();
    let mut sec = Section::V;
    let mut left: u32 = 0;
    let mut begun: usize = 0;
    let mut read: u32 = 0;
    let mut risen = false;
    let mut next: usize = 0;
    for _i in 0..n {
        let x = line_at(s, next);
        next = x.next;
        if left == 0 {
            read = 0;
            sec = section_at(heights, begun);
            begun += 1;
            left = says::size_of(field_at(x, 1));
        } else {
            read += 1;
            left -= 1;
            before = learned(sec, before, risen, x);
            risen = rises(sec, risen);
        }
    }
    Reached {
        called: called_for(heights, sec, left, begun),
        before,
        read,
    }
}
