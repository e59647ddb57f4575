// A job given as a record, judged as its sheet would be: section by section, line by line.
ghost use Rattle.std.specs.Prelude.{◌≡◌, [], ◌∷◌, ◌+◌, ◌*◌, ◌≤◌};
ghost use Rattle.building.specs.Year.{has_heights};
ghost use Rattle.entry_written.specs.Fields.{face_fields};
ghost use Rattle.rules.specs.Sections.{line_fault};
ghost use Rattle.job.specs.Carried.{Carried, before, carried, most_faces};
ghost use Rattle.job.specs.Judging.{JudgesAs};
ghost use Rattle.job.specs.Lines.{section_of, entries_of};
ghost use Rattle.job.specs.Walk.{verdict, walk, judged};

use crate::heights::{before_faces, highest_of};
use crate::{Job, entry_count, given};
use building::year::has_heights;
use entry::Face;
use rules::shape::{section_at, section_count};
use rules::{Before, Kind, Section};
use verdict::Verdict;

// One section by itself, whose count stands on this line, judged by what the sections before it say.
fn judge_section(j: Job, s: Section, b: Before, line: u32) -> Verdict
    requires { (b.year ≡ j.year) × (b.building ≡ j.building) × (line ≤ 6 * (most_faces + 1) + 1) }
    ensures { (c : Carried) → JudgesAs s b c
        → result ≡ verdict (walk (Kind.Count s ∷ []) c line (section_of s (entries_of (carried j) s))) }
{
    let n = entry_count(j, s);
    let number = given::count_fault(b, s, n);
    if number != 0 {
        return Verdict { number, line };
    }
    let winds = j.winds;
    let internals = j.internals;
    let profile = j.profile;
    let faces = j.faces;
    for i in 0..n {
        let k = i as usize;
        let number = match s {
            Section::V => given::year_fault(b.year),
            Section::B => given::building_fault(b),
            Section::W => {
                let w = winds.entry[k];
                given::wind_fault(b, w)
            }
            Section::I => {
                let c = internals.entry[k];
                given::internal_fault(c)
            }
            Section::P => {
                let t = profile.entry[k];
                given::step_fault(highest_of(profile, i), t)
            }
            Section::F => {
                let f = faces.entry[k];
                given::face_fault(b, f)
            }
        };
        if number != 0 {
            return Verdict {
                number,
                line: line + 1 + i,
            };
        }
    }
    Verdict { number: 0, line: 0 }
}

// The fault that a face would have as a line of this job's sheet, 0 where it has none.
pub fn new_face_fault(j: Job, f: Face) -> u32
    ensures { result ≡ line_fault (Kind.Entry Section.F) (before (carried j)) (face_fields (has_heights j.year) f) }
{
    given::face_fault(before_faces(j), f)
}

// The number and line that the sheet of a job would get.
pub fn judge(j: Job) -> Verdict
    ensures { result ≡ verdict (judged j) }
{
    let heights = has_heights(j.year);
    let b = before_faces(j);
    let mut line: u32 = 1;
    for i in 0..section_count(heights) {
        let s = section_at(heights, i);
        let v = judge_section(j, s, b, line);
        if v.number != 0 {
            return v;
        }
        line += 1 + entry_count(j, s);
    }
    Verdict { number: 0, line: 0 }
}
