// A job written: its own refusal first, and then its text put into the lent buffer.
#![tactic(auto)]

ghost use Rattle.std.specs.Prelude.{◌≡◌, ◌≤◌, length};
ghost use Rattle.lines.specs.Lines.{text_of_lines};
ghost use Rattle.page.specs.Writing.{Put};
ghost use Rattle.job.specs.Carried.{carried};
ghost use Rattle.rules.specs.Sections.{about};
ghost use Rattle.job.specs.Lines.{section_of, entries_of};
ghost use Rattle.job.specs.Walk.{judged};
ghost use Rattle.sheet.specs.Sheet.{sheet_text, job_writing, job_buffer};
ghost use Rattle.sheet_written.specs.Roomed.{Roomed};

use building::year::has_heights;
use entry_written::{building_line, face_line, internal_line, step_line, wind_line, year_line};
use job::judge::judge;
use job::{Job, entry_count};
use lines_written::put_line;
use rules::Section;
use rules::shape::{count_line, section_at, section_count};
use verdict::Verdict;

// A section: its count, and the entries.
fn put_section(buf: &mut [u8], at: usize, j: Job, sec: Section) -> usize
    requires { length (entries_of (carried j) sec) ≤ (about sec).most j.year }
    ensures { Put buf.old at (text_of_lines (section_of sec (entries_of (carried j) sec)))
        buf.new result }
{
    let n = entry_count(j, sec);
    let heights = has_heights(j.year);
    let winds = j.winds;
    let internals = j.internals;
    let profile = j.profile;
    let faces = j.faces;
    let mut next = put_line(buf, at, count_line(sec, n));
    for i in 0..n {
        let k = i as usize;
        let x = match sec {
            Section::V => year_line(j.year),
            Section::B => {
                let g = j.building;
                building_line(g)
            }
            Section::W => {
                let w = winds.entry[k];
                wind_line(w)
            }
            Section::I => {
                let z = internals.entry[k];
                internal_line(z)
            }
            Section::P => {
                let s = profile.entry[k];
                step_line(s)
            }
            Section::F => {
                let f = faces.entry[k];
                face_line(heights, f)
            }
        };
        next = put_line(buf, next, x);
    }
    next
}

fn put_sheet(buf: &mut [u8], j: Job) -> usize
    requires { Roomed (carried j) }
    ensures { Put buf.old 0 (sheet_text (carried j)) buf.new result }
{
    let heights = has_heights(j.year);
    let mut next: usize = 0;
    for i in 0..section_count(heights) {
        next = put_section(buf, next, j, section_at(heights, i));
    }
    next
}

// The text of j at the start of `buf`; no accepted job has one of more than 8967 bytes.
pub fn write_sheet(j: Job, buf: &mut [u8]) -> Result<usize, Verdict>
    ensures { (result ≡ job_writing sheet_text (judged j) buf.old)
        × (buf.new ≡ job_buffer sheet_text (judged j) buf.old) }
{
    let v = judge(j);
    if v.number != 0 {
        return Err(v);
    }
    let mut page = [0u8; 8967];
    let n = put_sheet(&mut page, j);
    page::emit(&page, n, buf)
}
