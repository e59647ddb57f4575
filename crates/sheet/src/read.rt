// A sheet read: its sections in order, each its count and as many entries, up to the first fault; and nothing after
// them. The faces are put into a lent list, and no record is made for the lines.
ghost use Rattle.std.specs.Prelude.{◌≡◌, Ok};
ghost use Rattle.lines.specs.Lines.{lines_in};
ghost use Rattle.job.specs.Carried.{nothing};
ghost use Rattle.job.specs.Walk.{Refused, verdict, walk, sheet};
ghost use Rattle.sheet.specs.Head.{head_of, flat_after};
ghost use Rattle.sheet.specs.Parts.{setting_of};
ghost use Rattle.sheet.specs.Sheet.{reading, answer};

use crate::empty::{no_building, no_setting, no_step, no_wind};
use crate::faces::faces_from;
use crate::flat::{MOST_NUMBERS, clear, faces_in, put_numbers};
use crate::plainly::is_ended;
use crate::said::{building_in, count_said, entry_said, step_in, wind_in};
use entry::says::letter_of;
use job::{Internals, Job, Profile, Setting, Winds, with_faces};
use lines::{field_at, line_at};
use rules::shape::{section_at, section_count};
use rules::{Before, Section};
use verdict::Verdict;

// What is read without a record: all of the job but its faces, and how many these are.
#[derive(Clone, Copy)]
pub struct Head {
    pub setting: Setting,
    pub faces: u32,
}

// What comes of reading: accepted or refused, and the job, all zero where it is refused.
#[derive(Clone, Copy)]
pub struct Read {
    pub verdict: Verdict,
    pub job: Job,
}

fn refused(verdict: Verdict, flat: &mut [i64]) -> Result<Head, Verdict>
    ensures { (result ≡ head_of (Refused verdict))
        × (flat.new ≡ flat_after (Refused verdict) flat.old) }
{
    clear(flat);
    Err(verdict)
}

fn accepted(
    b: Before,
    winds: Winds,
    internals: Internals,
    profile: Profile,
    faces: u32,
) -> Result<Head, Verdict>
    ensures { result ≡ Ok (record { setting = setting_of b winds internals profile; faces = faces }) }
{
    let building = b.building;
    let setting = Setting {
        year: b.year,
        building,
        winds,
        internals,
        profile,
    };
    Ok(Head { setting, faces })
}

// Whether the text opens a sheet with heights; a first line that is too long for a sheet is refused either way. A
// field that is a letter is its first byte.
fn opens_tall(s: &[u8]) -> bool
    ensures { walk (sheet result) nothing 1 (lines_in s.now) ≡ reading s.now }
{
    if s.len() == 0 || s[0] != b'V' {
        return false;
    }
    letter_of(field_at(line_at(s, 0), 0)) == b'V'
}

// What the text s says, with the faces in a lent list as far as it has room; a refusal leaves zeros there.
pub fn read_into(s: &[u8], flat: &mut [i64]) -> Result<Head, Verdict>
    ensures { (result ≡ head_of (reading s.now))
        × (flat.new ≡ flat_after (reading s.now) flat.old) }
{
    clear(flat);
    let heights = opens_tall(s);
    let ended = is_ended(s);
    let building = no_building();
    let mut b = Before {
        year: 1,
        building,
        lowest: 0,
        highest: -1,
    };
    let mut winds = Winds {
        count: 0,
        entry: [no_wind(); 8],
    };
    let mut internals = Internals {
        count: 0,
        entry: [0i64; 4],
    };
    let mut profile = Profile {
        count: 0,
        entry: [no_step(); 16],
    };
    let mut faces: u32 = 0;
    let mut line: u32 = 1;
    let mut next: usize = 0;
    for i in 0..section_count(heights) {
        // the count of the section, and as many entries
        let sec = section_at(heights, i);
        let x = match count_said(sec, s, next, b, ended) {
            Ok(x) => x,
            Err(number) => return refused(Verdict { number, line }, flat),
        };
        line += 1;
        let count = x.count;
        let plain = faces_from(sec, s, x.next, b, ended, flat, faces, count);
        let done = plain.done;
        line += done;
        next = plain.next;
        faces += done;
        let mut left = count - done;
        while left != 0 {
            let x = match entry_said(sec, s, next, b, ended) {
                Ok(x) => x,
                Err(number) => return refused(Verdict { number, line }, flat),
            };
            line += 1;
            next = x.next;
            left -= 1;
            let v = x.number;
            match sec {
                Section::V => b.year = v[0],
                Section::B => b.building = building_in(v),
                Section::W => {
                    winds.entry[winds.count as usize] = wind_in(v);
                    winds.count += 1;
                }
                Section::I => {
                    internals.entry[internals.count as usize] = v[0];
                    internals.count += 1;
                }
                Section::P => {
                    let t = step_in(v);
                    profile.entry[profile.count as usize] = t;
                    profile.count += 1;
                    let first = profile.entry[0];
                    b.lowest = first.height;
                    b.highest = t.height;
                }
                Section::F => {
                    put_numbers(flat, faces, v);
                    faces += 1;
                }
            }
        }
    }
    if next < s.len() {
        return refused(Verdict { number: 1, line }, flat);
    }
    accepted(b, winds, internals, profile, faces)
}

// Its verdict alone.
pub fn verdict_of(s: &[u8]) -> Verdict
    ensures { result ≡ verdict (reading s.now) }
{
    let mut none = [0i64; 1];
    match read_into(s, &mut none) {
        Ok(_) => Verdict { number: 0, line: 0 },
        Err(v) => v,
    }
}

// What the text s says, as a record.
pub fn read_sheet(s: &[u8]) -> Read
    ensures { result ≡ answer (reading s.now) }
{
    let mut flat = [0i64; MOST_NUMBERS];
    match read_into(s, &mut flat) {
        Ok(head) => {
            let job = with_faces(head.setting, faces_in(&flat, head.faces));
            Read {
                verdict: Verdict { number: 0, line: 0 },
                job,
            }
        }
        Err(v) => {
            let job = with_faces(no_setting(), faces_in(&flat, 0));
            Read { verdict: v, job }
        }
    }
}
