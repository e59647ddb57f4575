// A worksheet: a job held while a student edits its faces, with the sums of its faces stored. Each edit answers its
// refusal with the worksheet as it was, or the worksheet after it, whose sums are kept by the parts of the faces that
// it takes out and puts in.
#![tactic(auto)]

ghost use Rattle.std.specs.Prelude.{◌≡◌};
ghost use Rattle.sheet.specs.Sheet.{reading};
ghost use Rattle.edits.specs.Edits.{Add, Replace, TakeOut};
ghost use Rattle.worksheet.specs.Worksheet.{opened, edited};
ghost use Rattle.worksheet.specs.FromParts.{kept_of};

use edits::EditedJob;
use entry::Face;
use job::Job;
use verdict::Verdict;
use worst::Stored;

mod sums; // stored sums, cell by cell
mod parts; // the part of a face

// It holds its faces in place. The sums are those of each wind and internal coefficient.
#[repr(C)]
#[derive(Clone, Copy)]
pub struct Worksheet {
    pub job: Job,
    pub sums: Stored,
}

#[repr(C)]
#[derive(Clone, Copy)]
pub struct Edited {
    pub verdict: Verdict,
    pub worksheet: Worksheet,
}

// The sheet s, opened.
pub fn open(s: &[u8]) -> Edited
    ensures { result ≡ opened (reading s.now) }
{
    let read = sheet::read::read_sheet(s);
    let verdict = read.verdict;
    let job = read.job;
    let sums = worst::sums_of(job);
    let worksheet = Worksheet { job, sums };
    Edited { verdict, worksheet }
}

// A refused edit leaves the worksheet the same.
fn refused(to: EditedJob, w: Worksheet) -> Edited
    ensures { result ≡ record { verdict = to.verdict; worksheet = w } }
{
    let verdict = to.verdict;
    let worksheet = w;
    Edited { verdict, worksheet }
}

// The answer to one that is not: the job after it, and the sums by the parts that it takes out and puts in.
fn taken(to: EditedJob, w: Worksheet, out: Stored, new: Stored) -> Edited
    ensures { result ≡ record {
      verdict = to.verdict;
      worksheet = record {
        job = to.job;
        sums = kept_of w.sums to.job out new;
      };
    } }
{
    let verdict = to.verdict;
    let job = to.job;
    let held = w.sums;
    let sums = sums::kept(held, job, out, new);
    let worksheet = Worksheet { job, sums };
    Edited { verdict, worksheet }
}

// A face at the end.
pub fn add(w: Worksheet, f: Face) -> Edited
    ensures { result ≡ edited (Add f) w }
{
    let to = edits::add(w.job, f);
    if to.verdict.number != 0 {
        return refused(to, w);
    }
    let new = parts::of_face(w.job, f);
    taken(to, w, parts::none(), new)
}

// Another face in the place of face k, from 1.
pub fn replace(w: Worksheet, k: i64, f: Face) -> Edited
    ensures { result ≡ edited (Replace k f) w }
{
    let to = edits::replace(w.job, k, f);
    if to.verdict.number != 0 {
        return refused(to, w);
    }
    let out = parts::of_held(w.job, k);
    let new = parts::of_face(w.job, f);
    taken(to, w, out, new)
}

// No face k, from 1: later faces move up.
pub fn take_out(w: Worksheet, k: i64) -> Edited
    ensures { result ≡ edited (TakeOut k) w }
{
    let to = edits::take_out(w.job, k);
    if to.verdict.number != 0 {
        return refused(to, w);
    }
    taken(to, w, parts::of_held(w.job, k), parts::none())
}
