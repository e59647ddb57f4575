// An edit of a job: a face added, replaced or taken out. Each answers its refusal with the job as it was, or the job
// after it.
#![tactic(auto)]

ghost use Rattle.std.specs.Prelude.{◌≡◌};
ghost use Rattle.edits.specs.Edits.{Add, Replace, TakeOut, edited_job};

use building::year::has_heights;
use entry::Face;
use entry::says::carried_face;
use job::Job;
use verdict::Verdict;

mod faces;
mod refusals;

#[repr(C)]
#[derive(Clone, Copy)]
pub struct EditedJob {
    pub verdict: Verdict,
    pub job: Job,
}

// A refused edit leaves the job the same.
fn refused(v: Verdict, j: Job) -> EditedJob
    ensures { result ≡ record { verdict = v; job = j } }
{
    EditedJob { verdict: v, job: j }
}

// A face at the end.
pub fn add(j: Job, f: Face) -> EditedJob
    ensures { result ≡ edited_job (Add f) j }
{
    let v = refusals::of_add(j, f);
    if v.number != 0 {
        return refused(v, j);
    }
    let held = j.faces;
    let new = carried_face(has_heights(j.year), f);
    faces::with(j, faces::added(held, new))
}

// Another face in the place of face k, from 1.
pub fn replace(j: Job, k: i64, f: Face) -> EditedJob
    ensures { result ≡ edited_job (Replace k f) j }
{
    let v = refusals::of_replace(j, k, f);
    if v.number != 0 {
        return refused(v, j);
    }
    let held = j.faces;
    let new = carried_face(has_heights(j.year), f);
    let n = whole::magnitude(k) as usize;
    faces::with(j, faces::replaced(held, n, new))
}

// No face k, from 1: later faces move up.
pub fn take_out(j: Job, k: i64) -> EditedJob
    ensures { result ≡ edited_job (TakeOut k) j }
{
    let v = refusals::of_take_out(j, k);
    if v.number != 0 {
        return refused(v, j);
    }
    let held = j.faces;
    let n = whole::magnitude(k) as usize;
    faces::with(j, faces::taken_out(held, n))
}
