// The entries of a job's faces, moved.
ghost use Rattle.std.specs.Prelude.{◌≡◌, ◌≤◌, ◌<◌};
ghost use Rattle.verdict.specs.Verdict.{accepted};
ghost use Rattle.job.specs.Carried.{most_faces};
ghost use Rattle.edits.specs.Faces as faces;
ghost use Rattle.edits.specs.Edits.{job_with};

use crate::EditedJob;
use entry::Face;
use job::{Faces, Job, no_face};
use verdict::Verdict;

// The new face takes the first entry behind.
pub(crate) fn added(held: Faces, f: Face) -> Faces
    requires { held.count < most_faces }
    ensures { result ≡ faces.added f held }
{
    let mut r = held;
    let n = r.count as usize;
    r.entry[n] = f;
    r.count += 1;
    r
}

// Another face in the place of face k, from 1.
pub(crate) fn replaced(held: Faces, k: usize, f: Face) -> Faces
    requires { (0 < k) × (k ≤ held.count) × (held.count ≤ most_faces) }
    ensures { result ≡ faces.replaced k f held }
{
    let mut r = held;
    r.entry[k - 1] = f;
    r
}

// The faces behind face k move up, and the entry that is then free is zero.
pub(crate) fn taken_out(held: Faces, k: usize) -> Faces
    requires { (0 < k) × (k ≤ held.count) × (held.count ≤ most_faces) }
    ensures { result ≡ faces.taken_out k held }
{
    let mut r = held;
    let last = (held.count - 1) as usize;
    for i in k - 1..last {
        r.entry[i] = r.entry[i + 1];
    }
    r.entry[last] = no_face();
    r.count -= 1;
    r
}

// The answer to an edit that is not refused: the job with these faces.
pub(crate) fn with(j: Job, held: Faces) -> EditedJob
    ensures { result ≡ record { verdict = accepted; job = job_with held j } }
{
    let mut job = j;
    job.faces = held;
    EditedJob {
        verdict: Verdict { number: 0, line: 0 },
        job,
    }
}
