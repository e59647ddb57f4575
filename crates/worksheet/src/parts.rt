// The part of a face: the sums of the job with that face alone. It costs the same however many faces the job has.
ghost use Rattle.std.specs.Prelude.{◌≡◌, [], ◌∷◌, ◌≤◌, nat_abs};
ghost use Rattle.building.specs.Year.{has_heights};
ghost use Rattle.entry.specs.Says.{carried_face};
ghost use Rattle.job.specs.Carried.{carried, with_faces};
ghost use Rattle.job.specs.InOrder.{InOrder};
ghost use Rattle.worst.specs.Stored.{none_stored};
ghost use Rattle.worksheet.specs.Kept.{face, part_of_faces};

use entry::Face;
use job::Job;
use pair::Pair;
use worst::{Span, Stored, StoredCell};

// That of no face: zeros.
pub(crate) fn none() -> Stored
    ensures { result ≡ none_stored }
{
    let zero = Pair {
        newtons: 0,
        remainder: 0,
    };
    let span = Span {
        greatest: zero,
        least: zero,
    };
    let empty = StoredCell {
        x: span,
        y: span,
        z: span,
    };
    let cell = [empty; 32];
    Stored { cell }
}

// That of a face which the job can have.
pub(crate) fn of_face(job: Job, f: Face) -> Stored
    requires { InOrder (with_faces (carried_face (has_heights job.year) f ∷ []) (carried job)) }
    ensures { result ≡ part_of_faces (carried job) (carried_face (has_heights job.year) f ∷ []) }
{
    let mut faces = job.faces;
    faces.entry[0] = f;
    faces.count = 1;
    let mut alone = job;
    alone.faces = faces;
    worst::sums_of(alone)
}

// That of face k, from 1, which it has.
pub(crate) fn of_held(job: Job, k: i64) -> Stored
    requires { InOrder (carried job) × (1 ≤ nat_abs k) × (nat_abs k ≤ job.faces.count) }
    ensures { result ≡ part_of_faces (carried job) (face k (carried job).faces) }
{
    let faces = job.faces;
    let n = whole::magnitude(k) as usize;
    let f = faces.entry[n - 1];
    of_face(job, f)
}
