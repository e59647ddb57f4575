// How many faces have two alternatives under at least one of the winds.
ghost use Rattle.std.specs.Prelude.{◌≡◌, ◌||◌, false, ℕ, ◌-◌, ◌≤◌, ◌<◌, length, get_or, count_by};
ghost use Rattle.job.specs.Carried.{carried, most_faces};
ghost use Rattle.worst.specs.Worst.{given};
ghost use Rattle.plain.specs.ByNumber.{has_two};
ghost use Rattle.plain.specs.Plain.{faces_with_two};
ghost use Rattle.plain.specs.Walked.{two_under};
ghost use Rattle.worst.specs.Rows.{Taken};

use job::{Job, MOST_FACES};
use worst::FaceForces;

fn has_two(f: &FaceForces) -> bool
    ensures { result ≡ has_two f.now }
{
    f.count == 2
}

// Marks the faces that have two under a wind.
fn mark_twos(job: Job, wind: u32, marks: &mut [bool; MOST_FACES])
    requires { Taken job × (0 < wind) × (wind ≤ job.winds.count) × (length marks.old ≡ most_faces) }
    ensures { (length marks.new ≡ most_faces)
        × ((k : ℕ) → k < job.faces.count → get_or marks.new k false
        ≡ (get_or marks.old k false || two_under job (wind - 1) k)) }
{
    let cell = worst::forces_of(job, wind, 1);
    for i in 0..job.faces.count as usize {
        marks[i] |= has_two(&cell.face[i]);
    }
}

// How many marks there are.
fn how_many(marks: &[bool]) -> u32
    requires { length marks.now ≤ most_faces }
    ensures { result ≡ count_by (λ m. m) marks.now }
{
    marks.iter().filter(|m| **m).count() as u32
}

pub(crate) fn faces_with_two(job: Job) -> u32
    requires { Taken job }
    ensures { result ≡ faces_with_two (given (carried job)) }
{
    let faces = job.faces.count as usize;
    let mut marks = [false; MOST_FACES];
    for w in 1..=job.winds.count {
        mark_twos(job, w, &mut marks);
    }
    how_many(&marks[..faces])
}
