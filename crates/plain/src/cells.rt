// Every wind in order, and under each every internal coefficient.
ghost use Rattle.std.specs.Prelude.{◌≡◌, ℕ, ◌≤◌, ◌<◌};
ghost use Rattle.job.specs.Carried.{carried};
ghost use Rattle.worst.specs.declared.Side.{Side};
ghost use Rattle.worst.specs.declared.Axis.{Axis};
ghost use Rattle.worst.specs.Best.{Best, better};
ghost use Rattle.worst.specs.Cases.{Case};
ghost use Rattle.worst.specs.Worst.{six_extremes, shown_in};
ghost use Rattle.worst.specs.Rows.{Taken};
ghost use Rattle.plain.specs.Walked.{Keeps, FewTwos, wind_walked};

use crate::keep::nothing_yet;
use crate::walk::walk;
use job::Job;
use worst::Six;

// The cases of one wind, after those of the winds before it.
fn every_internal(six: Six, job: Job, wind: u32) -> Six
    requires { Taken job × FewTwos job × (0 < wind) × (wind ≤ job.winds.count) }
    ensures { (axis : Axis) (s : Side) (b : Best (Case ℕ ℕ ℕ))
        → Keeps job.faces.count (shown_in six axis s) b
        → Keeps job.faces.count (shown_in result axis s) (better s b (wind_walked axis s (carried job) wind)) }
{
    let faces = job.faces.count as usize;
    let mut all = six;
    for i in 1..=job.internals.count {
        let cell = worst::forces_of(job, wind, i);
        all = walk(all, &cell.face[..faces], wind, i);
    }
    all
}

// All cases of a job that is taken.
pub(crate) fn every_wind(job: Job) -> Six
    requires { Taken job × FewTwos job }
    ensures { result ≡ six_extremes (carried job) }
{
    let mut six = nothing_yet(job.faces.count);
    for w in 1..=job.winds.count {
        six = every_internal(six, job, w);
    }
    six
}
