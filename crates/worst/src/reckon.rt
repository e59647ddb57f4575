// A job's own refusal, or its six extremes: of a record that was judged.
ghost use Rattle.std.specs.Prelude.{◌≡◌};
ghost use Rattle.job.specs.Carried.{carried};
ghost use Rattle.job.specs.InOrder.{InOrder};
ghost use Rattle.job.specs.Setting.{setting_in};
ghost use Rattle.job.specs.Walk.{verdict, judged};
ghost use Rattle.worst.specs.Worst.{six_extremes, worst_of};
ghost use Rattle.worst.specs.Stored.{stored_of, stored_in, six_by, reckoned_by};
ghost use Rattle.worst.specs.Proper.{ProperStored};

use crate::cells::none_stored;
use crate::engine::{six_by, six_of, sums_of};
use crate::faces::lay;
use crate::within::all_within;
use crate::{Reckoning, Six, Stored};
use job::{Job, Setting};
use verdict::Verdict;

// All of it but its faces.
pub(crate) fn setting_of(job: Job) -> Setting
    ensures { result ≡ setting_in job }
{
    let building = job.building;
    let winds = job.winds;
    let internals = job.internals;
    let profile = job.profile;
    Setting {
        year: job.year,
        building,
        winds,
        internals,
        profile,
    }
}

fn own_six(job: Job) -> Six
    requires { InOrder (carried job) }
    ensures { result ≡ six_extremes (carried job) }
{
    let mut flat = [0i64; 1440];
    lay(job.faces, &mut flat);
    six_of(setting_of(job), job.faces.count, &flat)
}

fn own_sums(job: Job) -> Stored
    requires { InOrder (carried job) }
    ensures { result ≡ stored_of (carried job) }
{
    let mut flat = [0i64; 1440];
    lay(job.faces, &mut flat);
    sums_of(setting_of(job), job.faces.count, &flat)
}

// By stored sums that a job of its year can have.
fn six_stored(job: Job, stored: Stored) -> Six
    requires { InOrder (carried job) × ProperStored stored }
    ensures { result ≡ six_by stored (carried job) }
{
    let mut flat = [0i64; 1440];
    lay(job.faces, &mut flat);
    six_by(setting_of(job), job.faces.count, &flat, stored)
}

pub(crate) fn reckon_by(job: Job, v: Verdict) -> Result<Reckoning, Verdict>
    requires { v ≡ verdict (judged job) }
    ensures { result ≡ worst_of job }
{
    if v.number != 0 {
        return Err(v);
    }
    Ok(Reckoning {
        year: job.year,
        six: own_six(job),
    })
}

// The same with sums in place of extremes, zeros where there is a refusal.
pub(crate) fn sums_by(job: Job, v: Verdict) -> Stored
    requires { v ≡ verdict (judged job) }
    ensures { result ≡ stored_in (judged job) }
{
    if v.number != 0 {
        return none_stored();
    }
    own_sums(job)
}

// And with the extremes that stored sums tell, or its own where no job of its year has such sums.
pub(crate) fn stored_by(job: Job, stored: Stored, v: Verdict) -> Result<Reckoning, Verdict>
    requires { v ≡ verdict (judged job) }
    ensures { result ≡ reckoned_by stored (judged job) }
{
    if v.number != 0 {
        return Err(v);
    }
    if all_within(stored, job.year) {
        return Ok(Reckoning {
            year: job.year,
            six: six_stored(job, stored),
        });
    }
    Ok(Reckoning {
        year: job.year,
        six: own_six(job),
    })
}
