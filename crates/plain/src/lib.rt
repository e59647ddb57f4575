// The plain engine: every wind, every internal coefficient and every choice of alternatives in their order, each case
// added up by itself, and of all of them the first that goes furthest. It takes jobs with few faces that have two
// alternatives.
#![tactic(auto)]

ghost use Rattle.std.specs.Prelude.{◌≡◌};
ghost use Rattle.job.specs.Walk.{judged, verdict};
ghost use Rattle.plain.specs.Plain.{plain_of};

use job::Job;
use verdict::Verdict;
use worst::Reckoning;

mod twos; // how many faces have two alternatives
mod add; // one case added up
mod keep; // the first case that goes furthest
mod choices; // the choice of alternatives of a number
mod walk; // every choice of alternatives
mod cells; // every wind and every internal coefficient

// So many faces with two alternatives are taken.
const MOST_WITH_TWO: u32 = 8;

fn plain_by(job: Job, v: Verdict) -> Result<Reckoning, Verdict>
    requires { v ≡ verdict (judged job) }
    ensures { result ≡ plain_of job }
{
    if v.number != 0 {
        return Err(v);
    }
    if twos::faces_with_two(job) > MOST_WITH_TWO {
        return Err(Verdict {
            number: 10,
            line: 0,
        });
    }
    Ok(Reckoning {
        year: job.year,
        six: cells::every_wind(job),
    })
}

// A job's own refusal; then 10, where more than 8 of its faces have two alternatives under at least one of its winds;
// or its six extremes.
pub fn plain_cases(job: Job) -> Result<Reckoning, Verdict>
    ensures { result ≡ plain_of job }
{
    let v = job::judge::judge(job);
    plain_by(job, v)
}
