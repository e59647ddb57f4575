// The steps of one face: its coefficients, the wind there, its area and its force.
ghost use Rattle.std.specs.Prelude.{◌≡◌, cond, ◌≤◌, nat_abs, ◌*ℤ◌};
ghost use Rattle.book.specs.Question.{outside_of};
ghost use Rattle.job.specs.Carried.{carried};
ghost use Rattle.worst.specs.Forces.{wind_at, internal_at};
ghost use Rattle.worst.specs.Worst.{given, six_extremes};
ghost use Rattle.worst.specs.Rows.{Taken};
ghost use Rattle.answers.specs.Answers.{host_line};
ghost use Rattle.account.specs.Account.{face_account};
ghost use Rattle.account.specs.Coefficients.{outside_in, face_coefficients, no_coefficients};

use crate::Account;
use crate::coefficients::{FaceCoefficients, in_book, no_coefficients};
use crate::newtons::newtons_at;
use answers::Extreme;
use building::Dated;
use column::report_line::on_axis;
use entry::Wind;
use job::Job;
use verdict::Verdict;

fn force_of(net: i32, pressure: i64, area: i64) -> i64
    requires { (nat_abs net ≤ 2200) × (nat_abs pressure ≤ 1500000000) × (nat_abs area ≤ 100000) }
    ensures { result ≡ net *ℤ pressure *ℤ area }
{
    (net as i64) * pressure * area
}

// Nothing where the face takes no part.
fn coefficients_of(
    job: Job,
    acts: bool,
    direction: i64,
    zone: u8,
    alternative: u8,
    internal: i64,
) -> FaceCoefficients
    requires { (nat_abs (outside_in (outside_of job.year job.building direction zone) alternative) ≤ 1200)
        × (nat_abs internal ≤ 100) }
    ensures { result ≡ cond acts (face_coefficients (outside_of job.year job.building direction zone) alternative
        internal) no_coefficients }
{
    if !acts {
        return no_coefficients();
    }
    let building = job.building;
    let d = Dated {
        year: job.year,
        building,
    };
    in_book(d, direction, zone, alternative, internal)
}

// The wind and the internal coefficient of a case.
#[derive(Clone, Copy)]
pub struct CaseOf {
    pub wind: Wind,
    pub internal: i64,
}

fn case_of(job: Job, wind: u32, internal: u32) -> CaseOf
    requires { (1 ≤ wind) × (wind ≤ job.winds.count) × (job.winds.count ≤ 8) × (1 ≤ internal)
        × (internal ≤ job.internals.count) × (job.internals.count ≤ 4) }
    ensures { result ≡ record {
      wind = wind_at (given (carried job)) wind;
      internal = internal_at (given (carried job)) internal;
    } }
{
    let winds = job.winds;
    let internals = job.internals;
    let w = (wind - 1) as usize;
    let i = (internal - 1) as usize;
    CaseOf {
        wind: winds.entry[w],
        internal: internals.entry[i],
    }
}

// Of a face that the job has, in the case that one of its report lines shows.
pub(crate) fn face_account(job: Job, line: i64, shown: Extreme, face: u32) -> Account
    requires { Taken job × (shown ≡ host_line (carried job).year (six_extremes (carried job)) line)
        × (shown.verdict.number ≡ 0) × (1 ≤ face) × (face ≤ job.faces.count) }
    ensures { result ≡ face_account (carried job) line shown face }
{
    let k = (face - 1) as usize;
    let faces = job.faces;
    let f = faces.entry[k];
    let alternative = shown.alternative[k];
    let case = case_of(job, shown.wind, shown.internal);
    let direction = case.wind.direction;
    let under = worst::under_wind(job, shown.wind, face);
    let c = coefficients_of(
        job,
        under.acts,
        direction,
        f.zone,
        alternative,
        case.internal,
    );
    let area = on_axis(line, f.x, f.y, f.z);
    let force = force_of(c.net, under.pressure, area);
    let newtons = newtons_at(job, line, k);
    let rows = c.rows;
    Account {
        verdict: Verdict { number: 0, line: 0 },
        zone: f.zone,
        alternative,
        rows,
        outside: c.outside,
        net: c.net,
        speed: under.speed,
        pressure: under.pressure,
        area,
        force,
        newtons,
    }
}
