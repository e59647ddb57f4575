// The account of one face in the case of one report line: every step from the printed rows to the face's force, and its
// newtons in the column.
#![tactic(auto)]

ghost use Rattle.std.specs.Prelude.{◌≡◌};
ghost use Rattle.job.specs.Walk.{judged};
ghost use Rattle.account.specs.Account.{no_account, account_of};

use building::limits::beyond;
use column::report_line::shown_of;
use job::Job;
use verdict::Verdict;

mod coefficients; // those of a face, with their rows
mod newtons; // its newtons in the column
mod steps; // from there to its force

// The numbers of two printed rows, and the fraction of the way from one to the other, part / whole in lowest terms.
#[repr(C)]
#[derive(Clone, Copy)]
pub struct Rows {
    pub lower: u32,
    pub upper: u32,
    pub part: u32,
    pub whole: u32,
}

// A face's zone and alternative, both coefficients in thousandths with their rows, the wind's speed there in tenths of
// m/s, the pressure number, the area on the line's axis, the force in units and the newtons of the column. All zero
// where it is refused; no rows and no coefficients where the face takes no part.
#[repr(C)]
#[derive(Clone, Copy)]
pub struct Account {
    pub verdict: Verdict,
    pub zone: u8,
    pub alternative: u8,
    pub rows: Rows,
    pub outside: i32,
    pub net: i32,
    pub speed: i64,
    pub pressure: i64,
    pub area: i64,
    pub force: i64,
    pub newtons: i64,
}

// Zeros.
pub fn no_account(v: Verdict) -> Account
    ensures { result ≡ no_account v }
{
    let rows = coefficients::no_rows();
    Account {
        verdict: v,
        zone: 0,
        alternative: 0,
        rows,
        outside: 0,
        net: 0,
        speed: 0,
        pressure: 0,
        area: 0,
        force: 0,
        newtons: 0,
    }
}

// Of a job, a report line and a face, both numbered from 1.
pub fn account_of(job: Job, line: i64, face: i64) -> Account
    ensures { result ≡ account_of (judged job) line face }
{
    let shown = shown_of(job, line);
    if shown.verdict.number != 0 {
        return no_account(shown.verdict);
    }
    if beyond(1, job.faces.count as i64, face) {
        return no_account(Verdict { number: 9, line: 0 });
    }
    steps::face_account(job, line, shown, face as u32)
}
