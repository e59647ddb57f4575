// A line of the report, by its number: its axis, and what it shows of a job.
ghost use Rattle.std.specs.Prelude.{◌≡◌};
ghost use Rattle.job.specs.Walk.{judged};
ghost use Rattle.answers.specs.Answers.{host_total};
ghost use Rattle.column.specs.Column.{axis_of, number_on};

use answers::Extreme;
use job::Job;

// Of three numbers, one for each axis, that of the line's axis.
pub fn on_axis(line: i64, x: i64, y: i64, z: i64) -> i64
    ensures { result ≡ number_on (axis_of line) x y z }
{
    if line < 3 {
        return x;
    }
    if line < 5 {
        return y;
    }
    z
}

// What it shows; or the job's own refusal, or that of another line.
pub fn shown_of(job: Job, line: i64) -> Extreme
    ensures { result ≡ host_total (judged job) line }
{
    match worst::worst_cases(job) {
        Ok(w) => answers::line_of(w.year, w.six, line),
        Err(v) => answers::no_extreme(v),
    }
}
