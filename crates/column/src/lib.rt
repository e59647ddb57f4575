// The newton column of a job for one line of its report: whole newtons for each face that add up to the line's total,
// rounded down. The faces may come as a lent list.
#![tactic(auto)]

ghost use Rattle.std.specs.Prelude.{◌≡◌};
ghost use Rattle.page.specs.Writing.{buffer_after};
ghost use Rattle.job.specs.Carried.{carried};
ghost use Rattle.job.specs.Walk.{judged};
ghost use Rattle.worst.specs.Worst.{six_extremes};
ghost use Rattle.worst.specs.Rows.{Taken};
ghost use Rattle.answers.specs.Answers.{host_line};
ghost use Rattle.sharing.specs.Column.{column, sharing};
ghost use Rattle.column.specs.Column.{forces_on, column_verdict, column_after};
ghost use Rattle.job.specs.Setting.{record_with};

use crate::report_line::shown_of;
use answers::Extreme;
use job::{Faces, Job, Setting, with_faces};
use verdict::Verdict;

pub mod faces; // the faces of a lent list
mod forces; // the force of each face in the case of a line
pub mod report_line; // a line's axis, and what it shows

// The newtons of the faces, in the case that a line shows.
fn share_case(job: Job, line: i64, shown: Extreme, list: &mut [i64]) -> Verdict
    requires { Taken job × (shown ≡ host_line (carried job).year (six_extremes (carried job)) line)
        × (shown.verdict.number ≡ 0) }
    ensures { (result ≡ sharing (forces_on line (judged job)) list.old)
        × (list.new ≡ buffer_after (column (forces_on line (judged job))) list.old) }
{
    let cell = worst::forces_of(job, shown.wind, shown.internal);
    let count = job.faces.count as usize;
    let alternative = shown.alternative;
    let all = forces::at_choice(line, cell, alternative, count);
    let own = all.face;
    sharing::share(&own[..count], list)
}

// The column of a job, at the start of the list.
pub fn column_of(job: Job, line: i64, list: &mut [i64]) -> Verdict
    ensures { (result ≡ column_verdict (judged job) line list.old)
        × (list.new ≡ column_after (judged job) line list.old) }
{
    let shown = shown_of(job, line);
    if shown.verdict.number != 0 {
        return shown.verdict;
    }
    share_case(job, line, shown, list)
}

// Of a setting with faces as a record.
pub fn column_in(s: Setting, faces: Faces, line: i64, list: &mut [i64]) -> Verdict
    ensures { (result ≡ column_verdict (judged (record_with s faces)) line list.old)
        × (list.new ≡ column_after (judged (record_with s faces)) line list.old) }
{
    let job = with_faces(s, faces);
    column_of(job, line, list)
}
