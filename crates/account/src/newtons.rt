// The newtons of a face in the column of a report line.
ghost use Rattle.std.specs.Prelude.{◌≡◌, ◌<◌, pos, get_or, replicate};
ghost use Rattle.job.specs.Carried.{most_faces};
ghost use Rattle.job.specs.Walk.{judged};
ghost use Rattle.column.specs.Column.{column_after};

use job::{Job, MOST_FACES};

// Of the face at a place, from 0.
pub(crate) fn newtons_at(job: Job, line: i64, k: usize) -> i64
    requires { k < most_faces }
    ensures { result ≡ get_or (column_after (judged job) line (replicate most_faces (pos 0))) k (pos 0) }
{
    let mut list = [0i64; MOST_FACES];
    column::column_of(job, line, &mut list);
    list[k]
}
