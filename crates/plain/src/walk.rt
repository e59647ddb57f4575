// Every choice of alternatives in their order, one number after another.
ghost use Rattle.std.specs.Prelude.{ℕ, length};
ghost use Rattle.worst.specs.declared.Side.{Side};
ghost use Rattle.worst.specs.declared.Axis.{Axis};
ghost use Rattle.worst.specs.Best.{Best, better};
ghost use Rattle.worst.specs.Cases.{Case, total};
ghost use Rattle.worst.specs.Rows.{force_in};
ghost use Rattle.worst.specs.Worst.{shown_in};
ghost use Rattle.plain.specs.Walked.{walked, Keeps, Underway};

use crate::choices;
use crate::keep::with_case;
use worst::{FaceForces, Six};

// Those of the faces with these forces, after what is kept so far.
pub(crate) fn walk(six: Six, fs: &[FaceForces], wind: u32, internal: u32) -> Six
    requires { Underway wind fs.now }
    ensures { (axis : Axis) (s : Side) (b : Best (Case ℕ ℕ ℕ)) → Keeps (length fs.now) (shown_in six axis s) b
        → Keeps (length fs.now) (shown_in result axis s)
        (better s b (walked s (total (force_in axis) fs.now) wind internal fs.now)) }
{
    let all = choices::ways(fs);
    let mut kept = six;
    for n in 1..=all {
        let choice = choices::choice_of(fs, all, n);
        kept = with_case(kept, fs, choice, wind, internal);
    }
    kept
}
