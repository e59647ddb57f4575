// One case added up: of each face the force at its alternative.
ghost use Rattle.std.specs.Prelude.{◌≡◌, ◌≤◌, length};
ghost use Rattle.whole.specs.Lists.{first_of, Every};
ghost use Rattle.job.specs.Carried.{most_faces};
ghost use Rattle.worst.specs.Rows.{taken_at};
ghost use Rattle.plain.specs.Walked.{plus, totals_of, RowSmall};

use job::MOST_FACES;
use pair::Pair;
use worst::{AxisForces, FaceForces};

// The totals on the three axes.
#[derive(Clone, Copy)]
pub(crate) struct Totals {
    pub(crate) x: Pair,
    pub(crate) y: Pair,
    pub(crate) z: Pair,
}

// With a force added.
fn with_force(all: Totals, f: AxisForces) -> Totals
    ensures { result ≡ plus all f }
{
    Totals {
        x: pair::sum(all.x, pair::of_units(f.x)),
        y: pair::sum(all.y, pair::of_units(f.y)),
        z: pair::sum(all.z, pair::of_units(f.z)),
    }
}

// The force of a face at its alternative k.
fn force_at(f: &FaceForces, k: u8) -> AxisForces
    ensures { result ≡ taken_at f.now k }
{
    if k == 1 { f.first } else { f.last }
}

// The totals of a choice.
pub(crate) fn total(fs: &[FaceForces], choice: [u8; MOST_FACES]) -> Totals
    requires { (length fs.now ≤ most_faces) × Every RowSmall fs.now }
    ensures { result ≡ totals_of fs.now (first_of 0 (length fs.now) choice) }
{
    let none = pair::of_units(0);
    let mut all = Totals {
        x: none,
        y: none,
        z: none,
    };
    for (i, f) in fs.iter().enumerate() {
        all = with_force(all, force_at(f, choice[i]));
    }
    all
}
