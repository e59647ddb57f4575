// The force of each face in the case of a report line.
ghost use Rattle.std.specs.Prelude.{◌≡◌, ◌≤◌, pos};
ghost use Rattle.whole.specs.Lists.{first_of};
ghost use Rattle.job.specs.Carried.{most_faces};
ghost use Rattle.worst.specs.Rows.{rows, along_axis, force_in};
ghost use Rattle.column.specs.Column.{at_choice, axis_of};

use crate::report_line::on_axis;
use job::MOST_FACES;
use worst::{AxisForces, CellForces, FaceForces};

// In the order of the faces, with zeros past the last.
#[derive(Clone, Copy)]
pub(crate) struct Forces {
    pub(crate) face: [i64; MOST_FACES],
}

// On the axis of a report line.
fn along(line: i64, f: AxisForces) -> i64
    ensures { result ≡ along_axis (axis_of line) f }
{
    on_axis(line, f.x, f.y, f.z)
}

// The force of one face at its alternative k.
fn force_at(line: i64, f: FaceForces, k: u8) -> i64
    ensures { result ≡ force_in (axis_of line) f k }
{
    if k == 1 {
        return along(line, f.first);
    }
    along(line, f.last)
}

// Of so many faces, each at its alternative.
pub(crate) fn at_choice(
    line: i64,
    forces: CellForces,
    alternative: [u8; MOST_FACES],
    faces: usize,
) -> Forces
    requires { faces ≤ most_faces }
    ensures { result.face ≡ first_of (pos 0) most_faces (at_choice (force_in (axis_of line)) (rows faces forces)
        (first_of 0 faces alternative)) }
{
    let mut all = Forces {
        face: [0i64; MOST_FACES],
    };
    for i in 0..faces {
        all.face[i] = force_at(line, forces.face[i], alternative[i]);
    }
    all
}
