// What one face gets of the newtons.
ghost use Rattle.std.specs.Prelude.{◌≡◌, ◌<◌, pos, length};
ghost use Rattle.sharing.specs.Column.{missing, share_of};

use crate::order::how_many_ahead;

// Where `count` newtons are missing: its force rounded down, and one more where fewer faces are ahead of it.
pub(crate) fn share_of(forces: &[i64], face: usize, count: usize) -> i64
    requires { (face < length forces.now) × (pos count ≡ missing forces.now) }
    ensures { result ≡ share_of forces.now face }
{
    let down = whole::newtons(forces[face]);
    if how_many_ahead(forces, face) < count {
        return down + 1;
    }
    down
}
