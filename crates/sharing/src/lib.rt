// Whole newtons for each face that add up to the total rounded down: the column of a list of forces, put into a lent
// list.
#![tactic(auto)]

ghost use Rattle.std.specs.Prelude.{◌≡◌};
ghost use Rattle.page.specs.Writing.{buffer_after};
ghost use Rattle.sharing.specs.Column.{column, sharing};

use verdict::Verdict;

mod missing; // the newtons that are missing once each force is rounded down
mod order; // which faces are ahead of which
mod shares; // what one face gets

// The column of the forces at the start of the list, or 7 where it has no room for it.
pub fn share(forces: &[i64], list: &mut [i64]) -> Verdict
    ensures { (result ≡ sharing forces.now list.old)
        × (list.new ≡ buffer_after (column forces.now) list.old) }
{
    if list.len() < forces.len() {
        return Verdict { number: 7, line: 0 };
    }
    let missing = missing::missing_newtons(forces);
    for face in 0..forces.len() {
        list[face] = shares::share_of(forces, face, missing);
    }
    Verdict { number: 0, line: 0 }
}
