// The sums of all cells of a job, and its six extremes, by its own sums or by stored ones: first the factor of each
// face, then for each wind in order one pass over the faces and every internal coefficient; of the cells the furthest,
// and at the end the alternatives of the six cases that were found. The faces are numbers that are read where they
// stand.
ghost use Rattle.std.specs.Prelude.{◌≡◌, ◌≤◌};
ghost use Rattle.job.specs.Carried.{carried};
ghost use Rattle.job.specs.InOrder.{InOrder};
ghost use Rattle.worst.specs.declared.Axis.{Axis};
ghost use Rattle.worst.specs.declared.Side.{Side};
ghost use Rattle.worst.specs.Worst.{six_extremes};
ghost use Rattle.worst.specs.Stored.{stored_of, six_by};
ghost use Rattle.worst.specs.Lent.{faces_by, job_by, Numbered, Lent};
ghost use Rattle.worst.specs.Factors.{AllOne, profile_of, FactorsStand};
ghost use Rattle.worst.specs.Engine.{top_of, top_at, best_up_to};
ghost use Rattle.worst.specs.Proper.{ProperStored, ProperEnds};

use crate::cells::{none_stored, of_wind};
use crate::chosen::shown;
use crate::few::few_added;
use crate::few_tops::{settled_ends, with_few_sums};
use crate::furthest::{over_internals, over_winds};
use crate::inside::insides_of;
use crate::outside::Table;
use crate::speeds::{Factor, UNCHANGED, fill};
use crate::sums::added;
use crate::tops::{Ends, NO_PAIR, no_ends};
use crate::{Six, Stored};
use job::Setting;

// The cells of each wind in order, stored.
fn all_cells(s: Setting, faces: u32, flat: &[i64], factors: &[Factor], table: &mut Table) -> Stored
    requires { Lent faces flat.now factors.now × InOrder (carried (job_by s faces flat.now))
        × FactorsStand (profile_of (job_by s faces flat.now)) (faces_by faces flat.now) factors.now
        × (table.old.building ≡ s.building) }
    ensures { result ≡ stored_of (carried (job_by s faces flat.now)) }
{
    let b = s.building;
    let winds = s.winds;
    let internals = s.internals;
    let mut stored = none_stored();
    for w in 0..winds.count as usize {
        let wind = winds.entry[w];
        let sums = added(b, faces, flat, factors, wind, table);
        let four = of_wind(sums, internals);
        let one = four.cell[0];
        let two = four.cell[1];
        let three = four.cell[2];
        let last_one = four.cell[3];
        let at = 4 * w;
        stored.cell[at] = one;
        stored.cell[at + 1] = two;
        stored.cell[at + 2] = three;
        stored.cell[at + 3] = last_one;
    }
    stored
}

// The furthest of the cells of each wind in order, none of them stored.
fn best_cells(s: Setting, faces: u32, flat: &[i64], factors: &[Factor], table: &mut Table) -> Ends
    requires { Lent faces flat.now factors.now × InOrder (carried (job_by s faces flat.now))
        × FactorsStand (profile_of (job_by s faces flat.now)) (faces_by faces flat.now) factors.now
        × (table.old.building ≡ s.building) }
    ensures { ((axis : Axis) (side : Side) → top_of (top_at axis side result)
        ≡ best_up_to axis side (stored_of (carried (job_by s faces flat.now))) s.internals.count
        s.winds.count)
        × ProperEnds result × (table.new.building ≡ s.building) }
{
    let b = s.building;
    let winds = s.winds;
    let internals = s.internals;
    let mut ends = no_ends(NO_PAIR);
    for w in 0..winds.count {
        let wind = winds.entry[w as usize];
        let sums = added(b, faces, flat, factors, wind, table);
        let four = of_wind(sums, internals);
        ends = over_internals(ends, four, internals.count as usize, w + 1);
    }
    ends
}

// The same of up to 24 faces.
fn few_best(s: Setting, faces: u32, flat: &[i64], factors: &[Factor], table: &mut Table) -> Ends
    requires { (faces ≤ 24) × Lent faces flat.now factors.now
        × InOrder (carried (job_by s faces flat.now))
        × FactorsStand (profile_of (job_by s faces flat.now)) (faces_by faces flat.now) factors.now
        × (table.old.building ≡ s.building) }
    ensures { ((axis : Axis) (side : Side) → top_of (top_at axis side result)
        ≡ best_up_to axis side (stored_of (carried (job_by s faces flat.now))) s.internals.count
        s.winds.count)
        × ProperEnds result × (table.new.building ≡ s.building) }
{
    let b = s.building;
    let winds = s.winds;
    let insides = insides_of(s.internals);
    let mut ends = no_ends(0);
    for w in 0..winds.count {
        let wind = winds.entry[w as usize];
        let few = few_added(b, flat, factors, 0, faces as usize, wind, table);
        ends = with_few_sums(ends, few, insides, w + 1);
    }
    settled_ends(ends)
}

// The furthest cells: few faces take less.
fn best(s: Setting, faces: u32, flat: &[i64], factors: &[Factor], table: &mut Table) -> Ends
    requires { Lent faces flat.now factors.now × InOrder (carried (job_by s faces flat.now))
        × FactorsStand (profile_of (job_by s faces flat.now)) (faces_by faces flat.now) factors.now
        × (table.old.building ≡ s.building) }
    ensures { ((axis : Axis) (side : Side) → top_of (top_at axis side result)
        ≡ best_up_to axis side (stored_of (carried (job_by s faces flat.now))) s.internals.count
        s.winds.count)
        × ProperEnds result × (table.new.building ≡ s.building) }
{
    if faces <= 24 {
        return few_best(s, faces, flat, factors, table);
    }
    best_cells(s, faces, flat, factors, table)
}

// The sums of a job that is in order.
pub(crate) fn sums_of(s: Setting, faces: u32, flat: &[i64]) -> Stored
    requires { Numbered faces flat.now × InOrder (carried (job_by s faces flat.now)) }
    ensures { result ≡ stored_of (carried (job_by s faces flat.now)) }
{
    let mut factors = [UNCHANGED; 240];
    fill(s, faces, flat, &mut factors);
    let mut table = Table::new(s.building);
    all_cells(s, faces, flat, &factors, &mut table)
}

// The six extremes that stored sums tell of such a job.
pub(crate) fn six_by(s: Setting, faces: u32, flat: &[i64], stored: Stored) -> Six
    requires { Numbered faces flat.now × InOrder (carried (job_by s faces flat.now)) × ProperStored stored }
    ensures { result ≡ six_by stored (carried (job_by s faces flat.now)) }
{
    let ends = over_winds(stored, s.winds.count, s.internals.count);
    let mut factors = [UNCHANGED; 240];
    fill(s, faces, flat, &mut factors);
    let mut table = Table::new(s.building);
    shown(s, faces, flat, ends, &factors, &mut table)
}

// And its own, with a list that holds 1 / 1 throughout.
fn own_six(s: Setting, faces: u32, flat: &[i64], factors: &mut [Factor]) -> Six
    requires { Lent faces flat.now factors.old × AllOne factors.old
        × InOrder (carried (job_by s faces flat.now)) }
    ensures { result ≡ six_extremes (carried (job_by s faces flat.now)) }
{
    fill(s, faces, flat, factors);
    let mut table = Table::new(s.building);
    let ends = best(s, faces, flat, factors, &mut table);
    shown(s, faces, flat, ends, factors, &mut table)
}

// Few faces need less room, and take less: this is the way of nearly every report, by itself so that no record is
// copied on it.
pub(crate) fn few_six(s: Setting, faces: u32, flat: &[i64]) -> Six
    requires { (faces ≤ 24) × Numbered faces flat.now × InOrder (carried (job_by s faces flat.now)) }
    ensures { result ≡ six_extremes (carried (job_by s faces flat.now)) }
{
    let mut factors = [UNCHANGED; 24];
    fill(s, faces, flat, &mut factors);
    let mut table = Table::new(s.building);
    let ends = few_best(s, faces, flat, &factors, &mut table);
    shown(s, faces, flat, ends, &factors, &mut table)
}

pub(crate) fn six_of(s: Setting, faces: u32, flat: &[i64]) -> Six
    requires { Numbered faces flat.now × InOrder (carried (job_by s faces flat.now)) }
    ensures { result ≡ six_extremes (carried (job_by s faces flat.now)) }
{
    let mut factors = [UNCHANGED; 240];
    own_six(s, faces, flat, &mut factors)
}
