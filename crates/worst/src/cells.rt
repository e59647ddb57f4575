// The sums of each cell of one wind. The sum at an internal coefficient is that of outside coefficient × weight, less
// the internal coefficient × the sum of the weights.
ghost use Rattle.std.specs.Prelude.{◌≡◌, ℕ, ◌+◌, ◌-◌, ◌*◌, ◌≤◌, ◌<◌, pos, nat_abs, get_or};
ghost use Rattle.worst.specs.declared.StoredCell.{StoredCell};
ghost use Rattle.worst.specs.Stored.{no_cell, none_stored};
ghost use Rattle.worst.specs.Engine.{span_with, cell_with, UpTo};
ghost use Rattle.worst.specs.Amounts.{sums_in, axes_in, AxisSumsSmall, AllSumsSmall};
ghost use Rattle.worst.specs.Small.{LowInternals};

use crate::amounts::{less_times, settled};
use crate::sums::{AllSums, AxisSums};
use crate::tops::NO_PAIR;
use crate::{Span, Stored, StoredCell};
use job::Internals;

// The cells of one wind, one for each internal coefficient.
#[derive(Clone, Copy)]
pub(crate) struct WindCells {
    pub(crate) cell: [StoredCell; 4],
}

// Zeros: a cell, and all of them.
fn no_cell() -> StoredCell
    ensures { result ≡ no_cell }
{
    let none = Span {
        greatest: NO_PAIR,
        least: NO_PAIR,
    };
    StoredCell {
        x: none,
        y: none,
        z: none,
    }
}

pub(crate) fn none_stored() -> Stored
    ensures { result ≡ none_stored }
{
    let empty = no_cell();
    let cell = [empty; 32];
    Stored { cell }
}

// On one axis. The internal coefficient is in hundredths.
fn span_of(sums: AxisSums, internal: i64) -> Span
    requires { AxisSumsSmall 240 sums × (nat_abs internal ≤ 100) }
    ensures { result ≡ span_with (sums_in sums) internal }
{
    let tenfold = internal * 10;
    let greatest = settled(less_times(sums.greatest, tenfold, sums.weight));
    let least = settled(less_times(sums.least, tenfold, sums.weight));
    Span { greatest, least }
}

fn cell_of(sums: AllSums, internal: i64) -> StoredCell
    requires { AllSumsSmall 240 sums × (nat_abs internal ≤ 100) }
    ensures { result ≡ cell_with (axes_in sums) internal }
{
    let x = span_of(sums.x, internal);
    let y = span_of(sums.y, internal);
    let z = span_of(sums.z, internal);
    StoredCell { x, y, z }
}

// The cells of a wind, with zeros past the internal coefficients.
pub(crate) fn of_wind(sums: AllSums, internals: Internals) -> WindCells
    requires { AllSumsSmall 240 sums × LowInternals internals }
    ensures { (h : ℕ → StoredCell)
        → ((i : ℕ) → i < internals.count → h i ≡ cell_with (axes_in sums) (get_or internals.entry i (pos 0)))
        → UpTo 4 h internals.count result.cell }
{
    let count = internals.count as usize;
    let empty = no_cell();
    let cell = [empty; 4];
    let mut four = WindCells { cell };
    for (i, internal) in internals.entry[..count].iter().enumerate() {
        four.cell[i] = cell_of(sums, *internal);
    }
    four
}

// Those that stand in stored sums, the wind's number being from 1.
pub(crate) fn stored_cells(stored: Stored, wind: u32) -> WindCells
    requires { (0 < wind) × (wind ≤ 8) }
    ensures { (i : ℕ) → i < 4 → get_or result.cell i no_cell ≡ get_or stored.cell (4 * (wind - 1) + i) no_cell }
{
    let at = 4 * ((wind - 1) as usize);
    let one = stored.cell[at];
    let two = stored.cell[at + 1];
    let three = stored.cell[at + 2];
    let last_one = stored.cell[at + 3];
    let cell = [one, two, three, last_one];
    WindCells { cell }
}
