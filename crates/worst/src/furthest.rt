// The furthest of the stored sums: on each axis and side the first cell that has it.
ghost use Rattle.std.specs.Prelude.{◌≡◌, ◌≤◌, ◌<◌};
ghost use Rattle.worst.specs.declared.Axis.{Axis};
ghost use Rattle.worst.specs.declared.Side.{Side};
ghost use Rattle.worst.specs.Best.{at, better};
ghost use Rattle.worst.specs.Stored.{span_side};
ghost use Rattle.worst.specs.Engine.{cell, top_of, end_of, top_at, four_best, best_up_to};
ghost use Rattle.worst.specs.Proper.{ProperSpan, ProperCells, ProperStored, ProperTops, ProperEnds};

use crate::cells::{WindCells, stored_cells};
use crate::tops::{Ends, NO_PAIR, Tops, kept, no_ends};
use crate::{Side, Span, Stored};

// One cell more on one axis.
fn with_cell(tops: Tops, span: Span, wind: u32, number: u32) -> Tops
    requires { (0 < wind) × ProperTops tops × ProperSpan span }
    ensures { ((s : Side) → top_of (end_of s result)
        ≡ better s (top_of (end_of s tops)) (at (span_side s span) (cell wind number))) × ProperTops result }
{
    let greatest = kept(Side::Greatest, tops.greatest, span.greatest, wind, number);
    let least = kept(Side::Least, tops.least, span.least, wind, number);
    Tops { greatest, least }
}

// The cells of one wind, after those of the winds before it.
pub(crate) fn over_internals(ends: Ends, four: WindCells, count: usize, wind: u32) -> Ends
    requires { (count ≤ 4) × (0 < wind) × ProperEnds ends × ProperCells count four.cell }
    ensures { ((axis : Axis) (s : Side) → top_of (top_at axis s result)
        ≡ better s (top_of (top_at axis s ends)) (four_best axis s four.cell count wind)) × ProperEnds result }
{
    let mut best = ends;
    for (i, cell) in four.cell[..count].iter().enumerate() {
        let number = (i + 1) as u32;
        let x = with_cell(best.x, cell.x, wind, number);
        let y = with_cell(best.y, cell.y, wind, number);
        let z = with_cell(best.z, cell.z, wind, number);
        best = Ends { x, y, z };
    }
    best
}

// The cells of the first winds, each with so many internal coefficients.
pub(crate) fn over_winds(stored: Stored, winds: u32, internals: u32) -> Ends
    requires { (winds ≤ 8) × (internals ≤ 4) × ProperStored stored }
    ensures { ((axis : Axis) (s : Side) → top_of (top_at axis s result) ≡ best_up_to axis s stored internals winds)
        × ProperEnds result }
{
    let count = internals as usize;
    let mut ends = no_ends(NO_PAIR);
    for w in 0..winds {
        let number = w + 1;
        let four = stored_cells(stored, number);
        ends = over_internals(ends, four, count, number);
    }
    ends
}
