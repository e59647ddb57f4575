// The best cells of a job of up to 24 faces: 64 bits hold every total, and each wind has one cell on each axis and side
// that is further out than its others.
ghost use Rattle.std.specs.Prelude.{◌≡◌, ◌<◌};
ghost use Rattle.worst.specs.declared.Axis.{Axis};
ghost use Rattle.worst.specs.declared.Side.{Side};
ghost use Rattle.worst.specs.Best.{better};
ghost use Rattle.worst.specs.Engine.{top_of, few_top_of, end_of, top_at, sums_on};
ghost use Rattle.worst.specs.Few.{few_in, few_axes, FewAxisSmall, FewSmall};
ghost use Rattle.worst.specs.Inside.{InsidesSmall, furthest_cell};
ghost use Rattle.worst.specs.Proper.{Proper, ProperTops, ProperEnds};

use crate::Side;
use crate::few::{FewAxis, FewSums};
use crate::inside::{Insides, sides_at};
use crate::tops::{Ends, Top, Tops, kept};

// The furthest cells of one wind more: on one axis, and on all.
fn with_few_axis(tops: Tops<i64>, sums: FewAxis, insides: Insides, wind: u32) -> Tops<i64>
    requires { (0 < wind) × FewAxisSmall 24 sums × InsidesSmall insides }
    ensures { (s : Side) → few_top_of (end_of s result)
        ≡ better s (few_top_of (end_of s tops)) (furthest_cell s (few_in sums) insides wind) }
{
    let weight = sums.weight;
    let two = sides_at(insides, weight);
    let most = sums.greatest - two.up.part * weight;
    let fewest = sums.least - two.down.part * weight;
    let greatest = kept(Side::Greatest, tops.greatest, most, wind, two.up.number);
    let least = kept(Side::Least, tops.least, fewest, wind, two.down.number);
    Tops { greatest, least }
}

pub(crate) fn with_few_sums(
    ends: Ends<i64>,
    sums: FewSums,
    insides: Insides,
    wind: u32,
) -> Ends<i64>
    requires { (0 < wind) × FewSmall 24 sums × InsidesSmall insides }
    ensures { (axis : Axis) (s : Side) → few_top_of (top_at axis s result)
        ≡ better s (few_top_of (top_at axis s ends)) (furthest_cell s (sums_on axis (few_axes sums)) insides wind) }
{
    let x = with_few_axis(ends.x, sums.x, insides, wind);
    let y = with_few_axis(ends.y, sums.y, insides, wind);
    let z = with_few_axis(ends.z, sums.z, insides, wind);
    Ends { x, y, z }
}

// With pairs for totals.
fn settled_top(top: Top<i64>) -> Top
    ensures { (top_of result ≡ few_top_of top) × Proper result.total }
{
    let total = pair::of_units(top.total);
    Top {
        total,
        wind: top.wind,
        internal: top.internal,
    }
}

fn settled_tops(tops: Tops<i64>) -> Tops
    ensures { ((s : Side) → top_of (end_of s result) ≡ few_top_of (end_of s tops)) × ProperTops result }
{
    let greatest = settled_top(tops.greatest);
    let least = settled_top(tops.least);
    Tops { greatest, least }
}

pub(crate) fn settled_ends(ends: Ends<i64>) -> Ends
    ensures { ((axis : Axis) (s : Side) → top_of (top_at axis s result) ≡ few_top_of (top_at axis s ends))
        × ProperEnds result }
{
    let x = settled_tops(ends.x);
    let y = settled_tops(ends.y);
    let z = settled_tops(ends.z);
    Ends { x, y, z }
}
