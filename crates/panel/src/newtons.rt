// The panel of newtons with a remainder: exact where nothing remains; else low and high are those of the newtons and
// of one more.
ghost use Rattle.std.specs.Prelude.{◌≡◌, pos, ◌+ℤ◌};
ghost use Rattle.panel.specs.Bracket.{panel_of};
ghost use Rattle.panel.specs.Pairs.{panel_of_newtons, point_of_pairs};

use crate::{Panel, Point};
use pair::Pair;

// The panel of one newton more. The greatest i64 has one more too.
fn panel_of_next(newtons: i64) -> Panel
    ensures { result ≡ panel_of (newtons +ℤ pos 1) }
{
    if newtons < 0 {
        return crate::panel_of(newtons + 1);
    }
    crate::of_size(whole::magnitude(newtons) + 1)
}

// What the panel gets for newtons with a remainder, whatever it is.
pub fn panel_of_newtons(newtons: i64, remainder: u64) -> Panel
    ensures { result ≡ panel_of_newtons newtons remainder }
{
    let here = crate::panel_of(newtons);
    if remainder == 0 {
        return here;
    }
    let next = panel_of_next(newtons);
    Panel::Between(crate::low(here), crate::high(next))
}

// The chart point of the totals on the three axes.
pub fn chart_of_pairs(x: Pair, y: Pair, z: Pair) -> Point
    ensures { result ≡ point_of_pairs x y z }
{
    let a = panel_of_newtons(x.newtons, x.remainder);
    let b = panel_of_newtons(y.newtons, y.remainder);
    let c = panel_of_newtons(z.newtons, z.remainder);
    crate::point_in(a, b, c)
}
