// Four zones at once, their building being in order: the row of its walls, or the spot in its roof's table, is found
// once for all four.
ghost use Rattle.std.specs.Prelude.{◌≡◌, true, false, ℕ, ◌<◌, pos, ◌*ℤ◌};
ghost use Rattle.building.specs.Order.{SizesInOrder};
ghost use Rattle.building.specs.Places.{E, F};
ghost use Rattle.book.specs.Question.{two_signs};
ghost use Rattle.book.specs.Roofs.{roof_way};
ghost use Rattle.book.specs.Spot.{spot_of};
ghost use Rattle.book.specs.Zones.{both_ends, no_four, four_on, walls_on, wall_half};
ghost use Rattle.book.specs.Zones.{two_on, by_flanks, roof_on, roof_half};

use super::line::Spot;
use super::question::{roof_column, two_signs};
use super::roofs::{roof_value, roof_way};
use super::walls::{wall_cells, wall_row};
use super::{Ends, Four};
use building::Sizes;
use building::kinds::{knows, on_walls};

// A coefficient that a zone has alone.
fn alone(v: i32) -> Ends
    ensures { result ≡ both_ends v }
{
    Ends { first: v, last: v }
}

pub(crate) fn no_zones() -> Four
    ensures { result ≡ no_four }
{
    let zero = alone(0);
    Four {
        first: zero,
        second: zero,
        third: zero,
        fourth: zero,
    }
}

// Hundredths in thousandths.
fn of_cell(v: i16) -> Ends
    ensures { result ≡ both_ends (v *ℤ pos 10) }
{
    alone((v as i32) * 10)
}

// A to D.
fn walls(s: Sizes, wind: u64) -> Four
    requires { SizesInOrder s }
    ensures { result ≡ walls_on s wind }
{
    let cells = wall_cells(wall_row(s), wind);
    Four {
        first: of_cell(cells[0]),
        second: of_cell(cells[1]),
        third: of_cell(cells[2]),
        fourth: of_cell(cells[3]),
    }
}

// The walls' table has two directions.
pub(crate) fn wall_half(s: Sizes, direction: i64) -> Four
    requires { SizesInOrder s }
    ensures { result ≡ wall_half s direction }
{
    if on_walls(direction) {
        return walls(s, whole::magnitude(direction));
    }
    no_zones()
}

// E and F of a flat roof. F is the same in every row.
fn flat(s: Sizes, w: Spot) -> Four
    requires sizes_in_order { SizesInOrder s }
    requires kind_nonzero { (0 < s.kind) × (two_signs s.kind F ≡ true) × (w ≡ spot_of (roof_way s)) }
    ensures { (wind : ℕ) → result ≡ two_on s wind }
{
    let e = alone(roof_value(s, w, 0));
    let zero = alone(0);
    Four {
        first: e,
        second: Ends {
            first: 200,
            last: -200,
        },
        third: zero,
        fourth: zero,
    }
}

// Two columns hold E,G and F,H; or else E,F and G,H.
fn by_flanks(kind: u64, wind: u64) -> bool
    ensures { result ≡ by_flanks kind wind }
{
    if kind == 1 { wind != 0 } else { wind == 90 }
}

// E to H of a gable or a single slope.
fn slopes(s: Sizes, w: Spot, wind: u64) -> Four
    requires sizes_in_order { SizesInOrder s }
    requires kind_nonzero { (0 < s.kind) × (two_signs s.kind F ≡ false) × (w ≡ spot_of (roof_way s)) }
    ensures { result ≡ four_on s wind E }
{
    let e = alone(roof_value(s, w, roof_column(s.kind, wind, b'E')));
    let h = alone(roof_value(s, w, roof_column(s.kind, wind, b'H')));
    if by_flanks(s.kind, wind) {
        return Four {
            first: e,
            second: h,
            third: e,
            fourth: h,
        };
    }
    Four {
        first: e,
        second: e,
        third: h,
        fourth: h,
    }
}

fn roof(s: Sizes, wind: u64) -> Four
    requires sizes_in_order { SizesInOrder s }
    requires kind_nonzero { 0 < s.kind }
    ensures { result ≡ roof_on s wind }
{
    let w = roof_way(s);
    if two_signs(s.kind, b'F') {
        return flat(s, w);
    }
    slopes(s, w, wind)
}

// Without a roof there is none of E to H, nor under a direction that the roof does not know.
pub(crate) fn roof_half(s: Sizes, kind: i64, direction: i64) -> Four
    requires { SizesInOrder s }
    ensures { result ≡ roof_half s kind direction }
{
    if s.kind == 0 {
        return no_zones();
    }
    if knows(kind, direction) {
        return roof(s, whole::magnitude(direction));
    }
    no_zones()
}
