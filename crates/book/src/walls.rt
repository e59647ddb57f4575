// Walls, table 3.2.2.2.1.
ghost use Rattle.std.specs.Prelude.{◌≡◌, ◌&&◌, ◌<◌, get_or};
ghost use Rattle.building.specs.Ratio.{up_to};
ghost use Rattle.building.specs.Order.{SizesInOrder};
ghost use Rattle.book.specs.Row.{hundredths};
ghost use Rattle.book.specs.Line.{on, value_at};
ghost use Rattle.book.specs.Walls.{no_wall, walls, wall_row};
ghost use Rattle.book.specs.Held.{coded_wall, wall_cells};

use building::Sizes;
use building::ratio::up_to;

// A row: h/b up to a limit and a/b up to a limit, each a numerator and a denominator; wind 0; wind 90; local.
#[derive(Clone, Copy)]
struct Wall(u32, u32, u32, u32, [i16; 4], [i16; 4], i16);

// h/b to, a/b to; wind 0: A B C D; wind 90: A B C D; local.
fn printed_wall(row: usize) -> Wall
    requires { row < 6 }
    ensures { result ≡ coded_wall (get_or walls row no_wall) }
{
    match row {
        0 => Wall(1, 2, 3, 2, [70, -20, -50, -50], [-50, -50, 70, -20], -80),
        1 => Wall(1, 2, 4, 1, [70, -25, -60, -60], [-50, -50, 70, -10], -100),
        2 => Wall(3, 2, 3, 2, [70, -25, -60, -60], [-60, -60, 70, -25], -110),
        3 => Wall(3, 2, 4, 1, [70, -30, -70, -70], [-50, -50, 70, -10], -110),
        4 => Wall(6, 1, 3, 2, [80, -25, -80, -80], [-80, -80, 80, -25], -120),
        _ => Wall(6, 1, 4, 1, [70, -40, -70, -70], [-50, -50, 80, -10], -120),
    }
}

// h/b and a/b come up to the limits of a row.
fn in_row(row: usize, s: Sizes) -> bool
    requires { row < 6 }
    ensures { let w = get_or walls row no_wall in
        result ≡ (up_to s.h s.b w.high && up_to s.a s.b w.long) }
{
    let w = printed_wall(row);
    up_to(s.h, s.b, w.0, w.1) && up_to(s.a, s.b, w.2, w.3)
}

// The first row, in the book's order, up to whose limits h/b and a/b come.
pub(crate) fn wall_row(s: Sizes) -> usize
    requires { SizesInOrder s }
    ensures { (result < 6) × ((get_or walls result no_wall).row ≡ wall_row s.h s.a s.b) }
{
    for row in 0..6 {
        if in_row(row, s) {
            return row;
        }
    }
    6
}

fn wall_cell(row: usize, col: usize) -> i16
    requires { (row < 6) × (col < 9) }
    ensures { result ≡ hundredths (get_or walls row no_wall).row col }
{
    let w = printed_wall(row);
    if col < 4 {
        return w.4[col];
    }
    if col < 8 {
        return w.5[col - 4];
    }
    w.6
}

// The cells of A to D.
pub(crate) fn wall_cells(row: usize, wind: u64) -> [i16; 4]
    requires { row < 6 }
    ensures { result ≡ wall_cells (get_or walls row no_wall).row wind }
{
    let w = printed_wall(row);
    if wind == 0 {
        return w.4;
    }
    w.5
}

// The number of a row in the table, from 1.
pub(crate) fn wall_number(row: usize) -> u32
    requires { row < 6 }
    ensures { result ≡ (get_or walls row no_wall).row.number }
{
    (row + 1) as u32
}

// The value of a column on a row, in thousandths.
pub(crate) fn wall_value(row: usize, col: usize) -> i32
    requires { (row < 6) × (col < 9) }
    ensures { result ≡ value_at (on (get_or walls row no_wall).row) col }
{
    (wall_cell(row, col) as i32) * 10
}
