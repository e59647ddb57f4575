// Roofs, tables 3.2.2.2.2 to 3.2.2.2.4: their rows, their parts, and where x lies in one.
ghost use Rattle.std.specs.Prelude.{◌≡◌, [], map, ◌+◌, ◌<◌, ◌≤◌, length, get_or};
ghost use Rattle.building.specs.Order.{SizesInOrder};
ghost use Rattle.building.specs.Ratio.{◌÷◌, up_to};
ghost use Rattle.book.specs.Row.{hundredths, row_numbered, Standing};
ghost use Rattle.book.specs.Line.{way_in, value_at};
ghost use Rattle.book.specs.Spot.{spot_of, roof_parts};
ghost use Rattle.book.specs.Gable.{gable_table, heights, block_of};
ghost use Rattle.book.specs.Flat.{flat_table};
ghost use Rattle.book.specs.SingleSlope.{single_table};
ghost use Rattle.book.specs.Roofs.{part_of, roof_table, last_number, width, roof_way};
ghost use Rattle.book.specs.Held.{held_row, held_slope};

use super::line::{Spot, between, line_at, on_row, slope_at};
use building::Sizes;
use building::ratio::up_to;

// A printed limit: a numerator and a denominator.
#[derive(Clone, Copy)]
struct Limit(u32, u32);

// The gable's blocks, in the book's order: h/b to.
const HEIGHTS: [Limit; 3] = [Limit(1, 2), Limit(3, 2), Limit(6, 1)];

// A printed row: its number, the number at which it stands, and its hundredths.
#[derive(Clone, Copy)]
struct Row(u16, u16, [i16; 4]);

// Straight eaves, which a mansard has at 90 degrees.
const EAVES: [i16; 4] = [-70, 20, -250, -200];

// Table 3.2.2.2.2, a table for each block. A row stands at tenths of a degree. Wind 0 E,F; wind 0 G,H; wind 90 E,G;
// wind 90 F,H. h/b to 1/2.
const LOW: [Row; 7] = [
    Row(1, 0, [-80, -40, -80, -40]),
    Row(2, 50, [-90, -40, -80, -40]),
    Row(3, 100, [-120, -40, -80, -60]),
    Row(4, 200, [-40, -40, -70, -60]),
    Row(5, 300, [0, -40, -70, -60]),
    Row(6, 450, [30, -50, -70, -60]),
    Row(7, 600, [70, -60, -70, -60]),
];

// h/b over 1/2, to 3/2.
const MIDDLE: [Row; 7] = [
    Row(8, 0, [-80, -60, -100, -60]),
    Row(9, 50, [-90, -60, -90, -60]),
    Row(10, 100, [-110, -60, -80, -60]),
    Row(11, 200, [-70, -50, -80, -60]),
    Row(12, 300, [-20, -50, -80, -80]),
    Row(13, 450, [20, -50, -80, -80]),
    Row(14, 600, [60, -50, -80, -80]),
];

// h/b over 3/2, to 6.
const TALL: [Row; 8] = [
    Row(15, 0, [-70, -60, -90, -70]),
    Row(16, 50, [-70, -60, -80, -80]),
    Row(17, 100, [-70, -60, -80, -80]),
    Row(18, 200, [-80, -60, -80, -80]),
    Row(19, 300, [-100, -50, -80, -70]),
    Row(20, 400, [-20, -50, -80, -70]),
    Row(21, 500, [20, -50, -80, -70]),
    Row(22, 600, [50, -50, -80, -70]),
];

// Where each part begins among the rows of gable and flat roofs: gable by h/b; straight eaves, parapet, curved eaves,
// mansard; and the end.
const FIRST: [usize; 8] = [0, 7, 14, 22, 23, 26, 29, 33];

// A printed row of single slopes: the number at which it stands, and its hundredths.
#[derive(Clone, Copy)]
struct Slope(u16, [i16; 10]);

// The first block, in the book's order, up to whose limit h/b comes.
fn block_of(s: Sizes) -> usize
    ensures { result ≡ block_of s.h s.b }
{
    HEIGHTS
        .iter()
        .position(|t| up_to(s.h, s.b, t.0, t.1))
        .unwrap_or(HEIGHTS.len())
}

// A gable's part goes by h/b, a flat roof's by its kind; that of single slopes is the last.
fn part_of(s: Sizes) -> usize
    requires sizes_in_order { SizesInOrder s }
    requires kind_nonzero { 0 < s.kind }
    ensures { (result < 8) × (get_or roof_parts result [] ≡ part_of s) }
{
    if s.kind == 1 {
        return block_of(s);
    }
    (s.kind + 1) as usize
}

// How many rows part k has.
fn count_of(k: usize) -> usize
    requires { k < 8 }
    ensures { result ≡ length (get_or roof_parts k []) }
{
    if k == 7 {
        return 5;
    }
    FIRST[k + 1] - FIRST[k]
}

// Table 3.2.2.2.4. A row stands at tenths of a degree or, for parapet and curved eaves, at thousandths of h. E; F, with
// both signs; L1; L2. Straight eaves; parapet; curved eaves; mansard, and straight eaves again.
fn printed_flat(n: usize) -> Row
    requires { n < 11 }
    ensures { result ≡ held_row (22 + n) }
{
    match n {
        0 => Row(1, 0, EAVES),
        1 => Row(2, 25, [-70, 20, -220, -180]),
        2 => Row(3, 50, [-70, 20, -200, -160]),
        3 => Row(4, 100, [-70, 20, -180, -140]),
        4 => Row(5, 50, [-40, 20, -150, -180]),
        5 => Row(6, 100, [-30, 20, -120, -140]),
        6 => Row(7, 200, [-30, 20, -80, -80]),
        7 => Row(8, 300, [-30, 20, -150, -150]),
        8 => Row(9, 450, [-40, 20, -180, -190]),
        9 => Row(10, 600, [-50, 20, -190, -190]),
        _ => Row(1, 900, EAVES),
    }
}

// The rows of gables and flat roofs, those of gables first: of the constant tables only the one that has it is made to
// be read.
fn printed_row(n: usize) -> Row
    requires { n < 33 }
    ensures { result ≡ held_row n }
{
    if 22 <= n {
        return printed_flat(n - 22);
    }
    if n < 7 {
        return LOW[n];
    }
    if n < 14 {
        return MIDDLE[n - 7];
    }
    TALL[n - 14]
}

// Table 3.2.2.2.3, at tenths of a degree; the first row is that of 5 to 10 degrees. Wind 0 E,F and G,H; 45 E,F and
// G,H; 90 E,G and F,H; 135 E,F and G,H; 180 E,F and G,H.
fn printed_slope(n: usize) -> Slope
    requires { n < 5 }
    ensures { result ≡ held_slope n }
{
    match n {
        0 => Slope(100, [-100, -50, -100, -90, -100, -50, -90, -100, -50, -100]),
        1 => Slope(150, [-90, -50, -100, -70, -100, -50, -60, -100, -30, -100]),
        2 => Slope(200, [-80, -50, -100, -60, -90, -50, -50, -100, -20, -100]),
        3 => Slope(250, [-70, -50, -100, -60, -80, -50, -30, -90, -10, -90]),
        _ => Slope(300, [-50, -50, -100, -60, -80, -50, -10, -60, 0, -60]),
    }
}

#[derive(Clone, Copy)]
struct Stand(u16, u16);

// Row i of part k: its number, and the number at which it stands.
fn row_of(k: usize, i: usize) -> Stand
    requires { (k < 8) × (i < length (get_or roof_parts k [])) }
    ensures { let part = get_or roof_parts k [] in
        (result.0 ≡ get_or (map (λ (s : Standing). s.row.number) part) i 0)
        × (result.1 ≡ get_or (map (λ (s : Standing). s.at) part) i 0) }
{
    if k == 7 {
        let r = printed_slope(i);
        return Stand((i + 1) as u16, r.0);
    }
    let r = printed_row(FIRST[k] + i);
    Stand(r.0, r.1)
}

// Where x / d lies in part k: a walk over its rows, in the book's order.
fn way_in(k: usize, x: u64, d: u64) -> Spot
    requires { (k < 8) × (d ≤ 30000) }
    ensures { result ≡ spot_of (way_in (get_or roof_parts k []) x d) }
{
    let mut row = row_of(k, 0);
    for i in 1..count_of(k) {
        let s = (row.1 as u64) * d;
        if x <= s {
            return on_row(row.0 as u32);
        }
        let next = row_of(k, i);
        let t = (next.1 as u64) * d;
        if x < t {
            return between(row.0 as u32, next.0 as u32, x - s, t - s);
        }
        row = next;
    }
    on_row(row.0 as u32)
}

// Where x lies in the roof's part of its table.
pub(crate) fn roof_way(s: Sizes) -> Spot
    requires sizes_in_order { SizesInOrder s }
    requires kind_nonzero { 0 < s.kind }
    ensures { result ≡ spot_of (roof_way s) }
{
    way_in(part_of(s), s.along, s.across)
}

fn gable_cell(row: u32, col: usize) -> i16
    requires { (0 < row) × (row ≤ 22) × (col < 4) }
    ensures { result ≡ hundredths (row_numbered row gable_table) col }
{
    let r = printed_row((row - 1) as usize);
    r.2[col]
}

fn flat_cell(row: u32, col: usize) -> i16
    requires { (0 < row) × (row ≤ 10) × (col < 4) }
    ensures { result ≡ hundredths (row_numbered row flat_table) col }
{
    let r = printed_row((row + 21) as usize);
    r.2[col]
}

fn single_cell(row: u32, col: usize) -> i16
    requires { (0 < row) × (row ≤ 5) × (col < 10) }
    ensures { result ≡ hundredths (row_numbered row single_table) col }
{
    let r = printed_slope((row - 1) as usize);
    r.1[col]
}

// The hundredths of a row and column of the roof's table.
fn cell(kind: u64, row: u32, col: usize) -> i16
    requires { (0 < row) × (row ≤ last_number kind) × (col < width kind) }
    ensures { result ≡ hundredths (row_numbered row (roof_table kind)) col }
{
    if kind == 1 {
        return gable_cell(row, col);
    }
    if kind == 6 {
        return single_cell(row, col);
    }
    flat_cell(row, col)
}

// The value of a column where x lies. On a gable no half comes up.
pub(crate) fn roof_value(s: Sizes, w: Spot, col: usize) -> i32
    requires sizes_in_order { SizesInOrder s }
    requires kind_nonzero { (0 < s.kind) × (w ≡ spot_of (roof_way s)) × (col < width s.kind) }
    ensures { result ≡ value_at (roof_way s) col }
{
    let lower = cell(s.kind, w.lower, col);
    let upper = cell(s.kind, w.upper, col);
    if 2 <= s.kind {
        return line_at(lower, upper, w.part, w.whole);
    }
    slope_at(lower, upper, w.part, w.whole)
}
