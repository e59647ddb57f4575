// The coefficient of one zone or local, once the question is in order.
ghost use Rattle.std.specs.Prelude.{◌≡◌, true, false, ◌≤◌, ◌<◌, neg_ℤ, nat_abs};
ghost use Rattle.whole.specs.Lists.{Every};
ghost use Rattle.building.specs.Places.{wall_place};
ghost use Rattle.building.specs.Order.{SizesInOrder};
ghost use Rattle.book.specs.declared.Values.TheVariants.{Two};
ghost use Rattle.book.specs.Answer.{values_in};
ghost use Rattle.book.specs.Spot.{cites_at};
ghost use Rattle.book.specs.Walls.{wall_way};
ghost use Rattle.book.specs.Question as question;
ghost use Rattle.book.specs.Question.{wall_column, half_of, flank_of, gable_column, single_column, flat_column};
ghost use Rattle.book.specs.Question.{roof_column, two_signs, one_at, coefficient_of, net_cited};

use super::line::{Spot, on_row};
use super::roofs::{roof_value, roof_way};
use super::walls::{wall_number, wall_row, wall_value};
use super::{Cited, Values};
use building::Sizes;
use building::kinds::wall_place;
use building::limits::beyond;

fn wall_column(wind: u64, place: u8) -> usize
    requires { wall_place place ≡ true }
    ensures { result ≡ wall_column wind place }
{
    if place == b'w' {
        return 8;
    }
    if wind == 0 {
        return (place - b'A') as usize;
    }
    4 + (place - b'A') as usize
}

// E,F before G,H.
fn half_of(zone: u8) -> usize
    ensures { result ≡ half_of zone }
{
    if zone <= b'F' { 0 } else { 1 }
}

// E,G before F,H.
fn flank_of(zone: u8) -> usize
    ensures { result ≡ flank_of zone }
{
    if zone == b'E' || zone == b'G' { 0 } else { 1 }
}

fn gable_column(wind: u64, zone: u8) -> usize
    ensures { result ≡ gable_column wind zone }
{
    if wind == 0 {
        return half_of(zone);
    }
    2 + flank_of(zone)
}

fn single_column(wind: u64, zone: u8) -> usize
    ensures { result ≡ single_column wind zone }
{
    if wind == 0 {
        return half_of(zone);
    }
    if wind == 45 {
        return 2 + half_of(zone);
    }
    if wind == 90 {
        return 4 + flank_of(zone);
    }
    if wind == 135 {
        return 6 + half_of(zone);
    }
    8 + half_of(zone)
}

fn flat_column(place: u8) -> usize
    ensures { result ≡ flat_column place }
{
    if place == b'E' {
        return 0;
    }
    if place == b'F' {
        return 1;
    }
    if place == b'1' {
        return 2;
    }
    3
}

// The column of a place in the table of its roof.
pub(crate) fn roof_column(kind: u64, wind: u64, place: u8) -> usize
    ensures { result ≡ roof_column kind wind place }
{
    if kind == 1 {
        return gable_column(wind, place);
    }
    if kind == 6 {
        return single_column(wind, place);
    }
    flat_column(place)
}

// Zone F of a flat roof.
pub(crate) fn two_signs(kind: u64, place: u8) -> bool
    ensures { result ≡ two_signs kind place }
{
    if kind < 2 {
        return false;
    }
    if 5 < kind {
        return false;
    }
    place == b'F'
}

fn both_signs(v: i32) -> Values
    requires { nat_abs v ≤ 2500 }
    ensures { result ≡ Two v (neg_ℤ v) }
{
    Values::Two(v, 0 - v)
}

// Values that lie at a spot.
fn cited(values: Values, w: Spot) -> Cited
    ensures { result ≡ cites_at values w }
{
    Cited {
        values,
        lower: w.lower,
        upper: w.upper,
        part: w.part,
        whole: w.whole,
    }
}

// On a wall nothing lies between two rows.
fn on_wall(s: Sizes, col: usize) -> Cited
    requires sizes_in_order { SizesInOrder s }
    requires col_bound { col < 9 }
    ensures { result ≡ one_at (wall_way s) col }
{
    let row = wall_row(s);
    cited(Values::One(wall_value(row, col)), on_row(wall_number(row)))
}

// On a roof; F of a flat one has both signs.
fn on_roof(s: Sizes, wind: u64, place: u8) -> Cited
    requires sizes_in_order { SizesInOrder s }
    requires kind_nonzero { (0 < s.kind) × (wall_place place ≡ false) }
    ensures { result ≡ coefficient_of s wind place }
{
    let w = roof_way(s);
    let v = roof_value(s, w, roof_column(s.kind, wind, place));
    if two_signs(s.kind, place) {
        return cited(both_signs(v), w);
    }
    cited(Values::One(v), w)
}

// A place that is not on a wall needs a roof.
pub(crate) fn coefficient(s: Sizes, wind: u64, place: u8) -> Cited
    requires sizes_in_order { SizesInOrder s }
    requires kind_nonzero { wall_place place ≡ false → 0 < s.kind }
    ensures { result ≡ coefficient_of s wind place }
{
    if wall_place(place) {
        return on_wall(s, wall_column(wind, place));
    }
    on_roof(s, wind, place)
}

// An internal coefficient beyond 1 in size, in hundredths.
pub(crate) fn too_great(internal: i64) -> bool
    ensures { result ≡ question.too_great internal }
{
    beyond(-100, 100, internal)
}

// Hundredths taken off thousandths.
fn less(v: i32, internal: i64) -> i32
    requires { (nat_abs v ≤ 2500) × (nat_abs internal ≤ 100) }
    ensures { result ≡ question.net v internal }
{
    ((v as i64) - internal * 10) as i32
}

fn minus(values: Values, internal: i64) -> Values
    requires { Every (λ z. nat_abs z ≤ 2500) (values_in values) × (nat_abs internal ≤ 100) }
    ensures { result ≡ question.minus values internal }
{
    match values {
        Values::One(v) => Values::One(less(v, internal)),
        Values::Two(v, w) => Values::Two(less(v, internal), less(w, internal)),
    }
}

// The rows and the fraction stay.
pub(crate) fn net_cited(c: Cited, internal: i64) -> Cited
    requires { Every (λ z. nat_abs z ≤ 2500) (values_in c.values) × (nat_abs internal ≤ 100) }
    ensures { result ≡ net_cited c internal }
{
    let values = c.values;
    Cited {
        values: minus(values, internal),
        lower: c.lower,
        upper: c.upper,
        part: c.part,
        whole: c.whole,
    }
}
