// What a field says, as a number, a letter or a mark; and what a line says, as an entry.
ghost use Rattle.std.specs.Prelude.{◌≡◌};
ghost use Rattle.lines.specs.Held.{held};
ghost use Rattle.entry.specs.Says.{number, size, letter, is_dash, mark, at, building_of, wind_of, internal_of};
ghost use Rattle.entry.specs.Says.{year_of, step_of, face_of, carried_face};

use crate::{BOTH, Face, Step, Wind};
use building::Building;
use field::Field;
use lines::Line;

pub fn number_of(f: Field) -> i64
    ensures { result ≡ number f }
{
    match f {
        Field::Plus(m) => m as i64,
        Field::Minus(m) => -(m as i64),
        _ => 0,
    }
}

// A count, which has no sign.
pub fn size_of(f: Field) -> u32
    ensures { result ≡ size f }
{
    match f {
        Field::Plus(n) | Field::Minus(n) => n,
        _ => 0,
    }
}

pub fn letter_of(f: Field) -> u8
    ensures { result ≡ letter f }
{
    match f {
        Field::Letter(b) => b,
        _ => 0,
    }
}

pub fn is_dash(f: Field) -> bool
    ensures { result ≡ is_dash f }
{
    matches!(f, Field::Dash)
}

pub(crate) fn mark_of(f: Field) -> i64
    ensures { result ≡ mark f }
{
    if is_dash(f) {
        return BOTH;
    }
    number_of(f)
}

// ---- a line

fn number_at(x: Line, i: usize) -> i64
    ensures { result ≡ number (at (held x) i) }
{
    number_of(lines::field_at(x, i))
}

fn letter_at(x: Line, i: usize) -> u8
    ensures { result ≡ letter (at (held x) i) }
{
    letter_of(lines::field_at(x, i))
}

fn mark_at(x: Line, i: usize) -> i64
    ensures { result ≡ mark (at (held x) i) }
{
    mark_of(lines::field_at(x, i))
}

pub fn building_of(x: Line) -> Building
    ensures { result ≡ building_of (held x) }
{
    Building {
        h: number_at(x, 0),
        a: number_at(x, 1),
        b: number_at(x, 2),
        density: number_at(x, 3),
        kind: number_at(x, 4),
        x: number_at(x, 5),
    }
}

pub fn wind_of(x: Line) -> Wind
    ensures { result ≡ wind_of (held x) }
{
    Wind {
        direction: number_at(x, 0),
        speed: number_at(x, 1),
    }
}

pub fn internal_of(x: Line) -> i64
    ensures { result ≡ internal_of (held x) }
{
    number_at(x, 0) // the coefficient
}

pub fn year_of(x: Line) -> i64
    ensures { result ≡ year_of (held x) }
{
    number_at(x, 0)
}

pub fn step_of(x: Line) -> Step
    ensures { result ≡ step_of (held x) }
{
    Step {
        height: number_at(x, 0),
        factor: number_at(x, 1),
    }
}

pub fn face_of(heights: bool, x: Line) -> Face
    ensures { result ≡ face_of heights (held x) }
{
    let areas = if heights { 3 } else { 2 };
    Face {
        zone: letter_at(x, 0),
        mark: mark_at(x, 1),
        height: if heights { number_at(x, 2) } else { 0 },
        x: number_at(x, areas),
        y: number_at(x, areas + 1),
        z: number_at(x, areas + 2),
    }
}

// A face as a sheet carries it, with heights or without.
pub fn carried_face(heights: bool, f: Face) -> Face
    ensures { result ≡ carried_face heights f }
{
    let height = if heights { f.height } else { 0 };
    Face { height, ..f }
}
