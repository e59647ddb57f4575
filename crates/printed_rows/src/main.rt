// Asks about every printed row of every table: at its ends, and one step to either side of each limit. tools/rows.py
// works out from the book what must come out.
#![tactic(auto)]

use book::{Answer, Values};
use building::{Building, Dated};
use std::io;

// At b 1000: the limits of h/b and of a/b, and the places on the walls.
const HEIGHTS: [i64; 10] = [100, 499, 500, 501, 1499, 1500, 1501, 5999, 6000, 6001];

const SIDES: [i64; 9] = [999, 1000, 1001, 1499, 1500, 1501, 3999, 4000, 4001];

const YEARS: [i64; 6] = [0, 1, 2, 3, 4, 5];

const WALL_WINDS: [i64; 10] = [0, 0, 0, 0, 90, 90, 90, 90, 0, 45];

const WALL_PLACES: [u8; 10] = [65, 66, 67, 68, 65, 66, 67, 68, 119, 65];

// Gables at a 1200 and b 1000: the blocks of h/b, and the slopes in tenths of a degree.
const BLOCKS: [i64; 5] = [500, 501, 1500, 1501, 6000];

const SLOPES: [i64; 26] = [
    0, 1, 49, 50, 51, 99, 100, 101, 199, 200, 201, 299, 300, 301, 399, 400, 401, 449, 450, 451,
    499, 500, 501, 599, 600, 601,
];

const GABLE_WINDS: [i64; 8] = [0, 0, 0, 0, 90, 90, 90, 90];

const GABLE_PLACES: [u8; 8] = [69, 70, 71, 72, 69, 70, 71, 72];

// Flat roofs at h 4000, a 4800 and b 4000: kinds and numbers x.
const KINDS: [i64; 32] = [
    2, 2, 3, 3, 3, 3, 3, 3, 3, 3, 3, 4, 4, 4, 4, 4, 4, 4, 4, 4, 5, 5, 5, 5, 5, 5, 5, 5, 5, 5, 5, 5,
];

const NUMBERS: [i64; 32] = [
    0, 1, 99, 100, 101, 199, 200, 201, 399, 400, 401, 199, 200, 201, 399, 400, 401, 799, 800, 801,
    299, 300, 301, 449, 450, 451, 599, 600, 601, 899, 900, 901,
];

const FLAT_WINDS: [i64; 10] = [0, 0, 0, 0, 90, 90, 90, 90, 0, 90];

const FLAT_PLACES: [u8; 10] = [69, 70, 49, 50, 69, 70, 49, 50, 71, 72];

// Single slopes at h 500, a 1200 and b 1000: slopes in tenths of a degree, winds and places.
const INCLINES: [i64; 18] = [
    49, 50, 51, 99, 100, 101, 149, 150, 151, 199, 200, 201, 249, 250, 251, 299, 300, 301,
];

const SINGLE_WINDS: [i64; 6] = [0, 45, 90, 135, 180, 30];

const SINGLE_PLACES: [u8; 7] = [69, 70, 71, 72, 65, 119, 49];

fn put_answer(rt: &impl Print, answer: Answer) -> io::Result<()> {
    match answer {
        Ok(c) => match c.values {
            Values::One(v) => print!(rt; "{v} "),
            Values::Two(v, w) => print!(rt; "{v} {w} "),
        },
        Err(v) => print!(rt; "refused {} {} ", v.number, v.line),
    }
}

// Between which rows it lies, and the fraction of the way.
fn put_rows(rt: &impl Print, answer: Answer) -> io::Result<()> {
    match answer {
        Ok(c) => print!(rt; "rows {} {} {} {} ", c.lower, c.upper, c.part, c.whole),
        Err(_) => Ok(()),
    }
}

fn show_in(rt: &impl Print, year: i64, g: Building, direction: i64, place: u8) -> io::Result<()> {
    print!(rt; "{} {} {} {} {} {direction} ", g.h, g.a, g.b, g.kind, g.x)?;
    rt.write_all(&[place, b' '])?;
    let d = Dated { year, building: g };
    put_answer(rt, book::outside(d, direction, place))?;
    print!(rt; "net ")?;
    let net = book::net(d, direction, place, -30);
    put_answer(rt, net)?;
    put_rows(rt, net)?;
    print!(rt; "\n")
}

fn show(rt: &impl Print, g: Building, direction: i64, place: u8) -> io::Result<()> {
    show_in(rt, 1, g, direction, place)
}

fn wall(rt: &impl Print, n: usize) -> io::Result<()> {
    let g = Building {
        h: HEIGHTS[n / 90 % 10],
        a: SIDES[n / 10 % 9],
        b: 1000,
        density: 1250,
        kind: 0,
        x: 0,
    };
    show(rt, g, WALL_WINDS[n % 10], WALL_PLACES[n % 10])
}

fn gable(rt: &impl Print, n: usize) -> io::Result<()> {
    let g = Building {
        h: BLOCKS[n / 208 % 5],
        a: 1200,
        b: 1000,
        density: 1250,
        kind: 1,
        x: SLOPES[n / 8 % 26],
    };
    show(rt, g, GABLE_WINDS[n % 8], GABLE_PLACES[n % 8])
}

fn flat(rt: &impl Print, n: usize) -> io::Result<()> {
    let g = Building {
        h: 4000,
        a: 4800,
        b: 4000,
        density: 1250,
        kind: KINDS[n / 10 % 32],
        x: NUMBERS[n / 10 % 32],
    };
    show(rt, g, FLAT_WINDS[n % 10], FLAT_PLACES[n % 10])
}

fn single(rt: &impl Print, n: usize) -> io::Result<()> {
    let g = Building {
        h: 500,
        a: 1200,
        b: 1000,
        density: 1250,
        kind: 6,
        x: INCLINES[n / 42 % 18],
    };
    show(rt, g, SINGLE_WINDS[n / 7 % 6], SINGLE_PLACES[n % 7])
}

// Square plans and one step to either side, in each year and in one before and after them.
fn square(rt: &impl Print, n: usize) -> io::Result<()> {
    let g = Building {
        h: HEIGHTS[n / 30 % 10],
        a: SIDES[n / 10 % 3],
        b: 1000,
        density: 1250,
        kind: 0,
        x: 0,
    };
    let year = YEARS[n / 300 % 6];
    print!(rt; "year {year} ")?;
    show_in(rt, year, g, WALL_WINDS[n % 10], WALL_PLACES[n % 10])
}

// 900 questions on walls, 1040 on gables, 320 on flat roofs, 756 on single slopes, 1800 on square plans by the year.
fn ask(rt: &impl Print, n: usize) -> io::Result<()> {
    if n < 900 {
        return wall(rt, n);
    }
    if n < 1940 {
        return gable(rt, n - 900);
    }
    if n < 2260 {
        return flat(rt, n - 1940);
    }
    if n < 3016 {
        return single(rt, n - 2260);
    }
    square(rt, n - 3016)
}

fn main(rt: HostRuntime) -> io::Result<()> {
    for n in 0..4816 {
        ask(&rt, n)?;
    }
    Ok(())
}
