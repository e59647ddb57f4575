// Questions at the corners of paper 01, each with its answer.
use crate::print::print_refusal;
use book::{Answer, Cited, Values};
use building::{Building, Dated};
use std::io;

fn print_values(rt: &impl Print, values: Values) -> io::Result<()> {
    match values {
        Values::One(v) => print!(rt; " {v}"),
        Values::Two(v, w) => print!(rt; " {v} {w}"),
    }
}

// The two rows, and the fraction of the way from one to the other.
fn print_rows(rt: &impl Print, c: Cited) -> io::Result<()> {
    print!(rt; " rows {} {} {} {}", c.lower, c.upper, c.part, c.whole)
}

fn print_answer(rt: &impl Print, title: &str, a: Answer) -> io::Result<()> {
    print!(rt; "{title}")?;
    match a {
        Ok(c) => {
            print_values(rt, c.values)?;
            print_rows(rt, c)?;
        }
        Err(v) => print_refusal(rt, v)?,
    }
    print!(rt; "\n")
}

pub(crate) fn building(h: i64, kind: i64, x: i64) -> Building {
    Building {
        h,
        a: 4800,
        b: 4000,
        density: 1250,
        kind,
        x,
    }
}

fn in_year_1(g: Building) -> Dated {
    Dated {
        year: 1,
        building: g,
    }
}

fn outside_questions(rt: &impl Print) -> io::Result<()> {
    print_answer(
        rt,
        "point 18: curved, zone E, exactly -0.3995:",
        book::outside(in_year_1(building(4000, 4, 201)), 0, b'E'),
    )?;
    print_answer(
        rt,
        "flat, zone F:",
        book::outside(in_year_1(building(4000, 2, 0)), 90, b'F'),
    )?;
    print_answer(
        rt,
        "point 6: zone I:",
        book::outside(in_year_1(building(4000, 2, 0)), 0, b'I'),
    )?;
    print_answer(
        rt,
        "zone G on a flat roof:",
        book::outside(in_year_1(building(4000, 2, 0)), 0, b'G'),
    )?;
    print_answer(
        rt,
        "L1 on a gable:",
        book::outside(in_year_1(building(4000, 1, 0)), 0, b'1'),
    )?;
    print_answer(
        rt,
        "point 7: h 10000000:",
        book::outside(in_year_1(building(10000000, 2, 0)), 0, b'E'),
    )?;
    print_answer(
        rt,
        "point 7: h -9999999:",
        book::outside(in_year_1(building(-9999999, 2, 0)), 0, b'E'),
    )?;
    print_answer(
        rt,
        "point 7: direction 1000000000000, for a local too:",
        book::outside(in_year_1(building(4000, 2, 0)), 1000000000000, b'w'),
    )
}

fn slope_questions(rt: &impl Print) -> io::Result<()> {
    print_answer(
        rt,
        "a single slope of 12.5 degrees, zone E under 135:",
        book::outside(in_year_1(building(4000, 6, 125)), 135, b'E'),
    )?;
    print_answer(
        rt,
        "a wall of it under 45:",
        book::outside(in_year_1(building(4000, 6, 100)), 45, b'A'),
    )?;
    print_answer(
        rt,
        "a gable under 45:",
        book::outside(in_year_1(building(4000, 1, 0)), 45, b'E'),
    )
}

// A square plan or one beside it, of this year, whose longer side is a.
fn square(year: i64, a: i64) -> Dated {
    let building = Building {
        h: 500,
        a,
        b: 1000,
        density: 1250,
        kind: 0,
        x: 0,
    };
    Dated { year, building }
}

fn square_questions(rt: &impl Print) -> io::Result<()> {
    print_answer(
        rt,
        "year 1, a square plan:",
        book::outside(square(1, 1000), 0, b'B'),
    )?;
    print_answer(
        rt,
        "year 2, a square plan:",
        book::outside(square(2, 1000), 0, b'B'),
    )?;
    print_answer(
        rt,
        "year 3, a square plan, zone B:",
        book::outside(square(3, 1000), 0, b'B'),
    )?;
    print_answer(
        rt,
        "year 3, a below b:",
        book::outside(square(3, 999), 0, b'B'),
    )?;
    print_answer(
        rt,
        "year 4, a square plan, zone B:",
        book::outside(square(4, 1000), 0, b'B'),
    )?;
    print_answer(
        rt,
        "year 5, before a square plan:",
        book::outside(square(5, 1000), 0, b'B'),
    )
}

fn net_questions(rt: &impl Print) -> io::Result<()> {
    let g = Building {
        h: 1600,
        a: 1200,
        b: 1000,
        density: 1250,
        kind: 4,
        x: 82,
    };
    print_answer(
        rt,
        "point 11: rounded first, then the internal coefficient comes off:",
        book::net(in_year_1(g), 0, b'E', -100),
    )?;
    print_answer(
        rt,
        "point 12: the net of the wall local:",
        book::net(in_year_1(g), 0, b'w', 20),
    )?;
    print_answer(
        rt,
        "point 7: internal 101:",
        book::net(in_year_1(g), 0, b'E', 101),
    )?;
    print_answer(
        rt,
        "6 before 3: zone H with internal 101:",
        book::net(in_year_1(g), 0, b'H', 101),
    )
}

pub(crate) fn questions(rt: &impl Print) -> io::Result<()> {
    outside_questions(rt)?;
    slope_questions(rt)?;
    square_questions(rt)?;
    net_questions(rt)
}
