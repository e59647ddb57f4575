// Records at the corners of paper 01 and what each is told; and reports by stored sums.
use crate::ask::building;
use crate::print::{print_refusal, print_text};
use entry::{Face, Step, Wind};
use job::{Faces, Internals, Job, MOST_FACES, Profile, Winds};
use pair::Pair;
use std::io;
use worst::{Span, Stored, StoredCell};

// A job of one wind, one internal coefficient and one face, of this year, with these counts, this zone and this mark.
// Each step of its profile is at height 0.
fn dated(year: i64, steps: u32, winds: u32, faces: u32, zone: u8, mark: i64) -> Job {
    let wind = Wind {
        direction: 0,
        speed: 400,
    };
    let face = Face {
        zone,
        mark,
        height: 0,
        x: 1000,
        y: 0,
        z: 0,
    };
    let w = Winds {
        count: winds,
        entry: [wind; 8],
    };
    let i = Internals {
        count: 1,
        entry: [20; 4],
    };
    let step = Step {
        height: 0,
        factor: 1000,
    };
    let p = Profile {
        count: steps,
        entry: [step; 16],
    };
    let f = Faces {
        count: faces,
        entry: [face; MOST_FACES],
    };
    Job {
        year,
        building: building(2000, 0, 0),
        winds: w,
        internals: i,
        profile: p,
        faces: f,
    }
}

fn record(winds: u32, faces: u32, zone: u8, mark: i64) -> Job {
    dated(1, 0, winds, faces, zone, mark)
}

fn of_year(year: i64, steps: u32) -> Job {
    dated(year, steps, 1, 1, b'A', 0)
}

fn of_faces(year: i64, faces: u32) -> Job {
    dated(year, 1, 1, faces, b'A', 0)
}

fn print_verdict(rt: &impl Print, title: &str, j: Job) -> io::Result<()> {
    let v = job::judge::judge(j);
    print!(rt; "{title}")?;
    print_refusal(rt, v)?;
    print!(rt; "\n")
}

fn common_records(rt: &impl Print) -> io::Result<()> {
    print_verdict(rt, "a record in order:", record(1, 1, b'A', 0))?;
    print_verdict(
        rt,
        "a record marked for both:",
        record(8, 24, b'A', entry::BOTH),
    )?;
    print_verdict(rt, "point 8: nine winds:", record(9, 1, b'A', 0))?;
    print_verdict(
        rt,
        "point 8: 4000000000 faces:",
        record(1, 4000000000, b'A', 0),
    )?;
    print_verdict(
        rt,
        "point 9: a zeroed entry inside the count:",
        record(1, 1, 0, 0),
    )?;
    print_verdict(rt, "point 9: mark 45:", record(1, 1, b'A', 45))?;
    print_verdict(
        rt,
        "point 9: mark 10000000, which no sheet carries:",
        record(1, 1, b'A', 10000000),
    )
}

fn dated_records(rt: &impl Print) -> io::Result<()> {
    print_verdict(rt, "point 19: year 0:", of_year(0, 1))?;
    print_verdict(rt, "point 30: year 1 with 17 steps:", of_year(1, 17))?;
    print_verdict(rt, "year 2 with one step:", of_year(2, 1))?;
    print_verdict(rt, "year 2 with none:", of_year(2, 0))?;
    print_verdict(rt, "year 2 with 17:", of_year(2, 17))?;
    print_verdict(rt, "year 2 with two at one height:", of_year(2, 2))?;
    print_verdict(rt, "year 3:", of_year(3, 1))?;
    print_verdict(rt, "year 3 with none:", of_year(3, 0))?;
    print_verdict(rt, "year 4:", of_year(4, 1))?;
    print_verdict(rt, "year 4 with none:", of_year(4, 0))?;
    print_verdict(rt, "year 5:", of_year(5, 1))?;
    print_verdict(rt, "year 10000000, of 8 digits:", of_year(10000000, 1))
}

fn long_records(rt: &impl Print) -> io::Result<()> {
    print_verdict(rt, "year 1, 25 faces:", of_faces(1, 25))?;
    print_verdict(rt, "year 3, 25 faces:", of_faces(3, 25))?;
    print_verdict(rt, "year 4, 25 faces:", of_faces(4, 25))?;
    print_verdict(rt, "year 4, 240 faces:", of_faces(4, 240))?;
    print_verdict(rt, "year 4, 241 faces:", of_faces(4, 241))
}

pub(crate) fn told(rt: &impl Print) -> io::Result<()> {
    common_records(rt)?;
    dated_records(rt)?;
    long_records(rt)
}

// The same total on each axis and each side.
fn stored(total: Pair) -> Stored {
    let both = Span {
        greatest: total,
        least: total,
    };
    let cell = StoredCell {
        x: both,
        y: both,
        z: both,
    };
    Stored { cell: [cell; 32] }
}

// The report of a job of this year with one face, by stored sums of so many units.
fn print_stored(rt: &impl Print, title: &str, year: i64, units: i64) -> io::Result<()> {
    let mut output = [0u8; 3084];
    let written = report::write_stored(
        of_year(year, 1),
        stored(pair::of_units(units)),
        &mut output,
    );
    println!(rt; "{title}")?;
    print_text(rt, &output, written)
}

pub(crate) fn stored_totals(rt: &impl Print) -> io::Result<()> {
    print_stored(rt, "year 4, one unit below nothing:", 4, -1)?;
    print_stored(rt, "year 4, one unit:", 4, 1)?;
    print_stored(rt, "year 4, one unit below 1 N:", 4, 19_999_999_999)?;
    print_stored(rt, "year 4, -1 N:", 4, -20_000_000_000)?;
    print_stored(rt, "year 3, one unit below nothing:", 3, -1)
}
