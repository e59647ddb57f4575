// A building: what is wrong with its numbers, which zones its roof has, and a question about one place of it, judged.
#![tactic(auto)]

ghost use Rattle.std.specs.Prelude.{◌≡◌};
ghost use Rattle.building.specs.Building.{building_fault, given_fault};
ghost use Rattle.building.specs.Places.{zone_on};
ghost use Rattle.building.specs.Question.{sized_of, placed_of, asked_of};
ghost use Rattle.verdict.specs.Verdict.{refusal};
ghost use Rattle.building.specs.Test.{unless};
ghost use Rattle.building.specs.Year.{is_year, building_line};

use kinds::{flat, sloped};
use tests::among;
use verdict::Verdict;

mod faults;
pub mod kinds;
pub mod limits;
pub mod ratio;
pub mod spots;
mod tests;
pub mod year;

// The numbers of a building's line: cm, g/m³, the roof's kind and number. 64 bits, so that no number of a host
// program is cut.
#[repr(C)]
#[derive(Clone, Copy)]
pub struct Building {
    pub h: i64,
    pub a: i64,
    pub b: i64,
    pub density: i64,
    pub kind: i64,
    pub x: i64,
}

// A building with the year whose sheet it stands in, which it is judged by.
#[derive(Clone, Copy)]
pub struct Dated {
    pub year: i64,
    pub building: Building,
}

// What of a building the tables ask for, without signs. Lengths have 32 bits, and so their products with a limit fit
// 64.
// Along over across is compared with the rows of its roof's table.
#[derive(Clone, Copy)]
pub struct Sizes {
    pub h: u32,
    pub a: u32,
    pub b: u32,
    pub kind: u64,
    pub along: u64,
    pub across: u64,
}

// A field of a line by its number, from 1, and what may stand there where a range says it, 0 and 0 where none does.
// Field 0 is the line as a whole.
#[derive(Clone, Copy)]
pub struct Spot {
    pub field: u32,
    pub least: i64,
    pub greatest: i64,
}

// A question in order is one about these sizes; or its refusal.
pub type Question = Result<Sizes, Verdict>;

// The number that the building's line gets in a sheet of its year: 0 where it is in order.
pub fn building_fault(d: Dated) -> u32
    ensures { result ≡ building_fault d.year d.building }
{
    if faults::out_of_range(d.building) {
        return 3;
    }
    let s = faults::sizes_of(d.building);
    if faults::out_of_walls(d.year, s) {
        return 4;
    }
    if faults::out_of_roof(s) {
        return 5;
    }
    0
}

// The number that the line of a building given as a record would get. One in order has no number that is too long.
pub fn given_fault(d: Dated) -> u32
    ensures { result ≡ given_fault d.year d.building }
{
    let fault = building_fault(d);
    if fault == 0 {
        return 0;
    }
    if faults::out_of_form(d.building) {
        return 1;
    }
    fault
}

// Whether a roof of this kind has the zone.
pub fn zone_on(kind: i64, zone: u8) -> bool
    ensures { result ≡ zone_on kind zone }
{
    among(b'A', b'D', zone)
        || sloped(kind) && among(b'E', b'H', zone)
        || flat(kind) && among(b'E', b'F', zone)
}

// What a question's year gets, and its building: number 0 where that is in order.
fn year_refusal(year: i64) -> Verdict
    ensures { result ≡ refusal (unless 3 (is_year year)) 0 }
{
    if year::is_year(year) {
        return Verdict { number: 0, line: 0 };
    }
    Verdict { number: 3, line: 0 }
}

fn building_refusal(d: Dated) -> Verdict
    ensures { result ≡ refusal (given_fault d.year d.building) (building_line d.year) }
{
    Verdict {
        number: given_fault(d),
        line: year::building_line(d.year),
    }
}

// The year and the building of a question, judged: the building's sizes, or the refusal.
pub fn sized(d: Dated) -> Question
    ensures { result ≡ sized_of d.year d.building }
{
    let by_year = year_refusal(d.year);
    let by_building = building_refusal(d);
    let v = verdict::or_then(by_year, by_building);
    if v.number != 0 {
        return Err(v);
    }
    Ok(faults::sizes_of(d.building))
}

// Then its direction and its place, on a roof of this kind.
fn placed(s: Sizes, kind: i64, direction: i64, place: u8) -> Question
    ensures { result ≡ placed_of s kind direction place }
{
    if !kinds::knows(kind, direction) {
        return Err(Verdict { number: 3, line: 0 });
    }
    if !kinds::place_on(kind, direction, place) {
        return Err(Verdict { number: 6, line: 0 });
    }
    Ok(s)
}

// A question about one zone or local under a wind's direction.
pub fn asked(d: Dated, direction: i64, place: u8) -> Question
    ensures { result ≡ asked_of d.year d.building direction place }
{
    let s = sized(d)?;
    placed(s, d.building.kind, direction, place)
}
