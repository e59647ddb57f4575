// The outside coefficients. Those of a direction and the zones of the walls, or of the roof, are looked up when a face
// first asks for one of them, and then stand in a table, at the place of the direction and the zone.
ghost use Rattle.std.specs.Prelude.{◌≡◌, ℕ, Some, ◌+◌, ◌<◌, ◌≤◌, set};
ghost use Rattle.building.specs.Places.{A, H};
ghost use Rattle.book.specs.Zones.{four_from};
ghost use Rattle.worst.specs.Table.{outside_at, places, place_of, Placed, ends_kept, Stands, Filled, Begins};
ghost use Rattle.worst.specs.Forces.{acts};

use book::{Ends, Four};
use building::year::LAST_YEAR;
use building::{Building, Dated};
use entry::{BOTH, Face, Wind};

// The first and the last of a zone's outside coefficients, in thousandths: one that it has alone is both.
#[derive(Clone, Copy)]
pub struct Outside {
    pub first: i64,
    pub last: i64,
}

// Those of a building that were asked for, each at its place.
#[derive(Drop)]
pub(crate) struct Table {
    pub building: Building,
    place: [Option<Outside>; 40],
    ghost filled: { Filled building place },
}

// Whether a face takes part under a wind.
pub(crate) fn takes_part(f: Face, w: Wind) -> bool
    ensures { result ≡ acts f w.direction }
{
    if f.mark == BOTH {
        return true;
    }
    f.mark == w.direction
}

// The zones A to H under direction 0, then under 45, and so on to 180.
fn place_of(direction: i64, zone: u8) -> usize
    requires { Placed direction zone }
    ensures { (result ≡ place_of direction zone) × (result < places) }
{
    let turn = (whole::magnitude(direction) / 45) as usize;
    turn * 8 + ((zone - 65) as usize)
}

// Those of the walls' zones, or of the roof's.
fn looked_up(d: Dated, direction: i64, from: u8) -> Four
    requires { Begins from }
    ensures { result ≡ four_from d.year d.building direction from }
{
    if from == b'A' {
        return book::wall_zones(d, direction);
    }
    book::roof_zones(d, direction)
}

// Where the four zones begin, of the walls or of the roof, of which a zone is one.
fn half_of(zone: u8) -> u8
    requires { (A ≤ zone) × (zone ≤ H) }
    ensures { Begins result × (A ≤ result) × (result ≤ zone) × (zone < result + 4) }
{
    if zone <= b'D' {
        return b'A';
    }
    b'E'
}

fn keep(place: &mut [Option<Outside>; 40], k: usize, o: Ends)
    requires { k < places }
    ensures { place.new ≡ set place.old k (Some (ends_kept o)) }
{
    let kept = Outside {
        first: o.first as i64,
        last: o.last as i64,
    };
    place[k] = Some(kept);
}

impl Table {
    // One in which nothing stands yet.
    pub(crate) fn new(building: Building) -> Table
        ensures { result.building ≡ building }
    {
        Table {
            building,
            place: [None; 40],
        }
    }

    // The four zones of the walls or of the roof, which stand in the table from then on. By itself, since it is called
    // seldom and what finds them is called for each face.
    #[cold]
    #[inline(never)]
    fn fill(&mut self, direction: i64, from: u8)
        requires { Begins from × Placed direction from }
        ensures { (self.new.building ≡ self.old.building)
            × ((j : ℕ) → j < 4 → Stands self.old.building self.new.place (place_of direction from + j)) }
    {
        // The year does not change what a building in order has: each is asked for by the last year's reading.
        let d = Dated {
            year: LAST_YEAR,
            building: self.building,
        };
        let four = looked_up(d, direction, from);
        let k = place_of(direction, from);
        keep(&mut self.place, k, four.first);
        keep(&mut self.place, k + 1, four.second);
        keep(&mut self.place, k + 2, four.third);
        keep(&mut self.place, k + 3, four.fourth);
    }

    // The coefficients of a zone under a wind, which stand in the table from then on.
    pub(crate) fn found(&mut self, w: Wind, zone: u8) -> Outside
        requires { Placed w.direction zone }
        ensures { (result ≡ outside_at self.old.building w.direction zone)
            × (self.new.building ≡ self.old.building) }
    {
        let k = place_of(w.direction, zone);
        if let Some(o) = self.place[k] {
            return o;
        }
        self.fill(w.direction, half_of(zone));
        self.place[k].unwrap()
    }
}
