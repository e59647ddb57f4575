// What a roof of a kind has: its zones and locals, and the directions that it knows.
ghost use Rattle.std.specs.Prelude.{◌≡◌, ◌||◌};
ghost use Rattle.building.specs.Places as places;
ghost use Rattle.building.specs.Places.{local_on, wall_directions, slope_directions, wall_place, place_on};
ghost use Rattle.building.specs.Test.{one_of};

use super::limits::beyond;
use super::zone_on;

fn gable(kind: i64) -> bool
    ensures { result ≡ places.gable kind }
{
    kind == 1
}

pub fn single(kind: i64) -> bool
    ensures { result ≡ places.single kind }
{
    kind == 6
}

pub(crate) fn sloped(kind: i64) -> bool
    ensures { result ≡ (places.gable kind || places.single kind) }
{
    gable(kind) || single(kind)
}

pub(crate) fn flat(kind: i64) -> bool
    ensures { result ≡ places.flat kind }
{
    !beyond(2, 5, kind)
}

// A direction that the walls' table has.
pub fn on_walls(direction: i64) -> bool
    ensures { result ≡ one_of wall_directions direction }
{
    direction == 0 || direction == 90
}

// A direction that the table of single slopes has beside those.
fn on_slopes(direction: i64) -> bool
    ensures { result ≡ one_of slope_directions direction }
{
    direction == 45 || direction == 135 || direction == 180
}

// Whether a roof of this kind knows the direction.
pub fn knows(kind: i64, direction: i64) -> bool
    ensures { result ≡ places.knows kind direction }
{
    on_walls(direction) || single(kind) && on_slopes(direction)
}

pub(crate) fn local_on(kind: i64, place: u8) -> bool
    ensures { result ≡ local_on kind place }
{
    place == b'w' || flat(kind) && (place == b'1' || place == b'2')
}

// On a wall: A to D, and the wall's local.
pub fn wall_place(place: u8) -> bool
    ensures { result ≡ wall_place place }
{
    b'A' <= place && place <= b'D' || place == b'w'
}

// Whether a roof of this kind has the zone or local. One on a wall is asked for only under a direction that the walls'
// table has.
pub(crate) fn place_on(kind: i64, direction: i64, place: u8) -> bool
    ensures { result ≡ place_on kind direction place }
{
    (zone_on(kind, place) || local_on(kind, place)) && (!wall_place(place) || on_walls(direction))
}
