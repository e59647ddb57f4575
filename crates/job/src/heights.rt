// The heights of a profile, as the lines behind it are judged by them.
ghost use Rattle.std.specs.Prelude.{◌≡◌};
ghost use Rattle.whole.specs.Lists.{first_of};
ghost use Rattle.job.specs.Carried.{no_step, lowest_of, highest_of, before, carried};

use crate::{Job, Profile, entry_count};
use rules::{Before, Section};

// Of the first n steps: 0 where there is none.
fn lowest_of(p: Profile, n: u32) -> i64
    ensures { result ≡ lowest_of (first_of no_step n p.entry) }
{
    if n == 0 {
        return 0;
    }
    let s = p.entry[0];
    s.height
}

// -1 where there is none, and 0 past the room.
pub(crate) fn highest_of(p: Profile, n: u32) -> i64
    ensures { result ≡ highest_of (first_of no_step n p.entry) }
{
    if n == 0 {
        return -1;
    }
    if n > 16 {
        return 0;
    }
    let s = p.entry[(n - 1) as usize];
    s.height
}

// What the lines behind the profile of a job are judged by.
pub(crate) fn before_faces(j: Job) -> Before
    ensures { result ≡ before (carried j) }
{
    let n = entry_count(j, Section::P);
    let building = j.building;
    let profile = j.profile;
    Before {
        year: j.year,
        building,
        lowest: lowest_of(profile, n),
        highest: highest_of(profile, n),
    }
}
