// One face of a job under one of its winds.
ghost use Rattle.std.specs.Prelude.{◌≡◌, true, cond, [], ◌≤◌};
ghost use Rattle.building.specs.Year.{has_heights};
ghost use Rattle.job.specs.Carried.{carried};
ghost use Rattle.job.specs.InOrder.{InOrder};
ghost use Rattle.job.specs.Walk.{verdict, judged};
ghost use Rattle.worst.specs.Speed.{factor_at, speed_at};
ghost use Rattle.worst.specs.Forces.{acts, factor_of, pressure, wind_at, face_at};
ghost use Rattle.worst.specs.Worst.{given};
ghost use Rattle.worst.specs.UnderWind.{under_wind, not_under, under_in};
ghost use Rattle.worst.specs.Factors.{steps_of, profile_of, Height, ProfileSmall, Fraction};
ghost use Rattle.worst.specs.Small.{Dense, Slow};

use crate::UnderWind;
use crate::forces::is_numbered;
use crate::outside::takes_part;
use crate::speeds::{Factor, factor_at, speed_at};
use crate::sums::pressure_of;
use building::year::has_heights;
use entry::{Face, Wind};
use job::{Job, Profile};
use verdict::Verdict;

// The factor at a height, in a year that may have none.
fn factor_of(year: i64, profile: Profile, height: i64) -> Factor
    requires { has_heights year ≡ true → ProfileSmall profile × Height height }
    ensures { result ≡ factor_at (cond (has_heights year) (steps_of profile) []) height }
{
    if !has_heights(year) {
        return Factor { part: 1, whole: 1 };
    }
    factor_at(profile, height)
}

fn of_face(job: Job, w: Wind, f: Face) -> UnderWind
    requires { Dense job.building × Slow w × Fraction (factor_of (profile_of job) f)
        × (has_heights job.year ≡ true → ProfileSmall job.profile × Height f.height) }
    ensures { let v = speed_at (factor_of (profile_of job) f) w.speed in
        result ≡ record { acts = acts f w.direction; speed = v; pressure = pressure job.building.density v } }
{
    let factor = factor_of(job.year, job.profile, f.height);
    let acts = takes_part(f, w);
    let speed = speed_at(factor, w.speed);
    let pressure = pressure_of(job.building, w, factor);
    UnderWind {
        acts,
        speed,
        pressure,
    }
}

// By the numbers of a wind and a face that it has.
fn of_numbers(job: Job, wind: u32, face: u32) -> UnderWind
    requires { InOrder (carried job) × (1 ≤ wind) × (wind ≤ job.winds.count) × (1 ≤ face)
        × (face ≤ job.faces.count) }
    ensures { result ≡ under_wind (given (carried job)) (wind_at (given (carried job)) wind)
        (face_at (given (carried job)) face) }
{
    let winds = job.winds;
    let faces = job.faces;
    let w = (wind - 1) as usize;
    let k = (face - 1) as usize;
    of_face(job, winds.entry[w], faces.entry[k])
}

// Zeros.
fn none() -> UnderWind
    ensures { result ≡ not_under }
{
    UnderWind {
        acts: false,
        speed: 0,
        pressure: 0,
    }
}

pub(crate) fn under_by(job: Job, wind: u32, face: u32, v: Verdict) -> UnderWind
    requires { v ≡ verdict (judged job) }
    ensures { result ≡ under_in wind face (judged job) }
{
    if v.number != 0 {
        return none();
    }
    if !is_numbered(job.winds.count, wind) {
        return none();
    }
    if !is_numbered(job.faces.count, face) {
        return none();
    }
    of_numbers(job, wind, face)
}
