// The forces of the faces under one wind and one internal coefficient: net coefficient × pressure number × projected
// area, at each face's first alternative and at its last.
ghost use Rattle.std.specs.Prelude.{◌≡◌, ◌&&◌, [], ◌≤◌, leb, nat_abs};
ghost use Rattle.book.specs.Answer.{values_in};
ghost use Rattle.job.specs.Carried.{carried};
ghost use Rattle.job.specs.InOrder.{InOrder};
ghost use Rattle.job.specs.Walk.{verdict, judged};
ghost use Rattle.worst.specs.Forces.{wind_at, internal_at};
ghost use Rattle.worst.specs.Worst.{given};
ghost use Rattle.worst.specs.PerFace.{no_force, forces_up_to, cell_forces, forces_in};
ghost use Rattle.worst.specs.AtPressure.{coefficients_of, coefficients_at, force_with, forces_with, forces_by};
ghost use Rattle.worst.specs.Factors.{Fraction};
ghost use Rattle.worst.specs.Lent.{faces_by, job_by, Numbered};
ghost use Rattle.worst.specs.Small.{FaceSmall, Pressure, Met, AllMet};

use crate::faces::{face_in, lay};
use crate::outside::takes_part;
use crate::reckon::setting_of;
use crate::speeds::{Factor, UNCHANGED, fill};
use crate::sums::pressure_of;
use crate::{AxisForces, CellForces, FaceForces};
use book::Values;
use building::Dated;
use entry::{Face, Wind};
use job::{Job, Setting};
use verdict::Verdict;

// How many outside coefficients a zone has, in thousandths the first and the last: one that it has alone is both.
#[derive(Clone, Copy)]
pub struct Coefficients {
    pub count: u32,
    pub first: i64,
    pub last: i64,
}

fn of_pair(count: u32, first: i32, last: i32) -> Coefficients
    ensures { result ≡ record { count = count; first = first; last = last } }
{
    Coefficients {
        count,
        first: first as i64,
        last: last as i64,
    }
}

fn of_values(values: Values) -> Coefficients
    ensures { result ≡ coefficients_of (values_in values) }
{
    match values {
        Values::One(v) => of_pair(1, v, v),
        Values::Two(v, u) => of_pair(2, v, u),
    }
}

// None, where the zone is refused.
fn asked(d: Dated, w: Wind, f: Face) -> Coefficients
    ensures { result ≡ coefficients_at d.year d.building w f }
{
    match book::outside(d, w.direction, f.zone) {
        Ok(c) => of_values(c.values),
        Err(_) => of_pair(0, 0, 0),
    }
}

// At an outside coefficient in thousandths; the internal one is in hundredths.
fn force_at(f: Face, outside: i64, internal: i64, pressure: i64) -> AxisForces
    requires { FaceSmall f × (nat_abs outside ≤ 1200) × (nat_abs internal ≤ 100) × Pressure pressure }
    ensures { result ≡ force_with f outside internal pressure }
{
    let net = outside - internal * 10;
    let pressed = net * pressure;
    AxisForces {
        x: pressed * f.x,
        y: pressed * f.y,
        z: pressed * f.z,
    }
}

fn forces_at(f: Face, o: Coefficients, internal: i64, pressure: i64) -> FaceForces
    requires { FaceSmall f × (nat_abs o.first ≤ 1200) × (nat_abs o.last ≤ 1200) × (nat_abs internal ≤ 100)
        × Pressure pressure }
    ensures { result ≡ forces_with f o internal pressure }
{
    let first = force_at(f, o.first, internal, pressure);
    let last = force_at(f, o.last, internal, pressure);
    FaceForces {
        count: o.count,
        first,
        last,
    }
}

fn no_forces(count: u32) -> FaceForces
    ensures { result ≡ record { count = count; first = no_force; last = no_force } }
{
    let none = AxisForces { x: 0, y: 0, z: 0 };
    FaceForces {
        count,
        first: none,
        last: none,
    }
}

// Under a wind, at the factor of the face's height. One that does not take part has one alternative, and adds nothing.
fn face_forces(d: Dated, w: Wind, factor: Factor, f: Face, internal: i64) -> FaceForces
    requires { Met d.building w f × Fraction factor × (nat_abs internal ≤ 100)
        × (nat_abs (coefficients_at d.year d.building w f).first ≤ 1200)
        × (nat_abs (coefficients_at d.year d.building w f).last ≤ 1200) }
    ensures { result ≡ forces_by d.year d.building w factor internal f }
{
    if takes_part(f, w) {
        let o = asked(d, w, f);
        let p = pressure_of(d.building, w, factor);
        return forces_at(f, o, internal, p);
    }
    no_forces(1)
}

// Zeros.
fn no_cell() -> CellForces
    ensures { result ≡ forces_up_to [] }
{
    let none = no_forces(0);
    let face = [none; 240];
    CellForces { face }
}

// All faces of a job that is in order.
fn cell(s: Setting, count: u32, flat: &[i64], w: Wind, internal: i64) -> CellForces
    requires { Numbered count flat.now × InOrder (carried (job_by s count flat.now))
        × AllMet s.building (faces_by count flat.now) w × (nat_abs internal ≤ 100) }
    ensures { result ≡ cell_forces (given (carried (job_by s count flat.now))) w internal }
{
    let mut factors = [UNCHANGED; 240];
    fill(s, count, flat, &mut factors);
    let b = s.building;
    let d = Dated {
        year: s.year,
        building: b,
    };
    let mut all = no_cell();
    for i in 0..count as usize {
        let f = face_in(flat, i);
        all.face[i] = face_forces(d, w, factors[i], f, internal);
    }
    all
}

// Under the wind and the internal coefficient of these numbers, which it has.
fn cell_at(job: Job, wind: u32, internal: u32) -> CellForces
    requires { InOrder (carried job) × (1 ≤ wind) × (wind ≤ job.winds.count) × (1 ≤ internal)
        × (internal ≤ job.internals.count) }
    ensures { result ≡ cell_forces (given (carried job)) (wind_at (given (carried job)) wind)
        (internal_at (given (carried job)) internal) }
{
    let winds = job.winds;
    let internals = job.internals;
    let w = (wind - 1) as usize;
    let i = (internal - 1) as usize;
    let mut flat = [0i64; 1440];
    lay(job.faces, &mut flat);
    cell(
        setting_of(job),
        job.faces.count,
        &flat,
        winds.entry[w],
        internals.entry[i],
    )
}

// Whether there is one of that number, from 1.
pub(crate) fn is_numbered(count: u32, number: u32) -> bool
    ensures { result ≡ (leb 1 number && leb number count) }
{
    1 <= number && number <= count
}

pub(crate) fn forces_by(job: Job, wind: u32, internal: u32, v: Verdict) -> CellForces
    requires { v ≡ verdict (judged job) }
    ensures { result ≡ forces_in wind internal (judged job) }
{
    if v.number != 0 {
        return no_cell();
    }
    if !is_numbered(job.winds.count, wind) {
        return no_cell();
    }
    if !is_numbered(job.internals.count, internal) {
        return no_cell();
    }
    cell_at(job, wind, internal)
}
