// The worst cases of a job: on each axis the greatest and the least total over every permitted case, with the first
// case that reaches it.
#![tactic(auto)]

ghost use Rattle.std.specs.Prelude.{◌≡◌};
ghost use Rattle.job.specs.Walk.{judged};
ghost use Rattle.sheet.specs.Sheet.{reading};
ghost use Rattle.worst.specs.Worst.{reckoned, worst_of};
ghost use Rattle.worst.specs.Stored.{stored_in, reckoned_by};
ghost use Rattle.worst.specs.PerFace.{forces_in};
ghost use Rattle.worst.specs.UnderWind.{under_in};

use job::Job;
use pair::Pair;
use verdict::Verdict;

mod faces; // the faces as numbers
mod amounts; // a sum that no number of 64 bits holds
mod speeds; // the speed of a wind at a face
mod outside; // the outside coefficients, each looked up once
mod few; // up to 24 faces under a wind, added up
mod sums; // and all of them
mod tops; // the best cell so far
mod inside; // the least and the greatest internal coefficient
mod few_tops; // the best cells of up to 24 faces
mod cells; // the sums of every internal coefficient under a wind
mod furthest; // the furthest of all cells
pub mod within; // whether a job can have such sums
mod winds; // the winds of the cases that were found
mod chosen; // the cases that were found, with their alternatives
mod engine; // the sums of all cells, and the six extremes that they tell
mod read; // a sheet, read and reckoned
mod reckon; // a refusal, or the six extremes
mod forces; // the force of each face, for whoever adds up cases one by one
mod under; // one face under one wind

#[derive(Clone, Copy)]
pub enum Side {
    Greatest,
    Least,
}

#[derive(Clone, Copy)]
pub enum Axis {
    X,
    Y,
    Z,
}

// A total with the first case that reaches it: the numbers of its wind and its internal coefficient, from 1, and
// each face's alternative, with zeros past the last face.
#[derive(Clone, Copy)]
pub struct Extreme {
    pub total: Pair,
    pub wind: u32,
    pub internal: u32,
    pub faces: u32,
    pub alternative: [u8; 240],
}

// The two extremes of one axis.
#[derive(Clone, Copy)]
pub struct Extremes {
    pub greatest: Extreme,
    pub least: Extreme,
}

// The six extremes of a job.
#[derive(Clone, Copy)]
pub struct Six {
    pub x: Extremes,
    pub y: Extremes,
    pub z: Extremes,
}

// The greatest and the least sum over the faces, on one axis.
#[repr(C)]
#[derive(Clone, Copy)]
pub struct Span {
    pub greatest: Pair,
    pub least: Pair,
}

// Of one wind and one internal coefficient.
#[repr(C)]
#[derive(Clone, Copy)]
pub struct StoredCell {
    pub x: Span,
    pub y: Span,
    pub z: Span,
}

// Of all of them: that of a wind and an internal coefficient, both from 0, stands at 4 * wind + internal.
#[repr(C)]
#[derive(Clone, Copy)]
pub struct Stored {
    pub cell: [StoredCell; 32],
}

// The year of a job that is accepted, and its six extremes.
#[derive(Clone, Copy)]
pub struct Reckoning {
    pub year: i64,
    pub six: Six,
}

// The force of a face on each axis.
#[derive(Clone, Copy)]
pub struct AxisForces {
    pub x: i64,
    pub y: i64,
    pub z: i64,
}

// Of one face: how many alternatives it has, and its forces at the first and at the last.
#[derive(Clone, Copy)]
pub struct FaceForces {
    pub count: u32,
    pub first: AxisForces,
    pub last: AxisForces,
}

// Of all faces in order, under one wind and one internal coefficient, with zeros past the last.
#[derive(Clone, Copy)]
pub struct CellForces {
    pub face: [FaceForces; 240],
}

// One face under one wind: whether it takes part, the speed there in tenths of m/s, and its pressure number.
#[derive(Clone, Copy)]
pub struct UnderWind {
    pub acts: bool,
    pub speed: i64,
    pub pressure: i64,
}

// A sheet's refusal, or its six extremes. No record is made of it.
pub fn worst_in(s: &[u8]) -> Result<Reckoning, Verdict>
    ensures { result ≡ reckoned (reading s.now) }
{
    if s.len() > read::LONGEST_SHORT {
        return read::read_long(s);
    }
    read::read_six(s)
}

// A job's own refusal, or its six extremes.
pub fn worst_cases(job: Job) -> Result<Reckoning, Verdict>
    ensures { result ≡ worst_of job }
{
    let v = job::judge::judge(job);
    reckon::reckon_by(job, v)
}

// The sums of a job, reckoned from its faces: zeros where it is refused.
pub fn sums_of(job: Job) -> Stored
    ensures { result ≡ stored_in (judged job) }
{
    let v = job::judge::judge(job);
    reckon::sums_by(job, v)
}

// A job's own refusal, or the six extremes that stored sums tell: its own sums, where no job of its year has those.
pub fn worst_stored(job: Job, stored: Stored) -> Result<Reckoning, Verdict>
    ensures { result ≡ reckoned_by stored (judged job) }
{
    let v = job::judge::judge(job);
    reckon::stored_by(job, stored, v)
}

// The forces of a job's faces under the wind and the internal coefficient of these numbers, from 1: zeros where there
// is no such wind or coefficient, or where the job is refused.
pub fn forces_of(job: Job, wind: u32, internal: u32) -> CellForces
    ensures { result ≡ forces_in wind internal (judged job) }
{
    let v = job::judge::judge(job);
    forces::forces_by(job, wind, internal, v)
}

// A job's face under the wind of these numbers, from 1: zeros where there is no such face or wind, or where the job is
// refused.
pub fn under_wind(job: Job, wind: u32, face: u32) -> UnderWind
    ensures { result ≡ under_in wind face (judged job) }
{
    let v = job::judge::judge(job);
    under::under_by(job, wind, face, v)
}
