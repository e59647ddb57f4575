// The speed of a wind at a face: the wind's speed × the factor that the profile has at the face's height.
ghost use Rattle.std.specs.Prelude.{◌≡◌, ◌+◌, ◌*◌, ◌/◌, ◌<◌, ◌≤◌, pos, nat_abs, ◌≤ℤ◌};
ghost use Rattle.worst.specs.Speed.{factor_between, factor_at, speed_at};
ghost use Rattle.worst.specs.Factors.{steps_of, profile_of, Height, StepSmall, ProfileSmall, Profiled};
ghost use Rattle.worst.specs.Factors.{Fraction, AllOne, FactorsStand};
ghost use Rattle.worst.specs.Lent.{faces_by, job_by, Lent};

use crate::faces::face_in;
use building::year::has_heights;
use entry::Step;
use job::{Profile, Setting};

// The fraction part / whole.
#[derive(Clone, Copy)]
pub struct Factor {
    pub part: i64,
    pub whole: i64,
}

// The one that leaves a speed as it is.
pub(crate) const UNCHANGED: Factor = Factor { part: 1, whole: 1 };

// On the straight line from one step of the profile to the next.
fn factor_between(s: Step, t: Step, height: i64) -> Factor
    requires { StepSmall s × StepSmall t × Height height }
    ensures { result ≡ factor_between s t height }
{
    Factor {
        part: s.factor * (t.height - height) + t.factor * (height - s.height),
        whole: 1000 * (t.height - s.height),
    }
}

// The factor at a height: a walk up the profile.
pub(crate) fn factor_at(profile: Profile, height: i64) -> Factor
    requires { ProfileSmall profile × Height height }
    ensures { result ≡ factor_at (steps_of profile) height }
{
    let count = profile.count as usize;
    if count == 0 {
        return UNCHANGED;
    }
    let mut lower = profile.entry[0];
    for i in 1..count {
        let upper = profile.entry[i];
        if height <= upper.height {
            return factor_between(lower, upper, height);
        }
        lower = upper;
    }
    Factor {
        part: lower.factor,
        whole: 1000,
    }
}

// The factors of a job's faces, into a list that holds 1 / 1 throughout: so it stays in a year without heights.
pub(crate) fn fill(s: Setting, faces: u32, flat: &[i64], factors: &mut [Factor])
    requires { Lent faces flat.now factors.old × AllOne factors.old
        × Profiled (job_by s faces flat.now) }
    ensures { FactorsStand (profile_of (job_by s faces flat.now)) (faces_by faces flat.now)
        factors.new }
{
    if !has_heights(s.year) {
        return;
    }
    let profile = s.profile;
    for i in 0..faces as usize {
        let f = face_in(flat, i);
        factors[i] = factor_at(profile, f.height);
    }
}

// speed × part / whole to the nearest whole number, a half going up.
fn rounded(speed: u64, part: u64, whole: u64) -> u64
    requires { (speed * part < 10000000000000) × (0 < whole) × (whole < 100000000) }
    ensures { result ≡ (2 * (speed * part) + whole) / (2 * whole) }
{
    (2 * (speed * part) + whole) / (2 * whole)
}

// A wind's speed at a factor, which leaves it as it is where it is 1.
pub(crate) fn speed_at(factor: Factor, speed: i64) -> i64
    requires { Fraction factor × (pos 0 ≤ℤ speed) × (nat_abs speed ≤ 1000) }
    ensures { result ≡ speed_at factor speed }
{
    if factor.part == factor.whole {
        return speed;
    }
    rounded(speed as u64, factor.part as u64, factor.whole as u64) as i64
}
