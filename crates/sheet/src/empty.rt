// The setting that is all zero, and its entries.
ghost use Rattle.std.specs.Prelude.{◌≡◌};
ghost use Rattle.job.specs.Carried.{no_building, no_wind, no_step, no_job};
ghost use Rattle.job.specs.Setting.{setting_in};

use building::Building;
use entry::{Step, Wind};
use job::{Internals, Profile, Setting, Winds};

pub(crate) fn no_building() -> Building
    ensures { result ≡ no_building }
{
    Building {
        h: 0,
        a: 0,
        b: 0,
        density: 0,
        kind: 0,
        x: 0,
    }
}

pub(crate) fn no_wind() -> Wind
    ensures { result ≡ no_wind }
{
    Wind {
        direction: 0,
        speed: 0,
    }
}

pub(crate) fn no_step() -> Step
    ensures { result ≡ no_step }
{
    Step {
        height: 0,
        factor: 0,
    }
}

pub(crate) fn no_setting() -> Setting
    ensures { result ≡ setting_in no_job }
{
    let building = no_building();
    let winds = [no_wind(); 8];
    let internals = [0i64; 4];
    let steps = [no_step(); 16];
    Setting {
        year: 0,
        building: building,
        winds: Winds {
            count: 0,
            entry: winds,
        },
        internals: Internals {
            count: 0,
            entry: internals,
        },
        profile: Profile {
            count: 0,
            entry: steps,
        },
    }
}
