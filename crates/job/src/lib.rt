// The job: a year, and a building with its winds, internal coefficients, profile and faces, as a record by value.
#![tactic(auto)]

ghost use Rattle.std.specs.Prelude.{◌≡◌, length};
ghost use Rattle.job.specs.Carried.{carried, no_face};
ghost use Rattle.job.specs.Lines.{entries_of};
ghost use Rattle.job.specs.Setting.{record_with};

use building::Building;
use building::year::has_heights;
use entry::{Face, Step, Wind};
use rules::Section;

mod given;
mod heights;
pub mod judge;

// The room of a record for faces; what a sheet of its year may have is `face_limit` of the year.
pub const MOST_FACES: usize = 240;

// The first entries count, as many as the count says.
#[repr(C)]
#[derive(Clone, Copy)]
pub struct Winds {
    pub count: u32,
    pub entry: [Wind; 8],
}

#[repr(C)]
#[derive(Clone, Copy)]
pub struct Internals {
    pub count: u32,
    pub entry: [i64; 4],
}

#[repr(C)]
#[derive(Clone, Copy)]
pub struct Profile {
    pub count: u32,
    pub entry: [Step; 16],
}

#[repr(C)]
#[derive(Clone, Copy)]
pub struct Faces {
    pub count: u32,
    pub entry: [Face; MOST_FACES],
}

// A sheet of year 1 carries no profile and no heights: whatever they hold here counts for nothing.
#[repr(C)]
#[derive(Clone, Copy)]
pub struct Job {
    pub year: i64,
    pub building: Building,
    pub winds: Winds,
    pub internals: Internals,
    pub profile: Profile,
    pub faces: Faces,
}

// All of a job but its faces.
#[repr(C)]
#[derive(Clone, Copy)]
pub struct Setting {
    pub year: i64,
    pub building: Building,
    pub winds: Winds,
    pub internals: Internals,
    pub profile: Profile,
}

// The job of both parts.
pub fn with_faces(s: Setting, faces: Faces) -> Job
    ensures { result ≡ record_with s faces }
{
    let building = s.building;
    let winds = s.winds;
    let internals = s.internals;
    let profile = s.profile;
    Job {
        year: s.year,
        building,
        winds,
        internals,
        profile,
        faces,
    }
}

// What stands behind the last face of a record that was made here.
pub fn no_face() -> Face
    ensures { result ≡ no_face }
{
    Face {
        zone: 0,
        mark: 0,
        height: 0,
        x: 0,
        y: 0,
        z: 0,
    }
}

// How many entries a section of a job has.
pub fn entry_count(j: Job, s: Section) -> u32
    ensures { result ≡ length (entries_of (carried j) s) }
{
    match s {
        Section::V => 1,
        Section::B => 1,
        Section::W => j.winds.count,
        Section::I => j.internals.count,
        Section::P => {
            if has_heights(j.year) {
                return j.profile.count;
            }
            0
        }
        Section::F => j.faces.count,
    }
}
