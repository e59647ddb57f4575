// The entries of a sheet beside the building, as records; and what the fields of a line say as an entry.
// Numbers have 64 bits, so that no number of a host program is cut.
#![tactic(auto)]

pub mod says;

// A wind: its direction in degrees and its speed in 0.1 m/s.
#[repr(C)]
#[derive(Clone, Copy)]
pub struct Wind {
    pub direction: i64,
    pub speed: i64,
}

// A step of the profile: a height in cm, and the factor of the wind's speed there in thousandths.
#[repr(C)]
#[derive(Clone, Copy)]
pub struct Step {
    pub height: i64,
    pub factor: i64,
}

// A face: its zone's letter, the direction that it is marked for, its height in cm, and its projected areas in dm².
#[repr(C)]
#[derive(Clone, Copy)]
pub struct Face {
    pub zone: u8,
    pub mark: i64,
    pub height: i64,
    pub x: i64,
    pub y: i64,
    pub z: i64,
}

// The mark of a face that stands for every direction: no sheet can carry this number.
pub const BOTH: i64 = 4294967295;
