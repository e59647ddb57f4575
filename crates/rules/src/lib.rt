// The form of a line, the faults of an entry, and the lowest fault of a line.
#![tactic(auto)]

use building::Building;

pub mod entries;
pub mod faults;
pub mod form_of;
pub mod shape;
pub mod spots;

// A section of the sheet, by its letter.
#[derive(Clone, Copy)]
pub enum Section {
    V,
    B,
    W,
    I,
    P,
    F,
}

// A line that is called for: the count of a section, or an entry of it.
#[derive(Clone, Copy)]
pub enum Kind {
    Count(Section),
    Entry(Section),
}

// What the lines before one say that it is judged by: the year, the building, and the lowest and the highest height of
// the profile, 0 and -1 where it has none yet.
#[derive(Clone, Copy)]
pub struct Before {
    pub year: i64,
    pub building: Building,
    pub lowest: i64,
    pub highest: i64,
}

// What one field of a line must be.
#[derive(Clone, Copy)]
pub enum FieldForm {
    // a letter
    Capital,
    // a number
    Count,
    // a number of at most 7 digits
    Number,
    // such a number, or a dash for every direction
    Mark,
}
