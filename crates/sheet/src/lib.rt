// The sheet of a job: its text read, into a record or without one.
#![tactic(auto)]

mod empty;
mod faces; // the faces, as long as they are plain
mod flat;
mod plainly; // a line in form, read in one pass
pub mod read;
mod said; // what a line says, and its fault
