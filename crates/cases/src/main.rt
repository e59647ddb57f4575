// Runs the worked cases that are not theorems, and prints each with what came out; tools/cases.py says how they were
// worked out.
#![tactic(auto)]

mod ask;
mod print;
mod records;
mod sheets;

use std::io;

fn main(rt: HostRuntime) -> io::Result<()> {
    sheets::run(&mut rt.stdin(), &rt)?;
    ask::questions(&rt)?;
    records::told(&rt)?;
    records::stored_totals(&rt)
}
