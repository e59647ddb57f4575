// A wind rose: observations counted by sector and Beaufort number. Their file comes in parts, which are taken one
// after the other from a new rose on, and then its end.
#![tactic(auto)]

ghost use Rattle.std.specs.Prelude.{◌≡◌};
ghost use Rattle.rose.specs.Rose.{no_lines, refused_at};
ghost use Rattle.rose.specs.Taken.{part_taken, end_taken};

use verdict::Verdict;

mod number; // a number that is not ended
mod cell; // the cell of a direction and a speed
mod line; // a line that is not ended
mod judge; // what becomes of a line that is

// Why a number or a line says no number.
#[derive(Clone, Copy, PartialEq, Eq)]
pub enum Misread {
    OutOfForm,
    OutOfRange,
}

// What there is of a number that is not ended: its kind, and what its digits stand for (specs/Pending.antt).
#[repr(C)]
#[derive(Clone, Copy)]
pub struct Started {
    pub kind: u64,
    pub value: u64,
}

// What there is of a line that is not ended: its stage, the direction before its first space, and its last number.
#[repr(C)]
#[derive(Clone, Copy)]
pub struct Pending {
    pub stage: u32,
    pub direction: u32,
    pub last: Started,
}

// A rose under way, laid out for C: its refusal, if it has one; the lines accepted; how many of them stand in each
// cell, 13 to a sector; whether nothing more is taken, if not 0; and the line that is not ended.
#[repr(C)]
#[derive(Clone, Copy)]
pub struct Rose {
    pub verdict: Verdict,
    pub accepted: u32,
    pub cell: [u32; 208],
    pub closed: u32,
    pub pending: Pending,
}

pub fn new() -> Rose
    ensures { result ≡ no_lines }
{
    Rose {
        verdict: Verdict { number: 0, line: 0 },
        accepted: 0,
        cell: [0u32; 208],
        closed: 0,
        pending: line::no_bytes(),
    }
}

// A part of the file taken. The cells are copied once for a part, and not for each line.
pub fn take(rose: Rose, part: &[u8]) -> Rose
    ensures { result ≡ part_taken rose part.now }
{
    if rose.closed != 0 {
        return rose;
    }
    let verdict = rose.verdict;
    let mut cell = rose.cell;
    let mut accepted = rose.accepted;
    let mut pending = rose.pending;
    for &b in part {
        if b != 10 {
            pending = line::with_byte(pending, b);
            continue;
        }
        let said = line::says(pending);
        let fault = judge::fault_after(accepted, said);
        if fault != 0 {
            return judge::refusal(cell, accepted, fault);
        }
        let k = line::cell_in(said) as usize;
        cell[k] = judge::one_more(cell[k]);
        accepted = judge::one_more(accepted);
        pending = line::no_bytes();
    }
    Rose {
        verdict: verdict,
        accepted: accepted,
        cell: cell,
        closed: 0,
        pending: pending,
    }
}

// A line that is not ended when the file ends counts for nothing and is out of form.
fn unfinished(rose: Rose) -> Rose
    ensures { result ≡ refused_at rose.cell rose.accepted 1 }
{
    let cell = rose.cell;
    judge::refusal(cell, rose.accepted, 1)
}

// The end of the file.
pub fn end(rose: Rose) -> Rose
    ensures { result ≡ end_taken rose }
{
    if rose.closed != 0 {
        return rose;
    }
    let pending = rose.pending;
    if line::has_bytes(pending) {
        return unfinished(rose);
    }
    let verdict = rose.verdict;
    let cell = rose.cell;
    Rose {
        verdict: verdict,
        accepted: rose.accepted,
        cell: cell,
        closed: 1,
        pending: line::no_bytes(),
    }
}
