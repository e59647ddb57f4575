// What becomes of a line that is ended: its fault, and a refusal.
ghost use Rattle.std.specs.Prelude.{◌≡◌, cond, ltb};
ghost use Rattle.rose.specs.Rose.{most_lines, one_more, fault_in, fault_after, refused_at};

use crate::{Misread, Rose, line};
use verdict::Verdict;

pub(crate) fn one_more(x: u32) -> u32
    ensures { result ≡ one_more x }
{
    if x < 4294967295 {
        return x + 1;
    }
    x
}

// The fault that a line has by itself, 0 if it has none.
fn fault_in(said: Result<u32, Misread>) -> u32
    ensures { result ≡ fault_in said }
{
    match said {
        Err(Misread::OutOfForm) => 1,
        Err(Misread::OutOfRange) => 3,
        Ok(_) => 0,
    }
}

// That of any line after so many accepted ones.
fn fault_of_room(accepted: u32) -> u32
    ensures { result ≡ cond (ltb accepted most_lines) 0 11 }
{
    if accepted < 1000000 {
        return 0;
    }
    11
}

// The first of the two.
pub(crate) fn fault_after(accepted: u32, said: Result<u32, Misread>) -> u32
    ensures { result ≡ fault_after accepted said }
{
    let own = fault_in(said);
    let room = fault_of_room(accepted);
    if own == 0 {
        return room;
    }
    own
}

// The line after the accepted ones refused: nothing more is taken.
pub(crate) fn refusal(cell: [u32; 208], accepted: u32, number: u32) -> Rose
    ensures { result ≡ refused_at cell accepted number }
{
    Rose {
        verdict: Verdict {
            number: number,
            line: one_more(accepted),
        },
        accepted: accepted,
        cell: cell,
        closed: 1,
        pending: line::no_bytes(),
    }
}
