// A line that is not ended, byte by byte.
ghost use Rattle.std.specs.Prelude.{◌≡◌, ◌<◌};
ghost use Rattle.rose.specs.Observation.{together, cell_in};
ghost use Rattle.rose.specs.Rose.{no_bytes};
ghost use Rattle.rose.specs.Pending.{directed, first_says, line_more, pending_says, has_bytes};

use crate::{Misread, Pending, Started, cell, number};

pub(crate) fn no_bytes() -> Pending
    ensures { result ≡ no_bytes }
{
    Pending {
        stage: 0,
        direction: 0,
        last: Started { kind: 0, value: 0 },
    }
}

pub(crate) fn has_bytes(p: Pending) -> bool
    ensures { result ≡ has_bytes p }
{
    let n = p.last;
    if p.stage != 0 {
        return true;
    }
    n.kind != 0
}

// A line behind its first space.
fn directed_by(x: Result<u32, Misread>) -> Pending
    ensures { result ≡ directed x }
{
    let none = Started { kind: 0, value: 0 };
    match x {
        Err(Misread::OutOfForm) => Pending {
            stage: 3,
            direction: 0,
            last: none,
        },
        Err(Misread::OutOfRange) => Pending {
            stage: 2,
            direction: 0,
            last: none,
        },
        Ok(d) => Pending {
            stage: 1,
            direction: d,
            last: none,
        },
    }
}

// With one byte more, which is no LF.
pub(crate) fn with_byte(p: Pending, b: u8) -> Pending
    ensures { result ≡ line_more p b }
{
    let n = p.last;
    if b != 32 {
        return Pending {
            stage: p.stage,
            direction: p.direction,
            last: number::with_byte(n, b),
        };
    }
    if p.stage == 0 {
        return directed_by(number::says(359, n));
    }
    Pending {
        stage: p.stage,
        direction: p.direction,
        last: Started { kind: 4, value: 0 },
    }
}

// What the first number said.
fn first_says(stage: u32, direction: u32) -> Result<u32, Misread>
    ensures { result ≡ first_says stage direction }
{
    if stage == 1 {
        return Ok(direction);
    }
    if stage == 2 {
        return Err(Misread::OutOfRange);
    }
    Err(Misread::OutOfForm)
}

// The cell of the two; of two faults the lower.
fn both_say(direction: Result<u32, Misread>, speed: Result<u32, Misread>) -> Result<u32, Misread>
    ensures { result ≡ together direction speed }
{
    if let Err(Misread::OutOfForm) = speed {
        return speed;
    }
    let d = direction?;
    let v = speed?;
    Ok(cell::cell_at(d, v))
}

// The cell that it says if it ends here.
pub(crate) fn says(p: Pending) -> Result<u32, Misread>
    ensures { (result ≡ pending_says p) × (cell_in result < 208) }
{
    let n = p.last;
    both_say(first_says(p.stage, p.direction), number::says(1000, n))
}

// Its cell, or 0 where it has none.
pub(crate) fn cell_in(x: Result<u32, Misread>) -> u32
    ensures { result ≡ cell_in x }
{
    x.unwrap_or(0)
}
