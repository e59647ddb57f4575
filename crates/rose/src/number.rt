// A number that is not ended, byte by byte.
ghost use Rattle.std.specs.Prelude.{◌≡◌, ◌<◌};
ghost use Rattle.rose.specs.Pending.{digit_more, sign_more, number_more, number_says};

use crate::{Misread, Started};

// A number of digits can go on with a digit d if it has from one to six and does not begin with 0.
fn with_digit(n: Started, d: u64) -> Started
    requires { d < 10 }
    ensures { result ≡ digit_more n d }
{
    if 1 <= n.value {
        if n.value < 1000000 {
            return Started {
                kind: n.kind,
                value: n.value * 10 + d,
            };
        }
        return Started { kind: 4, value: 0 };
    }
    if n.kind == 0 {
        return Started { kind: 2, value: d };
    }
    if n.kind != 1 {
        return Started { kind: 4, value: 0 };
    }
    if d == 0 {
        return Started { kind: 4, value: 0 };
    }
    Started { kind: 3, value: d }
}

fn with_sign(n: Started) -> Started
    ensures { result ≡ sign_more n }
{
    if n.kind == 0 {
        return Started { kind: 1, value: 0 };
    }
    Started { kind: 4, value: 0 }
}

pub(crate) fn with_byte(n: Started, b: u8) -> Started
    ensures { result ≡ number_more n b }
{
    if 57 < b {
        return Started { kind: 4, value: 0 };
    }
    if 48 <= b {
        return with_digit(n, (b - 48) as u64);
    }
    if b == 45 {
        return with_sign(n);
    }
    Started { kind: 4, value: 0 }
}

// The number that it says if it ends here.
pub(crate) fn says(top: u32, n: Started) -> Result<u32, Misread>
    ensures { result ≡ number_says top n }
{
    if n.kind == 2 {
        if n.value <= top as u64 {
            return Ok(n.value as u32);
        }
        return Err(Misread::OutOfRange);
    }
    if n.kind == 3 {
        return Err(Misread::OutOfRange);
    }
    Err(Misread::OutOfForm)
}
