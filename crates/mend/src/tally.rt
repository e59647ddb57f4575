// How many bytes stay and how many go.
ghost use Rattle.std.specs.Prelude.{◌≡◌, ◌<◌, ◌^◌};
ghost use Rattle.mend.specs.OneWalk.{at_start, fates_from, tallied, nothing_tallied, tally_with, tally_ended};

use crate::walk;

// With the last byte that stays, LF if there is none.
#[derive(Clone, Copy)]
pub(crate) struct Tally {
    pub(crate) kept: usize,
    pub(crate) taken: usize,
    pub(crate) last: u8,
}

fn with_byte(t: Tally, b: u8, kind: u8) -> Tally
    requires { (t.kept < 2 ^ 63) × (t.taken < 2 ^ 63) }
    ensures { result ≡ tally_with t b kind }
{
    if kind == 0 {
        return Tally {
            kept: t.kept + 1,
            taken: t.taken,
            last: b,
        };
    }
    Tally {
        kept: t.kept,
        taken: t.taken + 1,
        last: t.last,
    }
}

pub(crate) fn tally_all(s: &[u8]) -> Tally
    ensures { (result ≡ tallied nothing_tallied (fates_from at_start s.now)) × (result.kept < 2 ^ 63)
        × (result.taken < 2 ^ 63) }
{
    let mut w = walk::at_start();
    let mut t = Tally {
        kept: 0,
        taken: 0,
        last: 10,
    };
    for (i, &b) in s.iter().enumerate() {
        w = walk::step(s, i, w);
        t = with_byte(t, b, w.kind);
    }
    t
}

// An end is one byte and one change more.
pub(crate) fn with_end(t: Tally) -> Tally
    requires { (t.kept < 2 ^ 63) × (t.taken < 2 ^ 63) }
    ensures { result ≡ tally_ended t }
{
    if t.last == 10 {
        return t;
    }
    Tally {
        kept: t.kept + 1,
        taken: t.taken + 1,
        last: t.last,
    }
}
