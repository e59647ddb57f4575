// The parts of a text, of which a byte stands between each and the next.
ghost use Rattle.std.specs.Prelude.{◌≡◌, ◌+◌, ◌≤◌, length, drop};
ghost use Rattle.lines.specs.Held as held;
ghost use Rattle.slip.specs.Slip.{part_of, bytes_at};

// From its first byte up to that behind its last.
#[derive(Clone, Copy)]
pub struct Part {
    pub from: usize,
    pub to: usize,
}

// The place of the first b from `at` on, or the end.
pub(crate) fn until(s: &[u8], at: usize, b: u8) -> usize
    requires { at ≤ length s.now }
    ensures { (result ≡ at + held.until b (drop at s.now)) × (result ≤ length s.now) }
{
    for i in at..s.len() {
        if s[i] == b {
            return i;
        }
    }
    s.len()
}

// Part n, from 0, of a text with b between its parts; at its end where there is no such part.
pub(crate) fn part_of(s: &[u8], b: u8, n: u32) -> Part
    ensures { (result ≡ part_of b n s.now)
        × (result.to ≡ result.from + held.until b (drop result.from s.now)) × (result.to ≤ length s.now) }
{
    let mut from: usize = 0;
    for _i in 0..n {
        let e = until(s, from, b);
        if e == s.len() {
            return Part { from: e, to: e };
        }
        from = e + 1;
    }
    Part {
        from,
        to: until(s, from, b),
    }
}

// The bytes of a field, from 1, of the line l that stands at a part; of the part itself with 0.
pub(crate) fn bytes_at(field: u32, line: Part, l: &[u8]) -> Part
    requires { line.from + length l.now ≤ line.to }
    ensures { result ≡ bytes_at field line l.now }
{
    if field == 0 {
        return line;
    }
    let p = part_of(l, 32, field - 1);
    Part {
        from: line.from + p.from,
        to: line.from + p.to,
    }
}
