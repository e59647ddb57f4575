// What becomes of a byte: the four passes in one walk over the text.
ghost use Rattle.std.specs.Prelude.{◌≡◌, ◌||◌, ◌+◌, ◌<◌, eqb, length, drop, get_or};
ghost use Rattle.mend.specs.Mended.{spaces_on};
ghost use Rattle.mend.specs.OneWalk.{clean, at_start, staying, at_space, at_plus, at_leading_zero, at_zero, seen_with};

use crate::ahead;

// What stands before a byte: the last byte that each pass from the second on has met; whether a zero here would lead;
// and, behind a leading zero, whether only digits follow up to the field's end. And what became of the last byte: the
// kind of the change, 0 if it stays.
#[derive(Clone, Copy)]
pub(crate) struct Seen {
    pub(crate) two: u8,
    pub(crate) three: u8,
    pub(crate) four: u8,
    pub(crate) lead: bool,
    pub(crate) zeros: bool,
    pub(crate) kind: u8,
}

pub(crate) fn at_start() -> Seen
    ensures { result ≡ at_start }
{
    Seen {
        two: 10,
        three: 10,
        four: 10,
        lead: true,
        zeros: false,
        kind: 0,
    }
}

fn stay(b: u8, lead: bool) -> Seen
    ensures { result ≡ staying b lead }
{
    Seen {
        two: b,
        three: b,
        four: b,
        lead: lead,
        zeros: false,
        kind: 0,
    }
}

fn is_needless(s: &[u8], i: usize, before: u8) -> bool
    ensures { result ≡ (eqb before 32 || spaces_on (clean (drop i s.now))) }
{
    if before == 32 {
        return true;
    }
    ahead::runs_on(s, i, false)
}

fn at_space(s: &[u8], i: usize, w: Seen) -> Seen
    ensures { result ≡ at_space w (clean (drop i s.now)) }
{
    if is_needless(s, i, w.two) {
        return Seen {
            two: 32,
            three: w.three,
            four: w.four,
            lead: w.lead,
            zeros: w.zeros,
            kind: 2,
        };
    }
    stay(32, true)
}

fn at_plus(s: &[u8], i: usize, w: Seen) -> Seen
    ensures { result ≡ at_plus w (clean (drop i s.now)) }
{
    if !ahead::parts_fields(w.three) {
        return stay(43, false);
    }
    let b = ahead::next_byte(s, i);
    if !ahead::is_digit(b) {
        return stay(43, false);
    }
    Seen {
        two: 43,
        three: 43,
        four: w.four,
        lead: w.lead,
        zeros: w.zeros,
        kind: 3,
    }
}

fn at_leading_zero(s: &[u8], i: usize, zeros: bool) -> Seen
    ensures { result ≡ at_leading_zero zeros (clean (drop i s.now)) }
{
    let b = ahead::next_byte(s, i);
    let mut kind: u8 = 0;
    if zeros {
        if ahead::is_digit(b) {
            kind = 4;
        }
    }
    Seen {
        two: 48,
        three: 48,
        four: 48,
        lead: true,
        zeros: zeros,
        kind: kind,
    }
}

// Whether only digits stand up to the field's end is asked at its first zero, and so once a field.
fn at_zero(s: &[u8], i: usize, w: Seen) -> Seen
    ensures { result ≡ at_zero w (clean (drop i s.now)) }
{
    if !w.lead {
        return stay(48, false);
    }
    if w.two == 48 {
        return at_leading_zero(s, i, w.zeros);
    }
    let zeros = ahead::runs_on(s, i, true);
    at_leading_zero(s, i, zeros)
}

// Behind the byte at i.
pub(crate) fn step(s: &[u8], i: usize, w: Seen) -> Seen
    requires { i < length s.now }
    ensures { result ≡ seen_with w (get_or s.now i 0) (clean (drop (i + 1) s.now)) }
{
    let b = s[i];
    if b == 13 {
        return Seen {
            two: w.two,
            three: w.three,
            four: w.four,
            lead: w.lead,
            zeros: w.zeros,
            kind: 1,
        };
    }
    if b == 32 {
        return at_space(s, i + 1, w);
    }
    if b == 43 {
        return at_plus(s, i + 1, w);
    }
    if b == 48 {
        return at_zero(s, i + 1, w);
    }
    if b == 45 {
        let lead = ahead::parts_fields(w.four);
        return stay(45, lead);
    }
    let lead = ahead::parts_fields(b);
    stay(b, lead)
}
