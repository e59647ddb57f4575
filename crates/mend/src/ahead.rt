// What stands ahead of a place of a text, with returns passed over.
ghost use Rattle.std.specs.Prelude.{◌≡◌, drop};
ghost use Rattle.whole.specs.Digits.{is_digit};
ghost use Rattle.mend.specs.Mended.{parts_fields, next};
ghost use Rattle.mend.specs.OneWalk.{clean, runs_on, ends_run, in_run};

pub(crate) fn is_digit(b: u8) -> bool
    ensures { result ≡ is_digit b }
{
    if b < 48 {
        return false;
    }
    b <= 57
}

pub(crate) fn parts_fields(b: u8) -> bool
    ensures { result ≡ parts_fields b }
{
    if b == 32 {
        return true;
    }
    b == 10
}

// The first byte from i on that is no return, 0 if there is none.
pub(crate) fn next_byte(s: &[u8], i: usize) -> u8
    ensures { result ≡ next (clean (drop i s.now)) }
{
    for j in i..s.len() {
        let b = s[j];
        if b != 13 {
            return b;
        }
    }
    0
}

// Whether b ends what is looked for: digits up to a field's end, or else spaces up to a line's.
fn ends_run(b: u8, digits: bool) -> bool
    ensures { result ≡ ends_run digits b }
{
    if digits {
        return parts_fields(b);
    }
    b == 10
}

fn in_run(b: u8, digits: bool) -> bool
    ensures { result ≡ in_run digits b }
{
    if b == 13 {
        return true;
    }
    if digits {
        return is_digit(b);
    }
    b == 32
}

// Whether only digits stand from i up to the field's end, or else only spaces up to the line's.
pub(crate) fn runs_on(s: &[u8], i: usize, digits: bool) -> bool
    ensures { result ≡ runs_on digits (clean (drop i s.now)) }
{
    for j in i..s.len() {
        let b = s[j];
        if ends_run(b, digits) {
            return true;
        }
        if !in_run(b, digits) {
            return false;
        }
    }
    true
}
