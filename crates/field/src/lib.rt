// A field of the sheet: a dash, a capital letter, or a number.
#![tactic(auto)]

ghost use Rattle.std.specs.Prelude.{◌≡◌, cond, ◌≤◌, length};
ghost use Rattle.whole.specs.Digits.{all_digits, value};
ghost use Rattle.field.specs.Field.{unsigned, negative, numeral, field_from};

// What a field says. Minus holds no 0. Bad is out of form.
#[derive(Clone, Copy)]
pub enum Field {
    Bad,
    Plus(u32),
    Minus(u32),
    Letter(u8),
    Dash,
}

// The number that at most seven digits stand for, or Bad where a byte is no digit.
fn digits_of(s: &[u8]) -> Field
    requires { length s.now ≤ 7 }
    ensures { result ≡ cond (all_digits s.now) (Field.Plus (value s.now)) Field.Bad }
{
    let mut v: u32 = 0;
    for &d in s {
        if d < 48 || 57 < d {
            return Field::Bad;
        }
        v = v * 10 + ((d - 48) as u32);
    }
    Field::Plus(v)
}

// Digits of a number: one to seven, no 0 before another.
fn unsigned_of(s: &[u8]) -> Field
    ensures { result ≡ unsigned s.now }
{
    if s.len() == 0 {
        return Field::Bad;
    }
    if 7 < s.len() {
        return Field::Bad;
    }
    if s[0] == 48 {
        if 1 < s.len() {
            return Field::Bad;
        }
        return Field::Plus(0);
    }
    digits_of(s)
}

// What follows a minus sign: such digits, but not 0 alone.
fn negative_of(s: &[u8]) -> Field
    ensures { result ≡ negative s.now }
{
    let f = unsigned_of(s);
    if let Field::Plus(v) = f {
        if v == 0 {
            return Field::Bad;
        }
        return Field::Minus(v);
    }
    Field::Bad
}

fn number_of(s: &[u8]) -> Field
    ensures { result ≡ numeral s.now }
{
    if s.len() == 0 {
        return Field::Bad;
    }
    if s[0] == 45 {
        return negative_of(&s[1..]);
    }
    unsigned_of(s)
}

// The field that the whole of s is.
pub fn field_of(s: &[u8]) -> Field
    ensures { result ≡ field_from s.now }
{
    if s.len() != 1 {
        return number_of(s);
    }
    let b = s[0];
    if b == 45 {
        return Field::Dash;
    }
    if b < 65 {
        return number_of(s);
    }
    if 90 < b {
        return number_of(s);
    }
    Field::Letter(b)
}
