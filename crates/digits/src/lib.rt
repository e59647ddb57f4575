// Numbers written in decimal.
#![tactic(auto)]

ghost use Rattle.std.specs.Prelude.{◌≡◌, length};
ghost use Rattle.page.specs.Writing.{Put, writing, buffer_after};
ghost use Rattle.whole.specs.Digits.{digits, decimal};

use verdict::Verdict;

// The digits of n, most significant first: those of a tenth of it, and then the last. 20 bytes hold every number.
fn put_long(text: &mut [u8; 20], n: u64) -> usize
    requires { length text.old ≡ 20 }
    ensures { Put text.old 0 (digits n) text.new result }
{
    if n < 10 {
        text[0] = 48 + (n as u8);
        return 1;
    }
    let last = 48 + ((n % 10) as u8);
    let end = put_long(text, n / 10);
    text[end] = last;
    end + 1
}

// The same, as far as there is room. One digit is put here, without the recursion, so that a caller takes it inline.
pub fn put_natural(buf: &mut [u8], at: usize, n: u64) -> usize
    ensures { Put buf.old at (digits n) buf.new result }
{
    if n < 10 {
        return page::put_byte(buf, at, 48 + (n as u8));
    }
    let mut text = [0u8; 20];
    let end = put_long(&mut text, n);
    page::put_bytes(buf, at, &text[..end])
}

pub fn put_decimal(buf: &mut [u8], at: usize, z: i64) -> usize
    ensures { Put buf.old at (decimal z) buf.new result }
{
    let m = whole::magnitude(z);
    if z < 0 {
        let next = page::put_byte(buf, at, 45);
        return put_natural(buf, next, m);
    }
    put_natural(buf, at, m)
}

// z in decimal at the start of `buf`.
pub fn write_decimal(z: i64, buf: &mut [u8]) -> Result<usize, Verdict>
    ensures { (result ≡ writing (decimal z) buf.old)
        × (buf.new ≡ buffer_after (decimal z) buf.old) }
{
    let mut text = [0u8; 20];
    let n = put_decimal(&mut text, 0, z);
    page::emit(&text, n, buf)
}
