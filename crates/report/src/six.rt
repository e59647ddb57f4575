// The text of the six lines, put after one another.
ghost use Rattle.std.specs.Prelude.{◌+◌, ◌*◌, ◌≤◌, ◌<◌, leb, length, ◌≡◌, [], ◌∷◌, ◌++◌};
ghost use Rattle.page.specs.Writing.{Put};
ghost use Rattle.report.specs.Lines.{spaced, case_numbers, total_text, axis_text, six_text, x};
ghost use Rattle.report.specs.Short.{Fair, Digits, Printable, Both, AllSix, faces_shown, after_word};

use building::year::has_long_sheds;
use pair::Pair;
use worst::{Extreme, Extremes, Six};

// A space and a number.
pub(crate) fn put_spaced(buf: &mut [u8], at: usize, n: u32) -> usize
    ensures { Put buf.old at (spaced (n ∷ [])) buf.new result }
{
    let next = page::put_byte(buf, at, b' ');
    digits::put_natural(buf, next, n as u64)
}

// A space and a digit, for which there is room.
fn put_digit(buf: &mut [u8], at: usize, n: u32) -> usize
    requires { (n < 10) × (at + 2 ≤ length buf.old) }
    ensures { Put buf.old at (spaced (n ∷ [])) buf.new result × (result ≡ at + 2) }
{
    buf[at] = b' ';
    buf[at + 1] = 48 + (n as u8);
    at + 2
}

// Each of the numbers, which are digits, after a space.
fn put_numbers(buf: &mut [u8], at: usize, ns: &[u8]) -> usize
    requires { Digits ns.now × (at + 2 * length ns.now ≤ length buf.old) }
    ensures { Put buf.old at (spaced ns.now) buf.new result
        × (result ≡ at + 2 * length ns.now) }
{
    let mut next = at;
    for &n in ns {
        next = put_digit(buf, next, n as u32);
    }
    next
}

// The numbers of a case, and the end of its line.
fn put_case(buf: &mut [u8], at: usize, e: &Extreme) -> usize
    requires { Digits (case_numbers e.now) × (e.now.faces ≤ length e.now.alternative)
        × (at + 2 * e.now.faces + 5 ≤ length buf.old) }
    ensures { Put buf.old at (spaced (case_numbers e.now) ++ (10 ∷ [])) buf.new result }
{
    let winded = put_digit(buf, at, e.wind);
    let inside = put_digit(buf, winded, e.internal);
    let cased = put_numbers(buf, inside, &e.alternative[..e.faces as usize]);
    page::put_byte(buf, cased, b'\n')
}

// A total: its units, and from year 4 on its newtons and the remainder.
fn put_total(buf: &mut [u8], at: usize, year: i64, p: Pair) -> usize
    requires { Fair year p }
    ensures { Put buf.old at (total_text year p) buf.new result }
{
    if has_long_sheds(year) {
        let whole = digits::put_decimal(buf, at, p.newtons);
        let parted = page::put_byte(buf, whole, b' ');
        return digits::put_natural(buf, parted, p.remainder);
    }
    digits::put_decimal(buf, at, pair::as_units(p))
}

// A line after its axis and word: the total, and the numbers of its case.
fn put_line(buf: &mut [u8], at: usize, year: i64, e: &Extreme) -> usize
    requires { Printable year 240 e.now × (at + length (after_word year e.now) ≤ length buf.old) }
    ensures { Put buf.old at (after_word year e.now) buf.new result }
{
    let next = put_total(buf, at, year, e.total);
    put_case(buf, next, e)
}

// All six, for which there is room.
pub(crate) fn put_six(buf: &mut [u8], year: i64, s: &Six) -> usize
    requires { AllSix (Printable year 240) s.now × (length (six_text year s.now) ≤ length buf.old) }
    ensures { Put buf.old 0 (six_text year s.now) buf.new result }
{
    let named = page::put_bytes(buf, 0, b"x max ");
    let next = put_line(buf, named, year, &s.x.greatest);
    let named = page::put_bytes(buf, next, b"x min ");
    let next = put_line(buf, named, year, &s.x.least);
    let named = page::put_bytes(buf, next, b"y max ");
    let next = put_line(buf, named, year, &s.y.greatest);
    let named = page::put_bytes(buf, next, b"y min ");
    let next = put_line(buf, named, year, &s.y.least);
    let named = page::put_bytes(buf, next, b"z max ");
    let next = put_line(buf, named, year, &s.z.greatest);
    let named = page::put_bytes(buf, next, b"z min ");
    put_line(buf, named, year, &s.z.least)
}

// How long a line is.
fn line_size(year: i64, e: &Extreme) -> usize
    requires { Fair year e.now.total }
    ensures { result ≡ length (total_text year e.now.total) + (2 * e.now.faces + 11) }
{
    let mut text = [0u8; 23];
    put_total(&mut text, 0, year, e.total) + (2 * (e.faces as usize) + 11)
}

// How long the two lines of an axis are.
fn axis_size(year: i64, e: &Extremes) -> usize
    requires { Both (Printable year 240) e.now }
    ensures { result ≡ length (axis_text year x e.now) }
{
    let greatest = line_size(year, &e.greatest);
    greatest + line_size(year, &e.least)
}

// Whether there is room for six lines. Six of n faces are never longer than 12 n + 204 bytes, so they are seldom
// measured.
pub(crate) fn have_room(room: usize, year: i64, s: &Six) -> bool
    requires { AllSix (Printable year (faces_shown s.now)) s.now × (faces_shown s.now ≤ 240) }
    ensures { result ≡ leb (length (six_text year s.now)) room }
{
    if 12 * (s.x.greatest.faces as usize) + 204 <= room {
        return true;
    }
    let x = axis_size(year, &s.x);
    let y = axis_size(year, &s.y);
    x + y + axis_size(year, &s.z) <= room
}
