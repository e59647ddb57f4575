// Sheets from standard input: a title, the text, and `=` before the next title. A sheet holds no `=`.
ghost use Rattle.std.specs.Prelude.{◌≤◌, length, IfOk};

use crate::print::print_text;
use std::io::{self, Read};

// The first b of s from `at` on, or the end of s.
fn find(s: &[u8], at: usize, b: u8) -> usize
    requires { at ≤ length s.now }
    ensures { (at ≤ result) × (result ≤ length s.now) }
{
    match s[at..].iter().position(|&x| x == b) {
        Some(n) => at + n,
        None => s.len(),
    }
}

fn answer(rt: &impl Print, sheet: &[u8]) -> io::Result<()> {
    let mut output = [0u8; 3084];
    let written = report::write_totals(sheet, &mut output);
    print_text(rt, &output, written)
}

// A title and its sheet: the title, and what comes out.
fn show(rt: &impl Print, case: &[u8]) -> io::Result<()> {
    let e = find(case, 0, b'\n');
    rt.write_all(&case[..e])?;
    print!(rt; "\n")?;
    if e < case.len() {
        let start = e + 1;
        answer(rt, &case[start..])?;
    }
    Ok(())
}

fn all(rt: &impl Print, input: &[u8]) -> io::Result<()> {
    let mut at = 0;
    while at < input.len() {
        let e = find(input, at, b'=');
        show(rt, &input[at..e])?;
        if e == input.len() {
            return Ok(());
        }
        at = e + 1;
    }
    Ok(())
}

// Fills `buf` from its start, until it is full or the input ends, and answers how many bytes it then has.
fn fill(input: &mut impl Read, buf: &mut [u8]) -> io::Result<usize>
    ensures { IfOk result (λ n. n ≤ length buf.new) }
{
    let mut got = 0;
    while got < buf.len() {
        let n = input.read(&mut buf[got..])?;
        if n == 0 {
            break;
        }
        got += n;
    }
    Ok(got)
}

pub(crate) fn run(input: &mut impl Read, rt: &impl Print) -> io::Result<()> {
    let mut text = [0u8; 65536];
    let got = fill(input, &mut text)?;
    all(rt, &text[..got])
}
