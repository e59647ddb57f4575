// The program `totals`: a sheet on standard input, its six lines on standard output, or one line that refuses it.
// 9021 bytes decide the answer for every longer input (crates/sheet/proofs/Part.antt), and no answer is longer than
// 3084.
#![tactic(auto)]

ghost use Rattle.std.specs.Prelude.{◌≡◌, ◌≤◌, ◌<◌, length, take, IfOk, IfSome, OnOk};
ghost use Rattle.std.specs.Io.KnownBytes.{Consumes, Appends, IsAtEnd};
ghost use Rattle.sheet.specs.Sheet.{reading};
ghost use Rattle.report.specs.Report.{totals_text};

use std::io::{self, Read, Write};

// Fills `buf` from its start, until it is full or the input ends, and answers how many bytes of the input it then has.
fn fill<R: Read>(input: &mut R, buf: &mut [u8]) -> io::Result<usize>
    ensures within { IfOk result (λ n. n ≤ length buf.new) }
    ensures bytes { IfOk result (λ n. Consumes (R.remaining input.old) (R.remaining input.new) (take n buf.new)) }
    ensures end { IfOk result (λ n. n < length buf.new → IsAtEnd (R.remaining input.new)) }
{
    let mut got = 0;
    while got < buf.len() {
        let n = input.read(&mut buf[got..])?;
        if n == 0 {
            break;
        }
        got += n;
    }
    Ok(got)
}

// The answer to a text at the start of `lines`, and how many bytes it has.
fn write_answer(text: &[u8], lines: &mut [u8; 3084]) -> usize
    ensures within { result ≤ 3084 }
    ensures answer { take result lines.new ≡ totals_text (reading text.now) }
{
    match report::write_totals(text, lines) {
        Ok(n) if n <= 3084 => n,
        _ => 0,
    }
}

// Where their bytes are known, the answer to the whole input is what the output gains.
fn answer<R: Read, W: Write>(input: &mut R, output: &mut W) -> io::Result<()>
    ensures { OnOk result (IfSome (R.remaining input.old)
        (λ text. Appends (W.contents output.old) (W.contents output.new) (totals_text (reading text)))) }
{
    let mut text = [0u8; 9021];
    let got = fill(input, &mut text)?;
    let mut lines = [0u8; 3084];
    let n = write_answer(&text[..got], &mut lines);
    output.write_all(&lines[..n])
}

fn main(rt: HostRuntime) -> io::Result<()> {
    answer(&mut rt.stdin(), &mut rt.stdout())
}
