// What is printed: a text that was written into a buffer, and a refusal.
use std::io;
use verdict::Verdict;

// Nothing, where it was refused.
pub(crate) fn print_text(
    rt: &impl Print,
    buf: &[u8],
    written: Result<usize, Verdict>,
) -> io::Result<()> {
    match written {
        Ok(n) if n <= buf.len() => rt.write_all(&buf[..n]),
        _ => Ok(()),
    }
}

pub(crate) fn print_refusal(rt: &impl Print, v: Verdict) -> io::Result<()> {
    print!(rt; " {} {}", v.number, v.line)
}
