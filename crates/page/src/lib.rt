// A text put into a lent buffer. The put functions store it from a place on, as far as there is room, and answer the
// place after it, so that one follows another; `emit` puts a whole text at the buffer's start, or refuses.
#![tactic(auto)]

ghost use Rattle.std.specs.Prelude.{◌≡◌, [], ◌∷◌, ◌+◌, ◌≤◌, length, take};
ghost use Rattle.page.specs.Writing.{Put, writing, buffer_after};

use verdict::Verdict;

pub fn put_byte(buf: &mut [u8], at: usize, b: u8) -> usize
    ensures { Put buf.old at (b ∷ []) buf.new result }
{
    if at < buf.len() {
        buf[at] = b;
        return at + 1;
    }
    buf.len()
}

// All of s, for which there is room.
fn put_whole(buf: &mut [u8], at: usize, s: &[u8]) -> usize
    requires { at + length s.now ≤ length buf.old }
    ensures { Put buf.old at s.now buf.new result }
{
    buf[at..at + s.len()].copy_from_slice(s);
    at + s.len()
}

pub fn put_bytes(buf: &mut [u8], at: usize, s: &[u8]) -> usize
    ensures { Put buf.old at s.now buf.new result }
{
    let start = at.min(buf.len());
    let room = buf.len() - start;
    if s.len() <= room {
        return put_whole(buf, start, s);
    }
    put_whole(buf, start, &s[..room])
}

// The first n bytes of `text`, or all where it has fewer, at the start of `buf`.
pub fn emit(text: &[u8], n: usize, buf: &mut [u8]) -> Result<usize, Verdict>
    ensures { (result ≡ writing (take n text.now) buf.old)
        × (buf.new ≡ buffer_after (take n text.now) buf.old) }
{
    let size = n.min(text.len());
    if buf.len() < size {
        return Err(Verdict { number: 7, line: 0 });
    }
    Ok(put_whole(buf, 0, &text[..size]))
}
