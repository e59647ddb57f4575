// A sheet mended: the slips of the keyboard taken out, each change listed, and what the mended sheet is told. The text
// is gone over twice, to count and then to write, so that nothing is written where there is no room.
#![tactic(auto)]

ghost use Rattle.std.specs.Prelude.{◌≡◌};
ghost use Rattle.mend.specs.Mending.{no_room, mending_of, text_after, list_after};

use verdict::Verdict;

mod ahead; // what stands ahead of a place
mod walk; // what becomes of a byte
mod tally; // how many bytes stay and go
mod fill; // the text and the list written

// What mending comes to, laid out for C: the length of the mended text, how many changes were listed, and what the
// mended text is told as a sheet. Where it is refused, all but the verdict is zero.
#[repr(C)]
#[derive(Clone, Copy)]
pub struct Mending {
    pub verdict: Verdict,
    pub length: u64,
    pub changes: u64,
    pub refused: Verdict,
}

fn no_room() -> Mending
    ensures { result ≡ no_room }
{
    Mending {
        verdict: Verdict { number: 7, line: 0 },
        length: 0,
        changes: 0,
        refused: Verdict { number: 0, line: 0 },
    }
}

// The mended text into `out`, and into `list` three numbers for each change: line, kind and place.
pub fn mend(sheet: &[u8], out: &mut [u8], list: &mut [u64]) -> Mending
    ensures { (result ≡ mending_of sheet.now out.old list.old)
        × (out.new ≡ text_after sheet.now out.old list.old)
        × (list.new ≡ list_after sheet.now out.old list.old) }
{
    let bytes = tally::tally_all(sheet);
    let all = tally::with_end(bytes);
    if out.len() < all.kept {
        return no_room();
    }
    if list.len() / 3 < all.taken {
        return no_room();
    }
    fill::put_all(sheet, bytes.last != 10, out, list);
    let length = all.kept;
    let refused = sheet::read::verdict_of(&out[0..length]);
    Mending {
        verdict: Verdict { number: 0, line: 0 },
        length: length as u64,
        changes: all.taken as u64,
        refused,
    }
}
