// The mended text and the list written, byte by byte and change by change.
ghost use Rattle.std.specs.Prelude.{◌≡◌, [], ◌∷◌, ◌+◌, ◌≤◌, ◌<◌, ◌^◌, length};
ghost use Rattle.std.proofs.lemmas.List.Edits.{sets};
ghost use Rattle.page.specs.Writing.{Put};
ghost use Rattle.mend.specs.Mended.{left, with_end};
ghost use Rattle.mend.specs.Changes.{changes_from, as_numbers};
ghost use Rattle.mend.specs.OneWalk.{at_start, fates_from, added_text, added_numbers, onward};

use crate::walk;

// A line and a place in it, both from 1.
#[derive(Clone, Copy)]
struct Position {
    line: u64,
    place: u64,
}

fn put_number(list: &mut [u64], at: usize, n: u64) -> usize
    ensures { Put list.old at (n ∷ []) list.new result }
{
    if at < list.len() {
        list[at] = n;
        return at + 1;
    }
    list.len()
}

fn put_change(list: &mut [u64], at: usize, p: Position, kind: u64) -> usize
    ensures { Put list.old at (p.line ∷ kind ∷ p.place ∷ []) list.new result }
{
    let a = put_number(list, at, p.line);
    let b = put_number(list, a, kind);
    put_number(list, b, p.place)
}

// The byte, if it stays.
fn put_kept(out: &mut [u8], at: usize, b: u8, kind: u8) -> usize
    requires { at ≤ length out.old }
    ensures { Put out.old at (added_text b kind) out.new result }
{
    if kind != 0 {
        return at;
    }
    page::put_byte(out, at, b)
}

// The change, if it goes.
fn put_taken(list: &mut [u64], at: usize, p: Position, kind: u8) -> usize
    requires { at ≤ length list.old }
    ensures { Put list.old at (added_numbers p kind) list.new result }
{
    if kind == 0 {
        return at;
    }
    put_change(list, at, p, kind as u64)
}

fn next_position(p: Position, b: u8) -> Position
    requires { (p.line < 2 ^ 63 + 1) × (p.place < 2 ^ 63 + 1) }
    ensures { result ≡ onward p b }
{
    if b == 10 {
        return Position {
            line: p.line + 1,
            place: 1,
        };
    }
    Position {
        line: p.line,
        place: p.place + 1,
    }
}

pub(crate) fn put_all(s: &[u8], added: bool, out: &mut [u8], list: &mut [u64])
    ensures { (out.new ≡ sets out.old 0
        (with_end added (left (fates_from at_start s.now))))
        × (list.new ≡ sets list.old 0
        (as_numbers (changes_from added 1 1 (fates_from at_start s.now)))) }
{
    let mut w = walk::at_start();
    let mut p = Position { line: 1, place: 1 };
    let mut at: usize = 0;
    let mut next: usize = 0;
    for (i, &b) in s.iter().enumerate() {
        w = walk::step(s, i, w);
        at = put_kept(out, at, b, w.kind);
        next = put_taken(list, next, p, w.kind);
        p = next_position(p, b);
    }
    if added {
        page::put_byte(out, at, 10);
        put_change(list, next, p, 5);
    }
}
