// Fields and lines of fields written.
#![tactic(auto)]

ghost use Rattle.std.specs.Prelude.{[], ◌∷◌};
ghost use Rattle.lines.specs.Lines.{field_text, line_text, text_of_lines};
ghost use Rattle.lines.specs.Held.{held};
ghost use Rattle.page.specs.Writing.{Put};

use field::Field;
use lines::Line;

// A field as a line has it; nothing for Bad.
pub fn put_field(buf: &mut [u8], at: usize, f: Field) -> usize
    ensures { Put buf.old at (field_text f) buf.new result }
{
    match f {
        Field::Bad => page::put_bytes(buf, at, b""),
        Field::Plus(n) => digits::put_natural(buf, at, n as u64),
        Field::Minus(n) => {
            let next = page::put_byte(buf, at, 45);
            digits::put_natural(buf, next, n as u64)
        }
        Field::Letter(b) => page::put_byte(buf, at, b),
        Field::Dash => page::put_byte(buf, at, 45),
    }
}

// The fields of a line with single spaces between them.
fn put_fields(buf: &mut [u8], at: usize, x: Line) -> usize
    ensures { Put buf.old at (line_text (held x)) buf.new result }
{
    let n = lines::held_count(x);
    let f = lines::field_at(x, 0);
    let mut next = put_field(buf, at, f);
    for i in 1..n {
        let g = lines::field_at(x, i);
        next = page::put_byte(buf, next, 32);
        next = put_field(buf, next, g);
    }
    next
}

// A line and its LF.
pub fn put_line(buf: &mut [u8], at: usize, x: Line) -> usize
    ensures { Put buf.old at (text_of_lines (held x ∷ [])) buf.new result }
{
    let next = put_fields(buf, at, x);
    page::put_byte(buf, next, 10)
}
