// A line of a text, read into its fields.
#![tactic(auto)]

ghost use Rattle.std.specs.Prelude.{◌≡◌, ◌||◌, ◌+◌, ◌-◌, ◌≤◌, eqb, length, take, drop, get_or};
ghost use Rattle.field.specs.Field.{field_from};
ghost use Rattle.lines.specs.Held.{slot, no_line, line_at, held, field_length};

use field::Field;

#[derive(Clone, Copy)]
pub struct Slot {
    pub field: Field,
}

// The fields of a line, and the place after its LF. Where it has more than six fields or no LF, the count is 0.
#[derive(Clone, Copy)]
pub struct Line {
    pub count: usize,
    pub next: usize,
    pub fields: [Slot; 6],
}

fn no_line() -> Line
    ensures { result ≡ no_line }
{
    let bad = Slot { field: Field::Bad };
    let fields = [bad; 6];
    Line {
        count: 0,
        next: 0,
        fields: fields,
    }
}

// Whether b ends a field: it is a space or LF.
fn ends(b: u8) -> bool
    ensures { result ≡ (eqb b 32 || eqb b 10) }
{
    if 32 < b {
        return false;
    }
    if b == 32 {
        return true;
    }
    b == 10
}

// The place of the first space or LF from `at` on; where there is none, one past the last byte, or `at`.
fn end_of(s: &[u8], at: usize) -> usize
    ensures { (result ≡ at + field_length (drop at s.now)) × (at ≤ result) }
{
    for i in at..s.len() {
        if ends(s[i]) {
            return i;
        }
    }
    s.len().max(at)
}

fn slot_of(l: &[u8], at: usize, e: usize) -> Slot
    requires { (at ≤ e) × (e ≤ length l.now) }
    ensures { result ≡ slot (field_from (take (e - at) (drop at l.now))) }
{
    let f = field::field_of(&l[at..e]);
    Slot { field: f }
}

// The line that begins at a place.
pub fn line_at(s: &[u8], at: usize) -> Line
    ensures { result ≡ line_at s.now at }
{
    let bad = Slot { field: Field::Bad };
    let mut fields = [bad; 6];
    let mut next = at;
    for k in 0..6 {
        let e = end_of(s, next);
        if s.len() <= e {
            return no_line();
        }
        let f = slot_of(s, next, e);
        fields[k] = f;
        next = e + 1;
        if s[e] == 10 {
            return Line {
                count: k + 1,
                next: next,
                fields: fields,
            };
        }
    }
    no_line()
}

// The field at a place of a line, Bad past the last.
pub fn field_at(x: Line, i: usize) -> Field
    ensures { result ≡ get_or (held x) i Field.Bad }
{
    if x.count <= i {
        return Field::Bad;
    }
    if 6 <= i {
        return Field::Bad;
    }
    let s = x.fields[i];
    s.field
}

// How many fields a line holds.
pub fn held_count(x: Line) -> usize
    ensures { result ≡ length (held x) }
{
    if x.count < 6 {
        return x.count;
    }
    6
}
