// An entry as a line of fields.
#![tactic(auto)]

ghost use Rattle.std.specs.Prelude.{◌≡◌, ◌≤◌, true, false, length};
ghost use Rattle.lines.specs.Held.{held_line};
ghost use Rattle.entry_written.specs.Fields.{number_field, mark_field, building_fields, wind_fields};
ghost use Rattle.entry_written.specs.Fields.{year_fields, internal_fields, step_fields, face_fields};

use building::Building;
use entry::{BOTH, Face, Step, Wind};
use field::Field;
use lines::{Line, Slot};

// A number too long for its field is out of form.
fn number_field(z: i64) -> Field
    ensures { result ≡ number_field z }
{
    if building::limits::too_long(z) {
        return Field::Bad;
    }
    let m = whole::magnitude(z);
    if z < 0 {
        return Field::Minus(m as u32);
    }
    Field::Plus(m as u32)
}

fn mark_field(z: i64) -> Field
    ensures { result ≡ mark_field z }
{
    if z == BOTH {
        return Field::Dash;
    }
    number_field(z)
}

// A line of these fields.
fn line_of(given: &[Field]) -> Line
    requires { length given.now ≤ 6 }
    ensures { result ≡ held_line 0 given.now }
{
    let mut fields = [Slot { field: Field::Bad }; 6];
    for i in 0..given.len() {
        fields[i] = Slot { field: given[i] };
    }
    Line {
        count: given.len(),
        next: 0,
        fields,
    }
}

pub fn building_line(g: Building) -> Line
    ensures { result ≡ held_line 0 (building_fields g) }
{
    line_of(&[
        number_field(g.h),
        number_field(g.a),
        number_field(g.b),
        number_field(g.density),
        number_field(g.kind),
        number_field(g.x),
    ])
}

pub fn year_line(year: i64) -> Line
    ensures { result ≡ held_line 0 (year_fields year) }
{
    line_of(&[number_field(year)])
}

pub fn wind_line(w: Wind) -> Line
    ensures { result ≡ held_line 0 (wind_fields w) }
{
    line_of(&[number_field(w.direction), number_field(w.speed)])
}

pub fn internal_line(i: i64) -> Line
    ensures { result ≡ held_line 0 (internal_fields i) }
{
    line_of(&[number_field(i)])
}

pub fn step_line(s: Step) -> Line
    ensures { result ≡ held_line 0 (step_fields s) }
{
    line_of(&[number_field(s.height), number_field(s.factor)])
}

// A line of a face with its height, and one without.
fn tall_line(f: Face) -> Line
    ensures { result ≡ held_line 0 (face_fields true f) }
{
    line_of(&[
        Field::Letter(f.zone),
        mark_field(f.mark),
        number_field(f.height),
        number_field(f.x),
        number_field(f.y),
        number_field(f.z),
    ])
}

fn plain_line(f: Face) -> Line
    ensures { result ≡ held_line 0 (face_fields false f) }
{
    line_of(&[
        Field::Letter(f.zone),
        mark_field(f.mark),
        number_field(f.x),
        number_field(f.y),
        number_field(f.z),
    ])
}

pub fn face_line(heights: bool, f: Face) -> Line
    ensures { result ≡ held_line 0 (face_fields heights f) }
{
    if heights { tall_line(f) } else { plain_line(f) }
}
