// Whether a line is in form.
ghost use Rattle.std.specs.Prelude.{◌≡◌, Bool, length, get_or};
ghost use Rattle.lines.specs.Held.{held};
ghost use Rattle.rules.specs.Form.{is_letter, is_number, is_short, has_form, in_form};
ghost use Rattle.rules.specs.Sections.{forms};

use crate::{FieldForm, Kind, Section};
use building::limits::too_long;
use entry::says::{is_dash, number_of};
use field::Field;
use lines::{Line, field_at, held_count};

fn is_letter(f: Field) -> bool
    ensures { result ≡ is_letter f }
{
    matches!(f, Field::Letter(_))
}

// -0 is no number.
fn is_number(f: Field) -> bool
    ensures { result ≡ is_number f }
{
    match f {
        Field::Plus(_) => true,
        Field::Minus(m) => m != 0,
        _ => false,
    }
}

fn is_short(f: Field) -> bool
    ensures { result ≡ is_short f }
{
    is_number(f) && !too_long(number_of(f))
}

#[tactic(auto, unfolding(crate::specs::Form::has_form))]
fn is_mark(f: Field) -> bool
    ensures { result ≡ has_form FieldForm.Mark f }
{
    is_dash(f) || is_short(f)
}

#[tactic(auto, unfolding(crate::specs::Form::has_form))]
fn has_form(w: FieldForm, f: Field) -> bool
    ensures { result ≡ has_form w f }
{
    match w {
        FieldForm::Capital => is_letter(f),
        FieldForm::Count => is_number(f),
        FieldForm::Number => is_short(f),
        FieldForm::Mark => is_mark(f),
    }
}

// How many fields a line has.
pub fn count_of(heights: bool, k: Kind) -> usize
    ensures { result ≡ length (forms heights k) }
{
    match k {
        Kind::Count(_) => 2,
        Kind::Entry(Section::V | Section::I) => 1,
        Kind::Entry(Section::W | Section::P) => 2,
        Kind::Entry(Section::B) => 6,
        Kind::Entry(Section::F) => { if heights { 6 } else { 5 } }
    }
}

// What field i of a line must be.
fn form_at(k: Kind, i: usize) -> FieldForm
    ensures { (heights : Bool) → result ≡ get_or (forms heights k) i FieldForm.Number }
{
    match (k, i) {
        (Kind::Count(_) | Kind::Entry(Section::F), 0) => FieldForm::Capital,
        (Kind::Count(_), 1) => FieldForm::Count,
        (Kind::Entry(Section::F), 1) => FieldForm::Mark,
        _ => FieldForm::Number,
    }
}

// Whether field i of a line is of the form that it must have.
pub fn formed_at(k: Kind, i: usize, f: Field) -> bool
    ensures { (heights : Bool) → result ≡ has_form (get_or (forms heights k) i FieldForm.Number) f }
{
    has_form(form_at(k, i), f)
}

// Whether a line is in form.
pub fn in_form(heights: bool, k: Kind, x: Line) -> bool
    ensures { result ≡ in_form (forms heights k) (held x) }
{
    let n = count_of(heights, k);
    if held_count(x) != n {
        return false;
    }
    for i in 0..n {
        if !has_form(form_at(k, i), field_at(x, i)) {
            return false;
        }
    }
    true
}
