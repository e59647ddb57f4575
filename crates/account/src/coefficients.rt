// The coefficients of a face under a wind, with the rows that they come from.
ghost use Rattle.std.specs.Prelude.{◌≡◌, [], ◌∷◌, ◌-◌, ◌≤◌, pos, nat_abs, get_or};
ghost use Rattle.book.specs.Answer.{values_in};
ghost use Rattle.book.specs.Question.{outside_of, net};
ghost use Rattle.account.specs.Account.{no_rows, cited_rows};
ghost use Rattle.account.specs.Coefficients.{outside_in, face_coefficients, no_coefficients};

use crate::Rows;
use book::{Answer, Values};
use building::Dated;

#[derive(Clone, Copy)]
pub struct FaceCoefficients {
    pub rows: Rows,
    pub outside: i32,
    pub net: i32,
}

pub(crate) fn no_rows() -> Rows
    ensures { result ≡ no_rows }
{
    Rows {
        lower: 0,
        upper: 0,
        part: 0,
        whole: 0,
    }
}

pub(crate) fn no_coefficients() -> FaceCoefficients
    ensures { result ≡ no_coefficients }
{
    let rows = no_rows();
    FaceCoefficients {
        rows,
        outside: 0,
        net: 0,
    }
}

// Of two, the one of a number from 1.
fn one_of(first: i32, second: i32, alternative: u8) -> i32
    ensures { result ≡ get_or (first ∷ second ∷ []) (alternative - 1) (pos 0) }
{
    if alternative <= 1 {
        return first;
    }
    if alternative == 2 {
        return second;
    }
    0
}

fn value_of(values: Values, alternative: u8) -> i32
    ensures { result ≡ get_or (values_in values) (alternative - 1) (pos 0) }
{
    match values {
        Values::One(v) => one_of(v, 0, alternative),
        Values::Two(v, u) => one_of(v, u, alternative),
    }
}

fn outside_in(a: Answer, alternative: u8) -> i32
    ensures { result ≡ outside_in a alternative }
{
    match a {
        Ok(c) => value_of(c.values, alternative),
        Err(_) => 0,
    }
}

fn rows_of(a: Answer) -> Rows
    ensures { result ≡ cited_rows a }
{
    match a {
        Ok(c) => Rows {
            lower: c.lower,
            upper: c.upper,
            part: c.part,
            whole: c.whole,
        },
        Err(_) => no_rows(),
    }
}

// Hundredths taken off thousandths.
fn less(outside: i32, internal: i64) -> i32
    requires { (nat_abs outside ≤ 1200) × (nat_abs internal ≤ 100) }
    ensures { result ≡ net outside internal }
{
    ((outside as i64) - internal * 10) as i32
}

// Of a zone under a wind's direction, at an alternative and an internal coefficient.
pub(crate) fn in_book(
    d: Dated,
    direction: i64,
    zone: u8,
    alternative: u8,
    internal: i64,
) -> FaceCoefficients
    requires { (nat_abs (outside_in (outside_of d.year d.building direction zone) alternative) ≤ 1200)
        × (nat_abs internal ≤ 100) }
    ensures { result ≡ face_coefficients (outside_of d.year d.building direction zone) alternative internal }
{
    let a = book::outside(d, direction, zone);
    let outside = outside_in(a, alternative);
    let rows = rows_of(a);
    let net = less(outside, internal);
    FaceCoefficients { rows, outside, net }
}
