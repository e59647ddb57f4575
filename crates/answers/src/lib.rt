// The records that a host program in C gets, as include/aralimogga.h lays them out, and how an answer is turned into
// one. Each that can refuse begins with a verdict: its number and line are the first two fields in C.
#![tactic(auto)]

ghost use Rattle.std.specs.Prelude.{◌≡◌};
ghost use Rattle.answers.specs.Answers.{no_host_text, host_text, host_cited, host_values, host_coefficient};
ghost use Rattle.answers.specs.Answers.{host_double, no_host_extreme, host_units, host_extreme, host_line};

use book::{Cited, Values};
use building::year::has_long_sheds;
use pair::Pair;
use panel::Panel;
use verdict::Verdict;

// The length of a text that is written, 0 where it is refused.
#[repr(C)]
#[derive(Clone, Copy)]
pub struct Text {
    pub verdict: Verdict,
    pub length: u64,
}

// As many coefficients in thousandths as the count says, then zeros; the numbers of the two rows of their table that
// they lie between, and the fraction of the way, part / whole, in lowest terms. All zero where it is refused.
#[repr(C)]
#[derive(Clone, Copy)]
pub struct Coefficient {
    pub verdict: Verdict,
    pub count: u32,
    pub value: [i32; 2],
    pub lower: u32,
    pub upper: u32,
    pub part: u32,
    pub whole: u32,
}

// A total, in units and as newtons with a remainder, and the first case that reaches it; all zero where it is refused.
#[repr(C)]
#[derive(Clone, Copy)]
pub struct Extreme {
    pub verdict: Verdict,
    pub total: i64,
    pub newtons: i64,
    pub remainder: u64,
    pub wind: u32,
    pub internal: u32,
    pub faces: u32,
    pub alternative: [u8; 240],
}

// Where exact is 1, low and high are the number.
#[repr(C)]
#[derive(Clone, Copy)]
pub struct Double {
    pub exact: u32,
    pub low: f64,
    pub high: f64,
}

pub fn no_text(v: Verdict) -> Text
    ensures { result ≡ no_host_text v }
{
    Text {
        verdict: v,
        length: 0,
    }
}

pub fn text_of(w: Result<usize, Verdict>) -> Text
    ensures { result ≡ host_text w }
{
    match w {
        Ok(n) => Text {
            verdict: Verdict { number: 0, line: 0 },
            length: n as u64,
        },
        Err(v) => no_text(v),
    }
}

// The values in C's form, with the rows and the fraction.
fn with_rows(c: Cited, count: u32, value: [i32; 2]) -> Coefficient
    ensures { result ≡ host_cited c count value }
{
    Coefficient {
        verdict: Verdict { number: 0, line: 0 },
        count: count,
        value: value,
        lower: c.lower,
        upper: c.upper,
        part: c.part,
        whole: c.whole,
    }
}

fn of_cited(c: Cited) -> Coefficient
    ensures { result ≡ host_values c c.values }
{
    let values = c.values;
    match values {
        Values::One(v) => with_rows(c, 1, [v, 0]),
        Values::Two(v, w) => with_rows(c, 2, [v, w]),
    }
}

pub fn coefficient_of(a: book::Answer) -> Coefficient
    ensures { result ≡ host_coefficient a }
{
    match a {
        Ok(c) => of_cited(c),
        Err(r) => Coefficient {
            verdict: r,
            count: 0,
            value: [0, 0],
            lower: 0,
            upper: 0,
            part: 0,
            whole: 0,
        },
    }
}

pub fn double_of(p: Panel) -> Double
    ensures { result ≡ host_double p }
{
    match p {
        Panel::Exact(x) => Double {
            exact: 1,
            low: x,
            high: x,
        },
        Panel::Between(low, high) => Double {
            exact: 0,
            low: low,
            high: high,
        },
    }
}

pub fn no_extreme(v: Verdict) -> Extreme
    ensures { result ≡ no_host_extreme v }
{
    let alternative = [0u8; 240];
    Extreme {
        verdict: v,
        total: 0,
        newtons: 0,
        remainder: 0,
        wind: 0,
        internal: 0,
        faces: 0,
        alternative,
    }
}

// A total in units, which from year 4 on is 0.
fn units_of(year: i64, p: Pair) -> i64
    ensures { result ≡ host_units year p }
{
    if has_long_sheds(year) {
        return 0;
    }
    pair::as_units(p)
}

fn extreme_of(year: i64, e: worst::Extreme) -> Extreme
    ensures { result ≡ host_extreme year e }
{
    let p = e.total;
    let alternative = e.alternative;
    Extreme {
        verdict: Verdict { number: 0, line: 0 },
        total: units_of(year, p),
        newtons: p.newtons,
        remainder: p.remainder,
        wind: e.wind,
        internal: e.internal,
        faces: e.faces,
        alternative,
    }
}

// One line of the report of a job of this year, counted from 1.
pub fn line_of(year: i64, six: worst::Six, line: i64) -> Extreme
    ensures { result ≡ host_line year six line }
{
    match line {
        1 => extreme_of(year, six.x.greatest),
        2 => extreme_of(year, six.x.least),
        3 => extreme_of(year, six.y.greatest),
        4 => extreme_of(year, six.y.least),
        5 => extreme_of(year, six.z.greatest),
        6 => extreme_of(year, six.z.least),
        _ => no_extreme(Verdict { number: 3, line: 0 }),
    }
}
