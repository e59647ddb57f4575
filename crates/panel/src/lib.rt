// The panel's doubles: for any signed 64-bit total the double that equals it, or the two on either side; the chart
// point of three totals; and both of newtons with a remainder.
#![tactic(auto)]

ghost use Rattle.std.specs.Prelude.{◌≡◌};
ghost use Rattle.panel.specs.Bracket.{gap, of_size, mirrored, panel_of};
ghost use Rattle.panel.specs.Chart.{low_of, high_of, point_in, point_of};

pub mod newtons; // the panel and the chart point of newtons with a remainder

#[derive(Clone, Copy)]
pub enum Panel {
    // The double equal to the total.
    Exact(f64),
    // The nearest double below, and the nearest above.
    Between(f64, f64),
}

// How far apart doubles lie at m: the power of two by which its 53 leading binary digits count.
fn unit(m: u64) -> u64
    ensures { result ≡ gap m }
{
    let mut p = 1;
    while m / p >= 9007199254740992 {
        p = p * 2;
    }
    p
}

// The panel of a total that is not negative. Both factors are doubles, and so is their product.
pub(crate) fn of_size(m: u64) -> Panel
    ensures { result ≡ of_size m }
{
    let p = unit(m);
    let q = m / p;
    let low = (q as f64) * (p as f64);
    if m % p == 0 {
        return Panel::Exact(low);
    }
    let next = q + 1;
    let high = (next as f64) * (p as f64);
    Panel::Between(low, high)
}

// The same on the other side of zero.
fn mirror(p: Panel) -> Panel
    ensures { result ≡ mirrored p }
{
    match p {
        Panel::Exact(x) => Panel::Exact(-x),
        Panel::Between(low, high) => Panel::Between(-high, -low),
    }
}

// What the panel gets for a total. Zero has no other side, so it stays positive.
pub fn panel_of(total: i64) -> Panel
    ensures { result ≡ panel_of total }
{
    let p = of_size(whole::magnitude(total));
    if total < 0 { mirror(p) } else { p }
}

// Low and high on each axis.
#[repr(C)]
#[derive(Clone, Copy)]
pub struct Point {
    pub x_low: f64,
    pub x_high: f64,
    pub y_low: f64,
    pub y_high: f64,
    pub z_low: f64,
    pub z_high: f64,
}

pub(crate) fn low(p: Panel) -> f64
    ensures { result ≡ low_of p }
{
    match p {
        Panel::Exact(x) => x,
        Panel::Between(below, _) => below,
    }
}

pub(crate) fn high(p: Panel) -> f64
    ensures { result ≡ high_of p }
{
    match p {
        Panel::Exact(x) => x,
        Panel::Between(_, above) => above,
    }
}

// The point of the panels on the three axes.
pub(crate) fn point_in(a: Panel, b: Panel, c: Panel) -> Point
    ensures { result ≡ point_in a b c }
{
    Point {
        x_low: low(a),
        x_high: high(a),
        y_low: low(b),
        y_high: high(b),
        z_low: low(c),
        z_high: high(c),
    }
}

// The chart point of the totals on the three axes.
pub fn chart(x: i64, y: i64, z: i64) -> Point
    ensures { result ≡ point_of x y z }
{
    let a = panel_of(x);
    let b = panel_of(y);
    let c = panel_of(z);
    point_in(a, b, c)
}
