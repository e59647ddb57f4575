// A place between the rows of a table, and the value there.
ghost use Rattle.std.specs.Prelude.{◌≡◌, ◌+◌, ◌*◌, ◌/◌, ◌<◌, ◌≤◌, nat_abs, pos, ◌+ℤ◌};
ghost use Rattle.whole.specs.Round.{round_away};
ghost use Rattle.whole.specs.Lowest.{common_divisor};
ghost use Rattle.book.specs.Line.{on_straight};
ghost use Rattle.book.specs.NoHalf.{NoHalf};
ghost use Rattle.book.specs.Spot.{row_spot};

// From row `lower` to row `upper` of a table, by their numbers, `part` / `whole` of the way, in lowest terms.
#[derive(Clone, Copy)]
pub(crate) struct Spot {
    pub lower: u32,
    pub upper: u32,
    pub part: u32,
    pub whole: u32,
}

// On a row itself.
pub(crate) fn on_row(row: u32) -> Spot
    ensures { result ≡ row_spot row }
{
    Spot {
        lower: row,
        upper: row,
        part: 0,
        whole: 1,
    }
}

// Between two rows, with the fraction brought to lowest terms.
pub(crate) fn between(lower: u32, upper: u32, part: u64, whole: u64) -> Spot
    requires { (0 < part) × (part ≤ whole) × (whole < 100000000) }
    ensures { let g = common_divisor part whole in
        result ≡ record { lower = lower; upper = upper; part = part / g; whole = whole / g } }
{
    let divisor = whole::common_divisor(part, whole);
    Spot {
        lower,
        upper,
        part: (part / divisor) as u32,
        whole: (whole / divisor) as u32,
    }
}

// n / d to the nearest whole number, a half going up.
fn half_up(n: u64, d: u64) -> u64
    requires { (n < 10000000000000) × (0 < d) × (d < 100000000) }
    ensures { result ≡ (2 * n + d) / (2 * d) }
{
    (2 * n + d) / (2 * d)
}

// To the nearest whole number, a half going away from zero.
fn round_away(z: i64, d: u64) -> i64
    requires { (nat_abs z < 10000000000000) × (0 < d) × (d < 100000000) }
    ensures { result ≡ round_away z d }
{
    let n = half_up(whole::magnitude(z), d) as i64;
    if z < 0 {
        return 0 - n;
    }
    n
}

// `part` / `whole` of the way from v to w, in thousandths.
pub(crate) fn line_at(v: i16, w: i16, part: u32, whole: u32) -> i32
    requires { (nat_abs v ≤ 250) × (nat_abs w ≤ 250) × (part ≤ whole) × (0 < whole) × (whole < 100000000) }
    ensures { result ≡ on_straight v w part whole }
{
    let n = ((v as i64) * (whole as i64) + ((w as i64) - (v as i64)) * (part as i64)) * 10;
    round_away(n, whole as u64) as i32
}

// Hundredths counted from -250, below which no roof has a value.
fn raised(v: i16) -> u64
    requires { nat_abs v ≤ 250 }
    ensures { result ≡ nat_abs (v +ℤ pos 250) }
{
    ((v as i64) + 250) as u64
}

// The same where no half comes up: so counted, one division rounds it, whatever its sign.
pub(crate) fn slope_at(v: i16, w: i16, part: u32, whole: u32) -> i32
    requires v_bound { (nat_abs v ≤ 250) × (nat_abs w ≤ 250) × (part ≤ whole) × (0 < whole) × (whole < 100000000) }
    requires no_half { NoHalf v w part whole }
    ensures { result ≡ on_straight v w part whole }
{
    let n = (raised(v) * ((whole - part) as u64) + raised(w) * (part as u64)) * 10;
    (half_up(n, whole as u64) as i32) - 2500
}
