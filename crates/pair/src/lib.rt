// A total as a pair, whole newtons rounded down and the units that remain: made of a number of units and turned back
// into one, added, taken away and compared. Where a total of units fits 64 bits no longer, its pair does.
#![tactic(auto)]

ghost use Rattle.std.specs.Prelude.{◌≡◌, ◌&&◌, ◌*◌, ◌≤◌, ◌<◌, pos, nat_abs, ◌+ℤ◌, ◌*ℤ◌};
ghost use Rattle.whole.specs.Newton.{newton};
ghost use Rattle.pair.specs.Total.{pair_of, within_newtons, lesser, addable, pair_sum, pair_difference, as_units};

#[repr(C)]
#[derive(Clone, Copy, PartialEq, Eq, PartialOrd, Ord)]
pub struct Pair {
    pub newtons: i64,
    pub remainder: u64,
}

const NEWTON: u64 = 20_000_000_000;

// Two pairs of so many newtons at most fit 64 bits when they are added.
const MOST_ADDED: u64 = 4_000_000_000_000_000_000;

// A pair of so many at most has its units in 64 bits.
const MOST_IN_UNITS: u64 = 400_000_000;

// The pair of a total.
pub fn of_units(total: i64) -> Pair
    ensures { result ≡ pair_of total }
{
    Pair {
        newtons: whole::newtons(total),
        remainder: whole::remainder(total),
    }
}

// Whether it is a total's, and of n newtons at most in size.
pub fn is_within(n: u64, p: Pair) -> bool
    ensures { result ≡ within_newtons n p }
{
    let size = whole::magnitude(p.newtons);
    if p.remainder >= NEWTON {
        return false;
    }
    if p.newtons < 0 || p.remainder == 0 {
        return size <= n;
    }
    size < n
}

fn both_addable(p: Pair, q: Pair) -> bool
    ensures { result ≡ (addable p && addable q) }
{
    is_within(MOST_ADDED, p) && is_within(MOST_ADDED, q)
}

// So many newtons and the rest in units: where that is 1 N or more, one newton is carried.
fn carried(newtons: i64, rest: u64) -> Pair
    requires { (nat_abs newtons ≤ 8_000_000_000_000_000_001) × (rest < 2 * newton) }
    ensures { result ≡ pair_of (newtons *ℤ pos newton +ℤ pos rest) }
{
    if rest < NEWTON {
        return Pair {
            newtons,
            remainder: rest,
        };
    }
    Pair {
        newtons: newtons + 1,
        remainder: rest - NEWTON,
    }
}

pub fn sum(p: Pair, q: Pair) -> Pair
    ensures { result ≡ pair_sum p q }
{
    if both_addable(p, q) {
        return carried(p.newtons + q.newtons, p.remainder + q.remainder);
    }
    of_units(0)
}

// One newton is lent to the units.
pub fn difference(p: Pair, q: Pair) -> Pair
    ensures { result ≡ pair_difference p q }
{
    if both_addable(p, q) {
        return carried(
            p.newtons - q.newtons - 1,
            p.remainder + NEWTON - q.remainder,
        );
    }
    of_units(0)
}

// Whether p is the lesser: it has fewer newtons, or as many and less beside them.
pub fn less(p: Pair, q: Pair) -> bool
    ensures { result ≡ lesser p q }
{
    p < q
}

// The total in units, where it has so few newtons that they fit 64 bits; else 0.
pub fn as_units(p: Pair) -> i64
    ensures { result ≡ as_units p }
{
    if is_within(MOST_IN_UNITS, p) {
        return p.newtons * 20_000_000_000 + (p.remainder as i64);
    }
    0
}
