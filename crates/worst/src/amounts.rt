// A sum over up to 240 faces, which no number of 64 bits holds: newtons, and beside them units of either sign. Units
// move over to the newtons only where they come to 220,000,000 N, so that the sum of 24 forces more costs two
// comparisons.
ghost use Rattle.std.specs.Prelude.{◌≡◌, ℕ, ◌+◌, ◌≤◌, ◌<◌, nat_abs, ◌+ℤ◌, ◌-ℤ◌, ◌*ℤ◌};
ghost use Rattle.pair.specs.Total.{pair_of};
ghost use Rattle.worst.specs.Amounts.{amount_in, AmountSmall, AmountFits};

use pair::Pair;

#[derive(Clone, Copy)]
pub struct Amount {
    pub newtons: i64,
    pub units: i64,
}

// So many newtons move over at a time, and so many units are they.
const MOVED: i64 = 220_000_000;

const MOVED_UNITS: i64 = 4_400_000_000_000_000_000;

// One part more: the sum of up to 24 forces.
pub(crate) fn plus(a: Amount, part: i64) -> Amount
    requires { AmountSmall 239 a × (nat_abs part ≤ 4320000000000000000) }
    ensures { (amount_in result ≡ amount_in a +ℤ part)
        × ((n : ℕ) → AmountSmall n a → AmountSmall (n + 1) result) }
{
    let units = a.units + part;
    if units > MOVED_UNITS {
        return Amount {
            newtons: a.newtons + MOVED,
            units: units - MOVED_UNITS,
        };
    }
    if units < -MOVED_UNITS {
        return Amount {
            newtons: a.newtons - MOVED,
            units: units + MOVED_UNITS,
        };
    }
    Amount {
        newtons: a.newtons,
        units,
    }
}

// Less k times a number.
pub(crate) fn less_times(a: Amount, k: i64, z: i64) -> Amount
    requires { AmountSmall 240 a × (nat_abs k ≤ 1000) × (nat_abs z ≤ 36000000000000000) }
    ensures { (amount_in result ≡ amount_in a -ℤ k *ℤ z) × AmountFits result }
{
    let newtons = whole::newtons(z);
    let units = whole::remainder(z) as i64;
    Amount {
        newtons: a.newtons - k * newtons,
        units: a.units - k * units,
    }
}

// As the pair that it is.
pub(crate) fn settled(a: Amount) -> Pair
    requires { AmountFits a }
    ensures { result ≡ pair_of (amount_in a) }
{
    let newtons = whole::newtons(a.units);
    let remainder = whole::remainder(a.units);
    Pair {
        newtons: a.newtons + newtons,
        remainder,
    }
}
