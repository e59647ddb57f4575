// The size of a signed number, the greatest common divisor of two numbers, and the newtons of a total with its
// remainder.
#![tactic(auto)]

ghost use Rattle.std.specs.Prelude.{◌≡◌, nat_abs};
ghost use Rattle.whole.specs.Lowest.{common_divisor};
ghost use Rattle.whole.specs.Newton.{newtons, remainder};

// The size of z, the least i64 included.
pub fn magnitude(z: i64) -> u64
    ensures { result ≡ nat_abs z }
{
    z.unsigned_abs()
}

// The greatest number that divides both, by Euclid's algorithm; where one is 0, the other.
pub fn common_divisor(x: u64, y: u64) -> u64
    ensures { result ≡ common_divisor x y }
{
    let mut a = x;
    let mut b = y;
    while b != 0 {
        let rest = a % b;
        a = b;
        b = rest;
    }
    a
}

const NEWTON: i64 = 20_000_000_000;

// The whole newtons of a total, rounded down.
#[tactic(auto, using(crate::proofs::Rounding::down_euclid))]
pub fn newtons(total: i64) -> i64
    ensures { result ≡ newtons total }
{
    total.div_euclid(NEWTON)
}

// The units that then remain, less than 1 N.
#[tactic(auto, using(crate::proofs::Rounding::left_euclid))]
pub fn remainder(total: i64) -> u64
    ensures { result ≡ remainder total }
{
    total.rem_euclid(NEWTON) as u64
}
