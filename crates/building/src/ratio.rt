// A ratio of two lengths compared with a printed limit, exactly: both sides are multiplied out, and nothing is
// divided.
ghost use Rattle.std.specs.Prelude.{◌≡◌, ◌*◌, leb};
ghost use Rattle.building.specs.Ratio.{◌÷◌, up_to};

// Two products compared. Those of numbers of 32 bits fit 64.
fn at_most(n: u32, y: u32, m: u32, z: u32) -> bool
    ensures { result ≡ leb (n * y) (m * z) }
{
    (n as u64) * (y as u64) <= (m as u64) * (z as u64)
}

// y/z comes up to the limit over/under, its end included.
pub fn up_to(y: u32, z: u32, over: u32, under: u32) -> bool
    ensures { result ≡ up_to y z (over ÷ under) }
{
    at_most(under, y, over, z)
}
