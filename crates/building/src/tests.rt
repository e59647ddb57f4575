// Tests of numbers.
ghost use Rattle.std.specs.Prelude.{◌≡◌};
ghost use Rattle.building.specs.Test as test;

// A byte from one to another, both included.
pub(crate) fn among(least: u8, greatest: u8, n: u8) -> bool
    ensures { result ≡ test.among least greatest n }
{
    least <= n && n <= greatest
}
