// The limits of one number: those of a range, and how long it may be.
ghost use Rattle.std.specs.Prelude.{◌≡◌};
ghost use Rattle.building.specs.Test as test;
ghost use Rattle.building.specs.Test.{too_long};

// Below the least number of a range, or above its greatest.
pub fn beyond(least: i64, greatest: i64, z: i64) -> bool
    ensures { result ≡ test.beyond least greatest z }
{
    z < least || greatest < z
}

// More than 7 digits.
pub fn too_long(z: i64) -> bool
    ensures { result ≡ too_long z }
{
    9999999 < whole::magnitude(z)
}
