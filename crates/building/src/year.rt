// The year of a sheet, and what goes by it.
ghost use Rattle.std.specs.Prelude.{◌≡◌};
ghost use Rattle.building.specs.Year.{is_year, has_heights, has_squares, has_long_sheds, face_limit, building_line};

use super::limits::beyond;

// The last year that a sheet may say.
pub const LAST_YEAR: i64 = 4;

pub(crate) fn is_year(year: i64) -> bool
    ensures { result ≡ is_year year }
{
    !beyond(1, LAST_YEAR, year)
}

// Every year but the first has a profile, and a height for each face.
pub fn has_heights(year: i64) -> bool
    ensures { result ≡ has_heights year }
{
    year != 1
}

// From year 3 on the walls' table has square plans.
pub(crate) fn has_squares(year: i64) -> bool
    ensures { result ≡ has_squares year }
{
    2 < year
}

// From year 4 on there are long sheds, whose totals are shown as newtons with a remainder.
pub fn has_long_sheds(year: i64) -> bool
    ensures { result ≡ has_long_sheds year }
{
    3 < year
}

// The most faces that a sheet of a year may have.
pub fn face_limit(year: i64) -> u32
    ensures { result ≡ face_limit year }
{
    if has_long_sheds(year) { 240 } else { 24 }
}

// The line of a sheet that its building stands on.
pub(crate) fn building_line(year: i64) -> u32
    ensures { result ≡ building_line year }
{
    if has_heights(year) { 4 } else { 2 }
}
