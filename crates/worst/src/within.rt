// Whether stored sums are such as a job of its year can have.
ghost use Rattle.std.specs.Prelude.{◌≡◌};
ghost use Rattle.worst.specs.Within as within;
ghost use Rattle.worst.specs.Within.{most_newtons, span_within, cell_within};

use crate::{Span, Stored, StoredCell};
use building::year::face_limit;

// One face adds no more newtons than these to a sum.
const FACE_MOST: u64 = 16_500_000;

fn span_within(n: u64, p: Span) -> bool
    ensures { result ≡ span_within n p }
{
    pair::is_within(n, p.greatest) && pair::is_within(n, p.least)
}

fn cell_within(n: u64, t: StoredCell) -> bool
    ensures { result ≡ cell_within n t }
{
    span_within(n, t.x) && span_within(n, t.y) && span_within(n, t.z)
}

// All of them, in a job of this year.
pub fn all_within(t: Stored, year: i64) -> bool
    ensures { result ≡ within.all_within (most_newtons year) t.cell }
{
    let n = FACE_MOST * (face_limit(year) as u64);
    t.cell.iter().all(|cell| cell_within(n, *cell))
}
