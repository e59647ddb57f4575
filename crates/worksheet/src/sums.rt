// Stored sums after an edit: the old face's part taken out of each cell and the new one's put in; or all reckoned
// anew, where a stored sum lies beyond what a job of the year can have.
ghost use Rattle.std.specs.Prelude.{◌≡◌};
ghost use Rattle.worksheet.specs.Kept as kept;
ghost use Rattle.worksheet.specs.Kept.{moved_pair, moved_span, moved_cell};
ghost use Rattle.worksheet.specs.FromParts.{kept_of};

use job::Job;
use pair::Pair;
use worst::within::all_within;
use worst::{Span, Stored, StoredCell};

// One part taken out and one put in.
fn moved_pair(held: Pair, out: Pair, new: Pair) -> Pair
    ensures { result ≡ moved_pair held out new }
{
    let less = pair::difference(held, out);
    pair::sum(less, new)
}

fn moved_span(held: Span, out: Span, new: Span) -> Span
    ensures { result ≡ moved_span held out new }
{
    let greatest = moved_pair(held.greatest, out.greatest, new.greatest);
    let least = moved_pair(held.least, out.least, new.least);
    Span { greatest, least }
}

fn moved_cell(held: StoredCell, out: StoredCell, new: StoredCell) -> StoredCell
    ensures { result ≡ moved_cell held out new }
{
    let x = moved_span(held.x, out.x, new.x);
    let y = moved_span(held.y, out.y, new.y);
    let z = moved_span(held.z, out.z, new.z);
    StoredCell { x, y, z }
}

fn moved(held: Stored, out: Stored, new: Stored) -> Stored
    ensures { result ≡ kept.moved held out new }
{
    let mut all = held;
    for k in 0..32 {
        all.cell[k] = moved_cell(held.cell[k], out.cell[k], new.cell[k]);
    }
    all
}

// From the sums that are held, the job after an edit, and the parts that it takes out and puts in.
pub(crate) fn kept(held: Stored, after: Job, out: Stored, new: Stored) -> Stored
    ensures { result ≡ kept_of held after out new }
{
    if all_within(held, after.year) {
        return moved(held, out, new);
    }
    worst::sums_of(after)
}
