// The first field of a line that is not what is called for there.
ghost use Rattle.std.specs.Prelude.{◌≡◌};
ghost use Rattle.lines.specs.Lines.{fields_of};
ghost use Rattle.rules.specs.Form.{first_out};
ghost use Rattle.rules.specs.Sections.{forms};

use crate::parts::until;
use field::field_of;
use rules::Kind;
use rules::form_of::{count_of, formed_at};

// From 1: one out of form, one too many, or the one that is missing.
pub(crate) fn first_out(l: &[u8], heights: bool, k: Kind) -> u32
    ensures { result ≡ first_out (forms heights k) (fields_of l.now) }
{
    let n = count_of(heights, k);
    let mut next: usize = 0;
    for i in 0..n {
        let e = until(l, next, 32);
        if !formed_at(k, i, field_of(&l[next..e])) {
            return (i + 1) as u32;
        }
        if e == l.len() {
            return (i + 2) as u32;
        }
        next = e + 1;
    }
    (n + 1) as u32
}
