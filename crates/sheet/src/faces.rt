// The faces of a sheet read line by line, as long as they are plain and in order. The rest is left to the code that
// names a fault.
ghost use Rattle.std.specs.Prelude.{◌≡◌, true, ◌+◌, ◌^◌, ◌≤◌, ◌<◌};
ghost use Rattle.sheet.specs.Said.{Ended, FacesRead};

use crate::flat::put_face;
use crate::plainly::face_at;
use building::year::has_heights;
use rules::entries::face_fault;
use rules::{Before, Section};

// How many faces were read, and the place behind them.
#[derive(Clone, Copy)]
pub(crate) struct Rest {
    pub(crate) done: u32,
    pub(crate) next: usize,
}

// At most `count` entries of a section from a place on, put into the list behind so many faces.
pub(crate) fn faces_from(
    sec: Section,
    s: &[u8],
    at: usize,
    b: Before,
    ended: bool,
    flat: &mut [i64],
    faces: u32,
    count: u32,
) -> Rest
    requires { (ended ≡ true → Ended s.now) × (sec ≡ Section.F → faces + count < 2 ^ 32) }
    ensures { (result.done ≤ count) × (0 < result.done → sec ≡ Section.F)
        × FacesRead s.now b result.done at faces flat.old result.next flat.new }
{
    let mut next = at;
    if !ended || !matches!(sec, Section::F) {
        return Rest { done: 0, next };
    }
    let heights = has_heights(b.year);
    for done in 0..count {
        let Some(x) = face_at(s, next, heights) else {
            return Rest { done, next };
        };
        if face_fault(b, x.face) != 0 {
            return Rest { done, next };
        }
        put_face(flat, faces + done, x.face);
        next = x.next;
    }
    Rest { done: count, next }
}
