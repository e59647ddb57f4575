// The faces of a lent list, as a job's record holds them.
ghost use Rattle.std.specs.Prelude.{◌≡◌};
ghost use Rattle.column.specs.Listed.{listed};
ghost use Rattle.column.specs.OneByOne.{no_faces, with_one};

use entry::Face;
use job::{Faces, MOST_FACES, no_face};

// The room of a record, as it is counted there.
const ROOM: u32 = MOST_FACES as u32;

fn none() -> Faces
    ensures { result ≡ no_faces }
{
    let entry = [no_face(); MOST_FACES];
    Faces { count: 0, entry }
}

// One face more. One that finds no room is counted the first time, and not kept.
fn put(faces: Faces, f: Face) -> Faces
    ensures { result ≡ with_one faces f }
{
    let mut all = faces;
    let count = all.count;
    if count < ROOM {
        let i = count as usize;
        all.entry[i] = f;
        all.count = count + 1;
        return all;
    }
    all.count = ROOM + 1;
    all
}

// All that a record says of the faces. Of a list that is longer it reads one more than there is room for.
pub fn gather(faces: &[Face]) -> Faces
    ensures { result ≡ listed faces.now }
{
    let telling = &faces[..faces.len().min(MOST_FACES + 1)];
    let mut all = none();
    for f in telling {
        all = put(all, *f);
    }
    all
}
