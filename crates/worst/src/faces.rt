// The faces of a job as numbers one after another, six for each: they are read where they stand, and from a record they
// are put there first.
ghost use Rattle.std.specs.Prelude.{◌≡◌, ℕ, ◌+◌, ◌*◌, ◌≤◌, ◌<◌, length, get_or};
ghost use Rattle.entry.specs.Flat.{face_in};
ghost use Rattle.job.specs.Carried.{no_face};

use entry::Face;
use job::Faces;

// The zone of face i, from 0.
pub(crate) fn zone_in(flat: &[i64], i: usize) -> u8
    requires { 6 * i + 5 < length flat.now }
    ensures { result ≡ (face_in flat.now i).zone }
{
    let zone = flat[6 * i];
    (whole::magnitude(zone) % 256) as u8
}

// The whole face.
pub(crate) fn face_in(flat: &[i64], i: usize) -> Face
    requires { 6 * i + 5 < length flat.now }
    ensures { result ≡ face_in flat.now i }
{
    let at = 6 * i;
    let zone = flat[at];
    let mark = flat[at + 1];
    let height = flat[at + 2];
    let x = flat[at + 3];
    let y = flat[at + 4];
    let z = flat[at + 5];
    Face {
        zone: (whole::magnitude(zone) % 256) as u8,
        mark,
        height,
        x,
        y,
        z,
    }
}

// Face i put there.
fn put(flat: &mut [i64; 1440], i: usize, f: Face)
    requires { (i < 240) × (length flat.old ≡ 1440) }
    ensures { (length flat.new ≡ 1440) × (face_in flat.new i ≡ f)
        × ((k : ℕ) → (k ≡ i → ⊥) → face_in flat.new k ≡ face_in flat.old k) }
{
    let zone = f.zone as i64;
    let mark = f.mark;
    let height = f.height;
    let x = f.x;
    let y = f.y;
    let z = f.z;
    let at = 6 * i;
    flat[at] = zone;
    flat[at + 1] = mark;
    flat[at + 2] = height;
    flat[at + 3] = x;
    flat[at + 4] = y;
    flat[at + 5] = z;
}

// Those of a record.
pub(crate) fn lay(faces: Faces, flat: &mut [i64; 1440])
    requires { (faces.count ≤ 240) × (length flat.old ≡ 1440) }
    ensures { (length flat.new ≡ 1440)
        × ((i : ℕ) → i < faces.count → face_in flat.new i ≡ get_or faces.entry i no_face) }
{
    let count = faces.count as usize;
    for (i, f) in faces.entry[..count].iter().enumerate() {
        put(flat, i, *f);
    }
}
