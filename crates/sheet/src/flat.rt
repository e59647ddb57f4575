// Faces as plain numbers in a list, six for each: put there one by one, and taken out as a record.
ghost use Rattle.std.specs.Prelude.{◌≡◌, [], ◌∷◌, ◌+◌, ◌*◌, ◌≤◌, ◌<◌, pos, length, set};
ghost use Rattle.std.proofs.lemmas.List.Edits.{sets};
ghost use Rattle.whole.specs.Lists.{first_of};
ghost use Rattle.entry.specs.Flat.{per_face, numbers_of, face_in, faces_in};
ghost use Rattle.job.specs.Carried.{no_face, most_faces};

use entry::Face;
use job::{Faces, MOST_FACES, no_face};

// The numbers of as many faces as a record has room for.
pub(crate) const MOST_NUMBERS: usize = 6 * MOST_FACES;

pub(crate) fn clear(flat: &mut [i64])
    ensures { flat.new ≡ first_of (pos 0) (length flat.old) [] }
{
    flat.fill(0);
}

// Where there is room for it.
fn put_number(flat: &mut [i64], at: usize, z: i64)
    ensures { flat.new ≡ set flat.old at z }
{
    if at < flat.len() {
        flat[at] = z;
    }
}

// The numbers of face n, from 0: those that find no room are dropped.
pub(crate) fn put_numbers(flat: &mut [i64], n: u32, v: [i64; 6])
    ensures { flat.new ≡ sets flat.old (per_face * n) v }
{
    let at = 6 * (n as usize);
    for k in 0..6 {
        put_number(flat, at + k, v[k]);
    }
}

// Six numbers from a place on.
fn put_six(flat: &mut [i64], at: usize, zone: i64, mark: i64, height: i64, x: i64, y: i64, z: i64)
    requires { at + 6 ≤ length flat.old }
    ensures { flat.new ≡ sets flat.old at (zone ∷ mark ∷ height ∷ x ∷ y ∷ z ∷ []) }
{
    flat[at] = zone;
    flat[at + 1] = mark;
    flat[at + 2] = height;
    flat[at + 3] = x;
    flat[at + 4] = y;
    flat[at + 5] = z;
}

// Face n, from 0, in the same way.
pub(crate) fn put_face(flat: &mut [i64], n: u32, f: Face)
    ensures { flat.new ≡ sets flat.old (per_face * n) (numbers_of f) }
{
    let at = 6 * (n as usize);
    if flat.len() < at + 6 {
        put_numbers(flat, n, [f.zone as i64, f.mark, f.height, f.x, f.y, f.z]);
        return;
    }
    put_six(flat, at, f.zone as i64, f.mark, f.height, f.x, f.y, f.z);
}

// Face i, from 0.
fn face_in(flat: &[i64; MOST_NUMBERS], i: usize) -> Face
    requires { i < most_faces }
    ensures { result ≡ face_in flat.now i }
{
    let at = 6 * i;
    Face {
        zone: (whole::magnitude(flat[at]) % 256) as u8,
        mark: flat[at + 1],
        height: flat[at + 2],
        x: flat[at + 3],
        y: flat[at + 4],
        z: flat[at + 5],
    }
}

// The first n faces as a record.
pub(crate) fn faces_in(flat: &[i64; MOST_NUMBERS], n: u32) -> Faces
    requires { n ≤ most_faces }
    ensures { result ≡ record { count = n; entry = first_of no_face most_faces (faces_in n flat.now) } }
{
    let mut entry = [no_face(); MOST_FACES];
    for i in 0..n as usize {
        entry[i] = face_in(flat, i);
    }
    Faces { count: n, entry }
}
