// Which faces are ahead of a face when the missing newtons are given out.
ghost use Rattle.std.specs.Prelude.{◌≡◌, ◌<◌, length};
ghost use Rattle.sharing.specs.Column.{comes_first, ahead};

// A face j with remainder s before a face i with remainder r.
fn comes_first(s: u64, j: usize, r: u64, i: usize) -> bool
    ensures { result ≡ comes_first s j r i }
{
    if s == r {
        return j < i;
    }
    r < s
}

// How many faces are ahead of a face.
pub(crate) fn how_many_ahead(forces: &[i64], face: usize) -> usize
    requires { face < length forces.now }
    ensures { result ≡ ahead forces.now face }
{
    let own = whole::remainder(forces[face]);
    let mut n: usize = 0;
    for (other, &force) in forces.iter().enumerate() {
        if comes_first(whole::remainder(force), other, own, face) {
            n += 1;
        }
    }
    n
}
