// How many choices of alternatives there are, and the choice of a number, from 1, in their order: the first face's
// alternative changes last.
ghost use Rattle.std.specs.Prelude.{◌≡◌, cond, ◌+◌, ◌≤◌, eqb, length};
ghost use Rattle.job.specs.Carried.{most_faces};
ghost use Rattle.worst.specs.Shown.{padded};
ghost use Rattle.plain.specs.ByNumber.{most_ways, ways, turn_of, choice_of};

use job::MOST_FACES;
use worst::FaceForces;

// With a face that has so many alternatives, after n choices for those before it.
fn with_face(n: u32, count: u32) -> u32
    requires { n ≤ most_ways }
    ensures { result ≡ cond (eqb count 2) (n + n) n }
{
    if count == 2 {
        return n + n;
    }
    n
}

pub(crate) fn ways(fs: &[FaceForces]) -> u32
    requires { ways fs.now ≤ most_ways }
    ensures { result ≡ ways fs.now }
{
    let mut n = 1;
    for f in fs {
        n = with_face(n, f.count);
    }
    n
}

// A face's alternative, and how many choices the faces after it have, with the number of the choice among these.
#[derive(Clone, Copy)]
pub(crate) struct Turn {
    pub(crate) alternative: u8,
    pub(crate) left: u32,
    pub(crate) number: u32,
}

// Of a face with so many alternatives, where it and those after it have so many choices.
fn one_turn(count: u32, left: u32, number: u32) -> Turn
    ensures { result ≡ turn_of count left number }
{
    if count != 2 {
        return Turn {
            alternative: 1,
            left,
            number,
        };
    }
    let half = left / 2;
    if number <= half {
        return Turn {
            alternative: 1,
            left: half,
            number,
        };
    }
    Turn {
        alternative: 2,
        left: half,
        number: number - half,
    }
}

// The choice of that number, of all.
pub(crate) fn choice_of(fs: &[FaceForces], all: u32, number: u32) -> [u8; MOST_FACES]
    requires { (length fs.now ≤ most_faces) × (all ≡ ways fs.now) }
    ensures { result ≡ padded most_faces (choice_of fs.now number) }
{
    let mut choice = [0u8; MOST_FACES];
    let mut left = all;
    let mut n = number;
    for (face, f) in fs.iter().enumerate() {
        let s = one_turn(f.count, left, n);
        choice[face] = s.alternative;
        left = s.left;
        n = s.number;
    }
    choice
}
