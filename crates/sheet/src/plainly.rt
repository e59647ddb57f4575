// A line read in one pass, where it is plain: its bytes go straight to numbers. Any other is left to the code that
// names its fault.
ghost use Rattle.std.specs.Prelude.{◌≡◌, true, cond, [], ◌∷◌, ◌++◌, ◌+◌, ◌^◌, ◌≤◌, ◌<◌, ℕ, pos};
ghost use Rattle.std.specs.Prelude.{length, get_or, take, drop, IfSome};
ghost use Rattle.whole.specs.Digits.{digits};
ghost use Rattle.sheet.specs.Said.{Ended, DigitsStand, NumberStands, MarkStands, HeightStands};
ghost use Rattle.sheet.specs.Said.{NumbersStand, PlainFace};

use entry::{BOTH, Face};

// Digits that stand in a text: the place behind them, and their number.
#[derive(Clone, Copy)]
pub(crate) struct Natural {
    pub(crate) end: usize,
    pub(crate) n: u32,
}

// The same with a sign.
#[derive(Clone, Copy)]
pub(crate) struct Spelled {
    pub(crate) end: usize,
    pub(crate) z: i64,
}

// A face, and the place behind its line.
#[derive(Clone, Copy)]
pub(crate) struct FaceLine {
    pub(crate) next: usize,
    pub(crate) face: Face,
}

// The numbers of a line, with zeros behind them, and the place behind its LF.
#[derive(Clone, Copy)]
pub(crate) struct Numbers {
    pub(crate) next: usize,
    pub(crate) number: [i64; 6],
}

// Whether a text ends in LF: then every byte that is no LF has one behind it.
pub(crate) fn is_ended(s: &[u8]) -> bool
    ensures { result ≡ true → Ended s.now }
{
    matches!(s, [.., 10])
}

// The digits from a place on, after those of v, as long as there are at most seven.
fn digits_from(s: &[u8], from: usize, v: u32) -> Natural
    requires { Ended s.now × (from < length s.now) × (0 < v) × (v < 10) }
    ensures { (result.end < length s.now) × (result.n < 10 ^ 7)
        × (digits v ++ drop from s.now ≡ digits result.n ++ drop result.end s.now) }
{
    let mut n = v;
    let mut i = from;
    while n < 1000000 {
        let b = s[i];
        if b < 48 || 57 < b {
            return Natural { end: i, n };
        }
        n = n * 10 + (b - 48) as u32;
        i += 1;
    }
    Natural { end: i, n }
}

// Up to seven digits, the first not 0; or a lone 0.
fn natural_at(s: &[u8], at: usize) -> Option<Natural>
    requires { Ended s.now × (at < length s.now) }
    ensures { IfSome result (λ d. (d.n < 10 ^ 7) × (d.end < length s.now)
        × (drop at s.now ≡ digits d.n ++ drop d.end s.now)) }
{
    let b = s[at];
    if b < 48 || 57 < b {
        return None;
    }
    if b == 48 {
        return Some(Natural { end: at + 1, n: 0 });
    }
    Some(digits_from(s, at + 1, (b - 48) as u32))
}

// Those with the byte x behind them: the place behind that.
fn natural_before(s: &[u8], at: usize, x: u8) -> Option<Natural>
    requires { Ended s.now × (at < length s.now) }
    ensures { IfSome result (λ d. (d.n < 10 ^ 7) × DigitsStand s.now at d.n x d.end) }
{
    let d = natural_at(s, at)?;
    if s[d.end] != x {
        return None;
    }
    Some(Natural {
        end: d.end + 1,
        n: d.n,
    })
}

// A number with the byte x behind it: the place behind that.
pub(crate) fn number_at(s: &[u8], at: usize, x: u8) -> Option<Spelled>
    requires { Ended s.now × (at < length s.now) }
    ensures { IfSome result (λ w. NumberStands s.now at w.z x w.end) }
{
    if s[at] != 45 {
        let d = natural_before(s, at, x)?;
        return Some(Spelled {
            end: d.end,
            z: d.n as i64,
        });
    }
    let d = natural_before(s, at + 1, x)?;
    if d.n == 0 {
        return None;
    }
    Some(Spelled {
        end: d.end,
        z: 0 - (d.n as i64),
    })
}

// What stands behind a number: a space, and behind the last LF.
fn separator(last: bool) -> u8
    ensures { result ≡ cond last 10 32 }
{
    if last { 10 } else { 32 }
}

// So many numbers from a place on, which end their line.
pub(crate) fn numbers_at(s: &[u8], at: usize, count: usize) -> Option<Numbers>
    requires { Ended s.now × (0 < count) × (count ≤ 6) }
    ensures { IfSome result (λ w. (w.next ≤ length s.now)
        × (length w.number ≡ 6) × NumbersStand s.now at (take count w.number) w.next
        × ((i : ℕ) → count ≤ i → i < 6 → get_or w.number i (pos 0) ≡ pos 0)) }
{
    if s.len() <= at {
        return None;
    }
    let mut number = [0i64; 6];
    let mut next = at;
    for k in 0..count {
        let x = number_at(s, next, separator(k + 1 == count))?;
        number[k] = x.z;
        next = x.end;
    }
    Some(Numbers { next, number })
}

// A letter with a space behind it.
pub(crate) fn letter_at(s: &[u8], at: usize) -> Option<u8>
    requires { Ended s.now }
    ensures { IfSome result (λ b. (at + 2 < length s.now) × (65 ≤ b) × (b ≤ 90)
        × (drop at s.now ≡ b ∷ 32 ∷ drop (at + 2) s.now)) }
{
    if s.len() <= at {
        return None;
    }
    let b = s[at];
    if b < 65 || 90 < b || s[at + 1] != 32 {
        return None;
    }
    Some(b)
}

// A dash with a space behind it.
fn dash_at(s: &[u8], at: usize) -> bool
    requires { Ended s.now × (at < length s.now) }
    ensures { result ≡ true → (at + 2 < length s.now)
        × (drop at s.now ≡ 45 ∷ 32 ∷ drop (at + 2) s.now) }
{
    s[at] == 45 && s[at + 1] == 32
}

// The mark of a face: a dash, or a number.
fn mark_at(s: &[u8], at: usize) -> Option<Spelled>
    requires { Ended s.now × (at < length s.now) }
    ensures { IfSome result (λ w. MarkStands s.now at w.z w.end) }
{
    if dash_at(s, at) {
        return Some(Spelled {
            end: at + 2,
            z: BOTH,
        });
    }
    number_at(s, at, 32)
}

// The height of a face, where faces have one.
fn height_at(s: &[u8], at: usize, heights: bool) -> Option<Spelled>
    requires { Ended s.now × (at < length s.now) }
    ensures { IfSome result (λ w. HeightStands heights s.now at w.z w.end) }
{
    if heights {
        return number_at(s, at, 32);
    }
    Some(Spelled { end: at, z: 0 })
}

// A face line: zone, mark, the height where faces have one, and the areas.
pub(crate) fn face_at(s: &[u8], at: usize, heights: bool) -> Option<FaceLine>
    requires { Ended s.now }
    ensures { IfSome result (λ l. PlainFace heights s.now at l) }
{
    let zone = letter_at(s, at)?;
    let m = mark_at(s, at + 2)?;
    let h = height_at(s, m.end, heights)?;
    let x = number_at(s, h.end, 32)?;
    let y = number_at(s, x.end, 32)?;
    let z = number_at(s, y.end, 10)?;
    Some(FaceLine {
        next: z.end,
        face: Face {
            zone,
            mark: m.z,
            height: h.z,
            x: x.z,
            y: y.z,
            z: z.z,
        },
    })
}
