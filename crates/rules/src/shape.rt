// The sections of the sheet as data, and the line before the entries of each.
ghost use Rattle.std.specs.Prelude.{◌≡◌, [], ◌∷◌, length};
ghost use Rattle.lines.specs.Held.{held_line};
ghost use Rattle.rules.specs.Sections.{about, sections, section_at};

use crate::Section;
use building::year::face_limit;
use field::Field;
use lines::{Line, Slot};

// The sections of a sheet in order: of one without heights, and of one with them.
const PLAIN: [Section; 4] = [Section::B, Section::W, Section::I, Section::F];

const TALL: [Section; 6] = [
    Section::V,
    Section::B,
    Section::W,
    Section::I,
    Section::P,
    Section::F,
];

// In order.
fn sections(heights: bool) -> &'static [Section]
    ensures { result.now ≡ sections heights }
{
    if heights { &TALL } else { &PLAIN }
}

pub fn section_count(heights: bool) -> usize
    ensures { result ≡ length (sections heights) }
{
    sections(heights).len()
}

// The section behind the first i.
pub fn section_at(heights: bool, i: usize) -> Section
    ensures { result ≡ section_at heights i }
{
    let all = sections(heights);
    if i < all.len() { all[i] } else { Section::V }
}

pub fn section_letter(s: Section) -> u8
    ensures { result ≡ (about s).letter }
{
    match s {
        Section::V => b'V',
        Section::B => b'B',
        Section::W => b'W',
        Section::I => b'I',
        Section::P => b'P',
        Section::F => b'F',
    }
}

// The least and the greatest count of a section.
#[derive(Clone, Copy)]
pub struct Limits {
    pub least: u32,
    pub most: u32,
}

fn counted(least: u32, most: u32) -> Limits
    ensures { (result.least ≡ least) × (result.most ≡ most) }
{
    Limits { least, most }
}

// In a sheet of this year.
pub fn limits_of(year: i64, s: Section) -> Limits
    ensures { (result.least ≡ (about s).least) × (result.most ≡ (about s).most year) }
{
    match s {
        Section::V => counted(1, 1),
        Section::B => counted(1, 1),
        Section::W => counted(1, 8),
        Section::I => counted(1, 4),
        Section::P => counted(1, 16),
        Section::F => counted(1, face_limit(year)),
    }
}

// The line before the entries of a section: its letter and their number.
pub fn count_line(s: Section, n: u32) -> Line
    ensures { result ≡ held_line 0 (Field.Letter (about s).letter ∷ Field.Plus n ∷ []) }
{
    let letter = section_letter(s);
    let no = Slot { field: Field::Bad };
    let fields = [
        Slot {
            field: Field::Letter(letter),
        },
        Slot {
            field: Field::Plus(n),
        },
        no,
        no,
        no,
        no,
    ];
    Line {
        count: 2,
        next: 0,
        fields,
    }
}
