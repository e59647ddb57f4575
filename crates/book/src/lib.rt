// The printed tables of ROM 0.4-95 for walls, gable roofs, single slopes and flat roofs, and the coefficient of one
// zone or local of a building.
#![tactic(auto)]

ghost use Rattle.std.specs.Prelude.{◌≡◌};
ghost use Rattle.book.specs.Question.{outside_of, net_of};
ghost use Rattle.book.specs.Zones.{wall_four, roof_four};

use building::Dated;
use verdict::Verdict;

mod line;
mod question;
mod roofs;
mod walls;
mod zones;

// A coefficient's alternatives in thousandths, in order.
#[derive(Clone, Copy)]
pub enum Values {
    One(i32),
    Two(i32, i32),
}

// A coefficient and where it comes from: it lies between the rows with these numbers of its table, `part` / `whole`
// of the way from `lower` to `upper`, in lowest terms. On a row itself both are that row, and the fraction is 0 / 1.
#[derive(Clone, Copy)]
pub struct Cited {
    pub values: Values,
    pub lower: u32,
    pub upper: u32,
    pub part: u32,
    pub whole: u32,
}

// A coefficient; or the refusal.
pub type Answer = Result<Cited, Verdict>;

// The outside coefficient of a zone or local.
pub fn outside(d: Dated, direction: i64, place: u8) -> Answer
    ensures { result ≡ outside_of d.year d.building direction place }
{
    let s = building::asked(d, direction, place)?;
    Ok(question::coefficient(s, whole::magnitude(direction), place))
}

// The first and the last of a zone's outside coefficients, in thousandths: one that it has alone is both.
#[derive(Clone, Copy)]
pub struct Ends {
    pub first: i32,
    pub last: i32,
}

// Those of four zones, in their order: zeros for one whose question is refused.
#[derive(Clone, Copy)]
pub struct Four {
    pub first: Ends,
    pub second: Ends,
    pub third: Ends,
    pub fourth: Ends,
}

// The outside coefficients of the walls' zones, A to D.
pub fn wall_zones(d: Dated, direction: i64) -> Four
    ensures { result ≡ wall_four d.year d.building direction }
{
    match building::sized(d) {
        Ok(s) => zones::wall_half(s, direction),
        Err(_) => zones::no_zones(),
    }
}

// Those of the roof's zones, E to H.
pub fn roof_zones(d: Dated, direction: i64) -> Four
    ensures { result ≡ roof_four d.year d.building direction }
{
    match building::sized(d) {
        Ok(s) => zones::roof_half(s, d.building.kind, direction),
        Err(_) => zones::no_zones(),
    }
}

// The net coefficient: the outside one less the internal one, which is in hundredths.
pub fn net(d: Dated, direction: i64, place: u8, internal: i64) -> Answer
    ensures { result ≡ net_of d.year d.building direction place internal }
{
    let c = outside(d, direction, place)?;
    if question::too_great(internal) {
        return Err(Verdict { number: 3, line: 0 });
    }
    Ok(question::net_cited(c, internal))
}
