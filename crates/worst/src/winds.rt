// The winds of the six cases that were found, each with the coefficients that zone F has under it.
ghost use Rattle.std.specs.Prelude.{◌≡◌};
ghost use Rattle.building.specs.Places.{F};
ghost use Rattle.worst.specs.declared.Axis.{Axis};
ghost use Rattle.worst.specs.declared.Side.{Side};
ghost use Rattle.worst.specs.Engine.{top_at, case_wind, six_winds};
ghost use Rattle.worst.specs.Small.{Reached};
ghost use Rattle.worst.specs.Table.{Placed};

use crate::outside::{Outside, Table};
use crate::tops::Ends;
use entry::Wind;
use job::Winds;

#[derive(Clone, Copy)]
pub struct CaseWind {
    pub wind: Wind,
    pub outside: Outside,
}

// Those of the two cases of an axis, and of all.
#[derive(Clone, Copy)]
pub struct CaseWinds {
    pub greatest: CaseWind,
    pub least: CaseWind,
}

#[derive(Clone, Copy)]
pub struct SixWinds {
    pub x: CaseWinds,
    pub y: CaseWinds,
    pub z: CaseWinds,
}

fn case_wind(table: &mut Table, wind: Wind) -> CaseWind
    requires { Placed wind.direction F }
    ensures { (result ≡ case_wind table.old.building wind) × (table.new.building ≡ table.old.building) }
{
    let outside = table.found(wind, b'F');
    CaseWind { wind, outside }
}

fn case_winds(table: &mut Table, up: Wind, down: Wind) -> CaseWinds
    requires { Placed up.direction F × Placed down.direction F }
    ensures { (result
        ≡ record { greatest = case_wind table.old.building up; least = case_wind table.old.building down })
        × (table.new.building ≡ table.old.building) }
{
    let greatest = case_wind(table, up);
    let least = case_wind(table, down);
    CaseWinds { greatest, least }
}

pub(crate) fn six_winds(table: &mut Table, winds: Winds, ends: Ends) -> SixWinds
    requires { (axis : Axis) (s : Side) → Reached winds (top_at axis s ends) }
    ensures { result ≡ six_winds table.old.building winds ends }
{
    let x_up = winds.entry[(ends.x.greatest.wind - 1) as usize];
    let x_down = winds.entry[(ends.x.least.wind - 1) as usize];
    let y_up = winds.entry[(ends.y.greatest.wind - 1) as usize];
    let y_down = winds.entry[(ends.y.least.wind - 1) as usize];
    let z_up = winds.entry[(ends.z.greatest.wind - 1) as usize];
    let z_down = winds.entry[(ends.z.least.wind - 1) as usize];
    let x = case_winds(table, x_up, x_down);
    let y = case_winds(table, y_up, y_down);
    let z = case_winds(table, z_up, z_down);
    SixWinds { x, y, z }
}
