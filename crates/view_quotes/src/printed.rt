//! The figures of a profile as they are printed: each is a number that was read, in tonnes and
//! metres, rounded as its definition says.
ghost use Rattle.std.specs.Prelude.{◌≡◌, IfOk, string_bytes};
ghost use Rattle.plain_text.specs.Figures.{thousandths};
ghost use Rattle.view_quotes.specs.Printed.{IsReach, frame_in_print, hydro_in_print};
ghost use Rattle.view_quotes.specs.Printed.{limit_in_print, number_at, surface_up};
ghost use Rattle.view_quotes.specs.Printed.{whole_tonnes as in_whole};

use crate::figures::{
    column_ends, column_number, metres, tenths_of_tonnes, tonne_metres, tonnes, trimming_moment,
    whole_tonnes,
};
use plain_text::in_tenths;
use ship_profile::Profile;
use ship_tables::Hydro;
use std::alloc::{AllocError, Global};
use units_core::{Body, Frame, Mm};

/// A length in metres.
fn length(alloc: Global, mm: Mm) -> Result<String, AllocError>
    ensures { IfOk result (λ text. string_bytes text ≡ thousandths mm) }
{
    let mm = i128::from(mm.get());
    metres(alloc, mm)
}

/// A number of a column in metres; 0 where there is none.
fn metres_at(alloc: Global, numbers: &[i128], place: usize) -> Result<String, AllocError>
    ensures { IfOk result (λ text. string_bytes text ≡ thousandths (number_at numbers.now place)) }
{
    let mm = column_number(numbers, place);
    metres(alloc, mm)
}

/// A number of the ship, which `ship.toml` has.
#[derive(Clone, Copy, Debug)]
pub enum ShipLimit {
    Length,
    GreatestDraught,
    GreatestTrim,
    GreatestClosing,
}

/// A number of the ship in print: lengths in metres, and the closing error in tonnes.
pub fn limit_in_print(
    alloc: Global,
    profile: &Profile,
    limit: ShipLimit,
) -> Result<String, AllocError>
    ensures { IfOk result (λ text. string_bytes text ≡ limit_in_print limit profile.now.ship) }
{
    match limit {
        ShipLimit::Length => length(alloc, profile.lbp()),
        ShipLimit::GreatestDraught => length(alloc, profile.draught_max()),
        ShipLimit::GreatestTrim => length(alloc, profile.trim_max()),
        ShipLimit::GreatestClosing => {
            let kg = i128::from(profile.closing_max());
            tonnes(alloc, kg)
        }
    }
}

/// A number of a frame.
#[derive(Clone, Copy, Debug)]
pub enum FrameColumn {
    Place,
    Shear,
    Hogging,
    Sagging,
}

/// A number of a frame in print: its place in metres, its greatest shear force in tonnes, and its
/// greatest moments in tonne metres.
pub fn frame_in_print(
    alloc: Global,
    frame: &Frame,
    column: FrameColumn,
) -> Result<String, AllocError>
    ensures { IfOk result (λ text. string_bytes text ≡ frame_in_print column frame.now) }
{
    match column {
        FrameColumn::Place => length(alloc, frame.x),
        FrameColumn::Shear => {
            let kg = i128::from(frame.shear_max);
            tenths_of_tonnes(alloc, kg)
        }
        FrameColumn::Hogging => {
            let moment = i128::from(frame.hog_max);
            tonne_metres(alloc, moment)
        }
        FrameColumn::Sagging => {
            let moment = i128::from(frame.sag_max);
            tonne_metres(alloc, moment)
        }
    }
}

/// A column of hydro.csv.
#[derive(Clone, Copy, Debug)]
pub enum HydroColumn {
    Displacement,
    Draught,
    Kmt,
    Lcb,
    Lcf,
    Mct,
}

/// A number of the record of hydro.csv at a place, the first being 0, in print: the displacement in
/// tonnes, lengths in metres, and the moment to trim her by a centimetre in tonne metres.
pub fn hydro_in_print(
    alloc: Global,
    hydro: &Hydro,
    column: HydroColumn,
    place: usize,
) -> Result<String, AllocError>
    ensures { IfOk result (λ text. string_bytes text ≡ hydro_in_print column hydro.now place) }
{
    match column {
        HydroColumn::Displacement => {
            let kg = column_number(hydro.kg(), place);
            tenths_of_tonnes(alloc, kg)
        }
        HydroColumn::Draught => metres_at(alloc, hydro.draught(), place),
        HydroColumn::Kmt => metres_at(alloc, hydro.kmt(), place),
        HydroColumn::Lcb => metres_at(alloc, hydro.lcb(), place),
        HydroColumn::Lcf => metres_at(alloc, hydro.lcf(), place),
        HydroColumn::Mct => {
            let moment = column_number(hydro.mct(), place);
            trimming_moment(alloc, moment)
        }
    }
}

/// The first and the last number of a column.
#[derive(Debug, Drop)]
pub struct Reach {
    pub first: String,
    pub last: String,
}

/// From where to where a column of kilograms reaches, in whole tonnes.
pub fn reach_in_tonnes(alloc: Global, numbers: &[i128]) -> Result<Reach, AllocError>
    ensures { IfOk result (IsReach in_whole numbers.now) }
{
    let (first, last) = column_ends(numbers);
    Ok(Reach {
        first: whole_tonnes(alloc, first)?,
        last: whole_tonnes(alloc, last)?,
    })
}

/// From where to where a column of millimetres reaches, in metres.
pub fn reach_in_metres(alloc: Global, numbers: &[i128]) -> Result<Reach, AllocError>
    ensures { IfOk result (IsReach thousandths numbers.now) }
{
    let (first, last) = column_ends(numbers);
    Ok(Reach {
        first: metres(alloc, first)?,
        last: metres(alloc, last)?,
    })
}

/// The free surface moment of a tank's filling in tonne metres, rounded up.
pub fn surface(alloc: Global, filling: &Body) -> Result<String, AllocError>
    ensures { IfOk result (λ text. string_bytes text ≡ surface_up filling.now.fsm) }
{
    in_tenths(
        alloc,
        (i128::from(filling.fsm()) + 99_999).div_euclid(100_000),
    )
}
