//! Figures of a profile in print.
use crate::checks::same;
use box_ship::{Check, on_box_ship};
use ship_profile::Profile;
use std::process::Abort;
use std::test::Fail;
use units_core::{Body, Frame, Mm, Place};
use view_quotes::{
    FrameColumn, HydroColumn, ShipLimit, column_ends, column_number, frame_in_print,
    hydro_in_print, limit_in_print, metres, reach_in_metres, reach_in_tonnes, surface,
    tenths_of_tonnes, tonne_metres, tonnes, trimming_moment, whole_tonnes,
};

/// What isn't printed is cut, toward the smaller number: 1,234,567 kg are 1,234.567 t, and 1 kg
/// below 0 is a tenth of a tonne below it.
#[test]
fn masses_in_print(rt: HostRuntime) -> Result<(), Fail> {
    let alloc = rt.alloc();
    same(&rt, tonnes(alloc, 1_234_567)?.as_str(), "1234.567");
    same(&rt, tenths_of_tonnes(alloc, 1_234_567)?.as_str(), "1234.5");
    same(&rt, tenths_of_tonnes(alloc, -1)?.as_str(), "-0.1");
    same(&rt, whole_tonnes(alloc, 1_999)?.as_str(), "1");
    Ok(())
}

/// 1 t m is 10^6 kg mm, and 1 t m for each cm of trim 10^5 kg mm for each mm.
#[test]
fn lengths_and_moments_in_print(rt: HostRuntime) -> Result<(), Fail> {
    let alloc = rt.alloc();
    same(&rt, metres(alloc, 12_345)?.as_str(), "12.345");
    same(&rt, tonne_metres(alloc, 1_234_567_890)?.as_str(), "1234.5");
    same(&rt, trimming_moment(alloc, 17_123_456)?.as_str(), "171.2");
    Ok(())
}

/// A number of a column, one that isn't there, and the two ends.
#[test]
fn columns(rt: HostRuntime) {
    same(&rt, column_number(&[3, 5, 8], 1), 5);
    same(&rt, column_number(&[3, 5, 8], 3), 0);
    same(&rt, column_ends(&[3, 5, 8]), (3, 8));
}

/// A length that fits.
fn mm(number: i32) -> Result<Mm, Fail> {
    Ok(Mm::new(number).ok_or("a length")?)
}

/// The numbers of a frame.
#[test]
fn frames_in_print(rt: HostRuntime) -> Result<(), Fail> {
    let alloc = rt.alloc();
    let frame = Frame {
        x: mm(25_250)?,
        shear_max: 12_345,
        hog_max: 1_234_567_890,
        sag_max: 2_345_678_901,
    };
    for (column, text) in [
        (FrameColumn::Place, "25.250"),
        (FrameColumn::Shear, "12.3"),
        (FrameColumn::Hogging, "1234.5"),
        (FrameColumn::Sagging, "2345.6"),
    ] {
        same(&rt, frame_in_print(alloc, &frame, column)?.as_str(), text);
    }
    Ok(())
}

/// A free surface moment of 123,456 kg mm is 0.123.. t m, which is rounded up.
#[test]
fn surfaces_in_print(rt: HostRuntime) -> Result<(), Fail> {
    let alloc = rt.alloc();
    let place = Place {
        x: mm(1)?,
        y: mm(2)?,
        z: mm(3)?,
        half: mm(4)?,
    };
    let body = Body::new(5, place, 123_456).ok_or("a body")?;
    same(&rt, surface(alloc, &body)?.as_str(), "0.2");
    Ok(())
}

/// Looks at the limits of the box ship, and at her hydrostatic table.
#[derive(Clone, Copy)]
struct Printed;

impl<R: AllocGlobal + Abort> Check<R> for Printed {
    fn check(&self, rt: &R, profile: &Profile) -> Result<(), Fail> {
        let alloc = rt.alloc();
        for (limit, text) in [
            (ShipLimit::Length, "100.000"),
            (ShipLimit::GreatestDraught, "6.100"),
            (ShipLimit::GreatestTrim, "0.500"),
            (ShipLimit::GreatestClosing, "5.000"),
        ] {
            same(rt, limit_in_print(alloc, profile, limit)?.as_str(), text);
        }
        let hydro = profile.hydro();
        for (column, text) in [
            (HydroColumn::Displacement, "8200.0"),
            (HydroColumn::Draught, "4.000"),
            (HydroColumn::Kmt, "10.333"),
            (HydroColumn::Lcb, "50.000"),
            (HydroColumn::Lcf, "50.000"),
            (HydroColumn::Mct, "170.0"),
        ] {
            same(rt, hydro_in_print(alloc, hydro, column, 1)?.as_str(), text);
        }
        let masses = reach_in_tonnes(alloc, hydro.kg())?;
        same(rt, masses.first.as_str(), "4100");
        same(rt, masses.last.as_str(), "12300");
        let draughts = reach_in_metres(alloc, hydro.draught())?;
        same(rt, draughts.first.as_str(), "2.000");
        same(rt, draughts.last.as_str(), "6.000");
        Ok(())
    }
}

#[test]
fn limits_and_tables_in_print(rt: HostRuntime) -> Result<(), Fail> {
    on_box_ship(&rt, &Printed)
}
