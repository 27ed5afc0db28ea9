ghost use Rattle.std.specs.Prelude.{◌≡◌, ◌≢◌, Ok, Err, IfOk, IfErr};
ghost use Rattle.toml.specs.View.{view, table_view};
ghost use Rattle.ship_profile.specs.Ship.{frame_in, frame_of, frames_of, is_one_of, AreFrames};

use crate::arrays::{Element, elements_at};
use crate::faults::{Key, ProfileFault};
use crate::keys::{MAX_KG, length_in_table, number_in_table, table_of};
use crate::stations::is_above;
use ship_tables::File;
use std::alloc::Global;
use toml::{Table, Value};
use units_core::{Frame, Frames, Mm};

/// The greatest bending moment, in kg mm.
const MAX_BENDING: i64 = 1_000_000_000_000_000;

/// Frames, each above the one before it and at a station.
#[derive(Clone, Copy)]
struct FrameRule<'a> {
    stations: &'a [Mm],
}

/// The frame that a table says.
fn read_frame(table: &Table) -> Result<Frame, ProfileFault>
    ensures { result ≡ frame_in (table_view table.now) }
{
    let x = length_in_table(table, Key::Frames, "x_mm")?;
    let shear_max = number_in_table(table, Key::Frames, "shear_max_kg", 0, MAX_KG)?;
    let hog_max = number_in_table(table, Key::Frames, "hog_max_kgmm", 0, MAX_BENDING)?;
    let sag_max = number_in_table(table, Key::Frames, "sag_max_kgmm", 0, MAX_BENDING)?;
    Ok(Frame {
        x,
        shear_max,
        hog_max,
        sag_max,
    })
}

/// Whether x is one of these.
fn is_one_of(stations: &[Mm], x: Mm) -> bool
    ensures { result ≡ is_one_of stations.now x }
{
    stations.iter().any(|station| *station == x)
}

impl<'a> Element for FrameRule<'a> {
    type Item = Frame;

    ghost next = { λ s before d. frame_of s.stations.now before d };

    fn read(&self, _alloc: Global, before: &[Frame], value: &Value) -> Result<Frame, ProfileFault> {
        let table = table_of(value, Key::Frames)?;
        let frame = read_frame(table)?;
        let last = before.last().map(|frame| frame.x);
        if !is_above(last, frame.x) {
            return Err(ProfileFault::NotRising(File::Ship, 0));
        }
        if !is_one_of(self.stations, frame.x) {
            return Err(ProfileFault::FrameNotStation(before.len() as u32 + 1));
        }
        Ok(frame)
    }
}

/// The frames of a document.
pub fn read_frames(alloc: Global, stations: &[Mm], table: &Table) -> Result<Frames, ProfileFault>
    ensures ok { IfOk result (λ f. frames_of stations.now (table_view table.now) ≡ Ok f) }
    ensures refused { IfErr result
        (λ e. e ≢ ProfileFault.NoMemory → frames_of stations.now (table_view table.now) ≡ Err e) }
    ensures meaning { IfOk result (λ f. AreFrames stations.now f) }
{
    let frames = elements_at(alloc, &FrameRule { stations }, Key::Frames, 1, 16, table)?;
    Ok(Frames::new(frames))
}
