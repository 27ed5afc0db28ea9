ghost use Rattle.std.specs.Prelude.{◌≡◌, ◌++◌, ◌∷◌, ◌-◌, ◌+◌, ◌*◌, ◌<◌, ◌≤◌, OnOk, Some, length};
ghost use Rattle.std.specs.Prelude.{string_bytes};
ghost use Rattle.criteria.specs.Judgement.{read};
ghost use Rattle.seq_report.specs.Columns.{figures_text, frames_text, heading_of, headings_text};
ghost use Rattle.seq_report.specs.Columns.{number_text, numbers_text};

use criteria::RoundedFigures;
use decimal_text::BackwardText;
use std::alloc::AllocError;
use std::fmt::Write;

/// A column of figures.
#[derive(Clone, Copy, Debug, PartialEq, Eq)]
pub enum Column {
    /// The metacentric height, corrected for free surfaces, in mm.
    Gm,
    /// The mean draught, in mm.
    Mean,
    /// The draught at the after perpendicular, in mm.
    Aft,
    /// The draught at the forward perpendicular, in mm.
    Fwd,
    /// The trim, by the stern positive, in mm.
    Trim,
    /// The list to starboard, in ten-thousandths of the tangent.
    List,
    /// The area under the righting levers from 0 to 30 degrees, in mm degrees.
    AreaTo30,
    /// From 0 to 40 degrees.
    AreaTo40,
    /// From 30 to 40 degrees.
    Area30To40,
    /// The greatest lever from 30 to 60 degrees, in mm.
    Lever,
    /// The least angle that carries the greatest lever, in degrees.
    Angle,
    /// The closing error, in kg.
    Closing,
}

/// The columns of figures, in the order of a line.
const COLUMNS: [Column; 12] = [
    Column::Gm,
    Column::Mean,
    Column::Aft,
    Column::Fwd,
    Column::Trim,
    Column::List,
    Column::AreaTo30,
    Column::AreaTo40,
    Column::Area30To40,
    Column::Lever,
    Column::Angle,
    Column::Closing,
];

impl Column {
    fn heading(self) -> &'static str
        ensures { result.now ≡ heading_of self }
    {
        match self {
            Column::Gm => "GM",
            Column::Mean => "MEAN",
            Column::Aft => "AFT",
            Column::Fwd => "FWD",
            Column::Trim => "TRIM",
            Column::List => "LIST",
            Column::AreaTo30 => "A30",
            Column::AreaTo40 => "A40",
            Column::Area30To40 => "A3040",
            Column::Lever => "GZ",
            Column::Angle => "ANGLE",
            Column::Closing => "CLOSE",
        }
    }
}

/// Writes the headings of the columns of figures, each behind a space.
pub fn write_headings(text: &mut String) -> Result<(), AllocError>
    ensures { OnOk result (string_bytes text.new ≡ string_bytes text.old ++ headings_text) }
{
    for column in COLUMNS {
        let heading = column.heading();
        write!(text, " {heading}")?;
    }
    Ok(())
}

/// Writes the list, or a dash where there is none, behind a space, before the line.
fn put_list(line: &mut BackwardText<'_>, list: Option<i128>)
    requires room { length line.old + 41 ≤ 2048 }
    ensures text { line.new ≡ (32 ∷ number_text list) ++ line.old }
    ensures short { length line.new ≤ length line.old + 41 }
{
    match list {
        Some(number) => line.put_parted(b' ', number),
        None => {
            line.put_byte(b'-');
            line.put_byte(b' ');
        }
    }
}

/// Writes the figures of the columns, each behind a space, before the line: those behind the list,
/// the list, if there is one, and those before it.
fn put_numbers(line: &mut BackwardText<'_>, figures: &RoundedFigures)
    requires room { length line.old + 492 ≤ 2048 }
    ensures text { line.new ≡ numbers_text (read figures.now) ++ line.old }
    ensures short { length line.new ≤ length line.old + 492 }
{
    let behind = [
        figures.area_30,
        figures.area_40,
        figures.area_30_40,
        figures.lever,
        figures.angle as i128,
        i128::from(figures.strains.closing),
    ];
    line.put_each(b' ', &behind);
    put_list(line, figures.list);
    let before = [
        figures.gm,
        figures.mean,
        figures.aft,
        figures.fwd,
        figures.trim,
    ];
    line.put_each(b' ', &before);
}

/// Writes the shear forces and bending moments at the first `frames` frames, behind a space, before
/// the line.
fn put_frames(line: &mut BackwardText<'_>, figures: &RoundedFigures, frames: usize)
    requires some { 1 ≤ frames }
    requires few { frames ≤ 16 }
    requires room { length line.old + 1312 ≤ 2048 }
    ensures text { line.new ≡ frames_text (read figures.now) frames ++ line.old }
    ensures short { length line.new ≤ length line.old + 1312 }
{
    let strains = &figures.strains;
    line.put_pairs(
        b' ',
        b';',
        b'/',
        &strains.shear,
        &strains.bending,
        frames - 1,
    );
}

/// Writes all figures of a line, each behind a space, before the rest of the line.
pub fn put_figures(line: &mut BackwardText<'_>, figures: &RoundedFigures, frames: usize)
    requires some { 1 ≤ frames }
    requires few { frames ≤ 16 }
    requires room { length line.old + 1804 ≤ 2048 }
    ensures text { line.new ≡ figures_text frames (read figures.now) ++ line.old }
    ensures short { length line.new ≤ length line.old + 1804 }
{
    put_frames(line, figures, frames);
    put_numbers(line, figures);
}
