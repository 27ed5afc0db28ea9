ghost use Rattle.std.specs.Prelude.{◌≡◌};
ghost use Rattle.ship_tables.specs.Tables.{form_of};
ghost use Rattle.ship_tables.specs.Record.{cells_form, hydro_form, levers_form, tanks_form};
ghost use Rattle.ship_tables.specs.Record.{least_gm_form};

use crate::extents::Extent;
use crate::faults::File;
use crate::layouts::{Column, Layout, Rule, Stands};

/// The greatest length, in mm.
pub const MAX_LENGTH: i64 = 1_000_000;

/// The greatest number of cells of a ship.
pub const MAX_CELLS: u16 = 30_000;

/// A length in mm along one of the ship's axes.
const LENGTH: Column = Column::Number {
    low: -MAX_LENGTH,
    high: MAX_LENGTH,
};

/// A length in mm that is not below 0.
const SIZE: Column = Column::Number {
    low: 0,
    high: MAX_LENGTH,
};

/// A draught in mm.
pub const DRAUGHT: Column = Column::Number {
    low: 0,
    high: 100_000,
};

/// The area of a frame up to a draught, in cm2.
pub const AREA: Column = Column::Number {
    low: 0,
    high: 100_000_000,
};

/// A displacement in kg, or a moment in kg mm that changes the trim by 1 mm.
const POSITIVE: Column = Column::Number {
    low: 1,
    high: 1_000_000_000,
};

/// The mass of a tank's filling, in kg.
const FILLING: Column = Column::Number {
    low: 0,
    high: 1_000_000_000,
};

/// The free surface moment of a tank's filling, in kg mm.
const FREE_SURFACE: Column = Column::Number {
    low: 0,
    high: 1_000_000_000_000,
};

/// The number of angles of heel at which the righting levers are given: 0, 5, .., 60 degrees.
pub const ANGLES: usize = 13;

/// The greatest step of a mass from row to row, in kg.
const MAX_GAP: i64 = 100_000_000;

/// `cells.csv`: the cell, then x, y, z and half of the container that is in it.
pub fn cells_layout(extent: Extent) -> Layout<'static>
    ensures { form_of result ≡ cells_form extent }
{
    Layout {
        file: File::Cells,
        columns: &[Column::Cell, LENGTH, LENGTH, LENGTH, SIZE],
        least: 1,
        most: MAX_CELLS,
        rule: Rule::Distinct,
        stands: Some(Stands {
            extent,
            x: 1,
            half: 4,
        }),
    }
}

/// `hydro.csv`: displacement, draught, height of the transverse metacentre, centres of buoyancy and
/// of flotation, moment to change the trim.
pub fn hydro_layout() -> Layout<'static>
    ensures { form_of result ≡ hydro_form }
{
    Layout {
        file: File::Hydro,
        columns: &[POSITIVE, DRAUGHT, SIZE, LENGTH, LENGTH, POSITIVE],
        least: 2,
        most: 200,
        rule: Rule::Rising { gap: Some(MAX_GAP) },
        stands: None,
    }
}

/// `kn.csv`: displacement, and the righting levers at 0, 5, .., 60 degrees of heel.
pub fn levers_layout() -> Layout<'static>
    ensures { form_of result ≡ levers_form }
{
    Layout {
        file: File::Levers,
        columns: &[
            POSITIVE, SIZE, SIZE, SIZE, SIZE, SIZE, SIZE, SIZE, SIZE, SIZE, SIZE, SIZE, SIZE, SIZE,
        ],
        least: 2,
        most: 64,
        rule: Rule::Rising { gap: Some(MAX_GAP) },
        stands: None,
    }
}

/// `bonjean.csv`, by its columns: draught, and an area for each station.
pub fn bonjean_layout(columns: &[Column]) -> Layout<'_>
    ensures { form_of result ≡ record {
      file = File.Bonjean;
      columns = columns.now;
      least = 2;
      most = 64;
      rule = Rule.Rising None;
      stands = None;
    } }
{
    Layout {
        file: File::Bonjean,
        columns,
        least: 2,
        most: 64,
        rule: Rule::Rising { gap: None },
        stands: None,
    }
}

/// `tanks.csv`: the tank's name, the mass of its filling, x, y, z and half of it, its free surface
/// moment.
pub fn tanks_layout(extent: Extent) -> Layout<'static>
    ensures { form_of result ≡ tanks_form extent }
{
    Layout {
        file: File::Tanks,
        columns: &[
            Column::Name,
            FILLING,
            LENGTH,
            LENGTH,
            LENGTH,
            SIZE,
            FREE_SURFACE,
        ],
        least: 2,
        most: 64,
        rule: Rule::Together {
            gap: MAX_GAP,
            tables: 200,
        },
        stands: Some(Stands {
            extent,
            x: 2,
            half: 5,
        }),
    }
}

/// `gm.csv`: displacement, and the least metacentric height at it.
pub fn least_gm_layout() -> Layout<'static>
    ensures { form_of result ≡ least_gm_form }
{
    Layout {
        file: File::LeastGm,
        columns: &[POSITIVE, SIZE],
        least: 2,
        most: 200,
        rule: Rule::Rising { gap: Some(MAX_GAP) },
        stands: None,
    }
}
