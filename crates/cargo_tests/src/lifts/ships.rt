//! The cells of the box ship.
use units_core::Cell;

/// The cell 0010082, of 20 feet.
pub const FORE: Cell = Cell {
    bay: 1,
    row: 0,
    tier: 82,
};

/// The cell 0020082, of 40 feet over 0010082 and 0030082.
pub const LONG: Cell = Cell {
    bay: 2,
    row: 0,
    tier: 82,
};

/// The cell 0030082, of 20 feet.
pub const MIDDLE: Cell = Cell {
    bay: 3,
    row: 0,
    tier: 82,
};

/// The cell 0030782, beside it.
pub const BESIDE: Cell = Cell {
    bay: 3,
    row: 7,
    tier: 82,
};

/// The cell 0050082, of 20 feet.
pub const AFT: Cell = Cell {
    bay: 5,
    row: 0,
    tier: 82,
};

/// The cell 0990082, which the ship hasn't.
pub const ASHORE: Cell = Cell {
    bay: 99,
    row: 0,
    tier: 82,
};
