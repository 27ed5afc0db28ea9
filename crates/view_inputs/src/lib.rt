//! What the inputs of a run say beyond what is judged of them, where they say it, and what was read
//! otherwise than its writer may have meant, or not at all ([`notices_on`]). None of that is a
//! refusal, and none of it changes what is judged.
//!
//! [`identity_in`] is what a message says of itself, and [`place_of`] where the inputs order a
//! step. [`cells_in`] and [`tanks_in`] are the records of a ship's cells and tanks, [`document`]
//! her ship.toml.
#![tactic(auto)]

mod cargo;
mod case_notices;
mod cells;
mod entries;
mod groups;
mod identity;
mod keys;
mod messages;
mod notices;
mod occurs;
mod places;
mod readings;
mod tags;
mod tanks;

pub use cargo::{Berth, Cargo, NOBODY, arrive, do_step, item_of};
pub use case_notices::{Marks, cargo_notices, marks_of, notices_on};
pub use cells::{CellRow, DECK, cell_named, cell_text, cells_in};
pub use entries::{Entry, entries_of};
pub use groups::{Gathering, Located, Weighed};
pub use identity::{Identity, first_of, identity_in, identity_line};
pub use keys::{
    ARRAYS, ArrayKeys, KeyLimits, SHIP, document, elements, line_beginning, number_in, table_at,
    text_in, unread_keys,
};
pub use messages::{MessageText, Names, line_at, messages_of, raw_shown};
pub use notices::{Notice, Notices, add_notices, message_notices};
pub use occurs::Occurs;
pub use places::{StepPlace, lifts_of, place_of};
pub use readings::{items_read, lifts_read, rows_read};
pub use tanks::{Filling, TankRows, tanks_in};
