//! What a session is held with, and what it is between two lines.
ghost use Rattle.std.specs.Prelude.{◌≡◌};
ghost use Rattle.what_if.specs.Bases.{report_on};

use claim_run::Workers;
use criteria::Criterion;
use port_call::Inputs;
use view_session::{Shelf, Tried};
use view_texts::{RowText, Sources};

/// What a session is held with.
#[derive(Clone, Copy)]
pub struct Setting<'a> {
    pub workers: Workers,
    /// How many conditions are judged at a time.
    pub chunk: u32,
    pub inputs: &'a Inputs<'a>,
    pub sources: &'a Sources,
    /// The folder to which orders are published, if there is one.
    pub desk: Option<&'a str>,
}

/// A session as it is between two lines.
#[derive(Drop)]
pub struct Sitting {
    pub tried: Tried,
    pub shelf: Shelf,
    /// Each limit of its list at its worst.
    pub rows: Vec<RowText>,
    /// The first condition that fails.
    pub first: Option<(u32, Criterion)>,
    /// How many edits and undos were tried.
    pub count: u64,
    /// The greatest number of a publication in the folder that was seen to be taken.
    pub taken: u64,
    pub ghost base: { tried.session.base ≡ shelf.base },
    pub ghost told: { first ≡ (report_on tried.session.base tried.session.ops).summary.first },
}
