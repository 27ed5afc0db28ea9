ghost use Rattle.std.specs.Prelude.{◌≡◌, ◌++◌, [], None, IfOk, OnOk, slice_index_or};
ghost use Rattle.criteria.specs.Least.{IsLeast};
ghost use Rattle.view_curves.specs.Series.{figure_of};

use crate::loads::Reaches;
use criteria::Exact;
use ship_profile::{Frames, Profile};
use std::alloc::{AllocError, Global};
use std::marker::Model;
use strength::Strains;
use units_core::{Frac, floor};
use view_figures::most_used;

/// What is drawn of a condition within the ship's tables, as the report prints it: lengths in mm,
/// the list in ten-thousandths, loads in percent of their limits.
#[derive(Clone, Copy, Debug, PartialEq, Eq)]
pub struct Plotted {
    pub gm: i128,
    /// The list, which there is where the metacentric height is positive.
    pub list: Option<i128>,
    pub aft: i128,
    pub fwd: i128,
    pub trim: i128,
    /// The greatest part that is used at any frame, as [`percent_of`](crate::percent_of) has it.
    pub shear: i128,
    pub bending: i128,
}

/// A figure that is drawn.
#[derive(Clone, Copy, Debug, PartialEq, Eq)]
pub enum Figure {
    Gm,
    List,
    Aft,
    Fwd,
    Trim,
    Shear,
    Bending,
}

/// What is told of each condition beside the figures of the report.
#[derive(Drop)]
pub struct Beside {
    /// The least metacentric height at its displacement, in mm and rounded down; none where the
    /// ship has no such limits.
    pub least_gm: Vec<Option<i128>>,
    /// How much of a limit it uses at most; none where no number tells.
    pub shares: Vec<Option<Frac>>,
    /// The loads at each frame over all of them.
    pub reaches: Reaches,
    /// The loads on arrival, if that condition is among them and within the tables.
    pub arrival: Option<Strains>,
}

/// The figures that are drawn of each condition, in their order; none of one outside of the ship's
/// tables.
#[derive(Drop)]
pub struct Series {
    pub(crate) plotted: Vec<Option<Plotted>>,
    pub(crate) beside: Beside,
}

impl Model for Series {
    ghost use Rattle.std.specs.Prelude.{List, Option};
    ghost use Rattle.view_curves.specs.declared.series.Plotted.{Plotted};

    ghost Value = { List (Option Plotted) };

    ghost view = { λ s. s.plotted.items };
}

impl Plotted {
    /// A figure of a condition, if it has one.
    pub fn figure(&self, figure: Figure) -> Option<i128>
        ensures { result ≡ figure_of figure self.now }
    {
        match figure {
            Figure::Gm => Some(self.gm),
            Figure::List => self.list,
            Figure::Aft => Some(self.aft),
            Figure::Fwd => Some(self.fwd),
            Figure::Trim => Some(self.trim),
            Figure::Shear => Some(self.shear),
            Figure::Bending => Some(self.bending),
        }
    }
}

impl Series {
    /// No condition, and room for so many.
    pub(crate) fn with_capacity(alloc: Global, conditions: usize) -> Result<Series, AllocError>
        ensures { IfOk result (λ s. s ≡ []) }
    {
        let plotted = Vec::with_capacity(alloc, conditions)?;
        let beside = Beside::with_capacity(alloc, conditions)?;
        Ok(Series { plotted, beside })
    }

    /// The figures of the conditions.
    pub fn figures(&self) -> &[Option<Plotted>]
        ensures { result.now ≡ self.now }
    {
        &self.plotted
    }

    /// The figures of the condition of a step, if it lies within the ship's tables.
    pub fn at(&self, step: u32) -> Option<Plotted>
        ensures { result ≡ slice_index_or self.now step None }
    {
        *self.plotted.get(step as usize)?
    }

    /// What is told beside the figures.
    pub fn beside(&self) -> &Beside {
        &self.beside
    }

    /// Adds the conditions of others behind.
    pub(crate) fn append(&mut self, behind: &Series, frames: &Frames) -> Result<(), AllocError>
        ensures { OnOk result (self.new ≡ self.old ++ behind.now) }
    {
        self.plotted.extend_from_slice(&behind.plotted)?;
        self.beside.append(&behind.beside, frames)
    }
}

impl Beside {
    /// No condition, and room for so many.
    pub(crate) fn with_capacity(alloc: Global, conditions: usize) -> Result<Beside, AllocError> {
        let least_gm = Vec::with_capacity(alloc, conditions)?;
        let shares = Vec::with_capacity(alloc, conditions)?;
        Ok(Beside {
            least_gm,
            shares,
            reaches: Reaches::default(),
            arrival: None,
        })
    }

    /// Notes the condition of step `k`, which lies within the ship's tables.
    pub(crate) fn note(
        &mut self,
        profile: &Profile,
        exact: &Exact,
        strains: &Strains,
        k: u32,
    ) -> Result<(), AllocError>
        requires length { exact.now.afloat.lbp ≡ profile.now.ship.lbp }
        requires least { IsLeast exact.now.least }
    {
        self.shares.push(most_used(profile, exact, strains))?;
        self.least_gm.push(match exact.least {
            Some(least) => Some(floor(least)),
            None => None,
        })?;
        self.reaches.note(strains, k, profile.frames());
        if k == 0 {
            self.arrival = Some(*strains);
        }
        Ok(())
    }

    /// Notes a condition outside of the ship's tables.
    pub(crate) fn note_outside(&mut self) -> Result<(), AllocError> {
        self.shares.push(None)?;
        self.least_gm.push(None)?;
        Ok(())
    }

    /// Adds what is told of others behind.
    fn append(&mut self, behind: &Beside, frames: &Frames) -> Result<(), AllocError> {
        self.least_gm.extend_from_slice(&behind.least_gm)?;
        self.shares.extend_from_slice(&behind.shares)?;
        self.reaches.join(&behind.reaches, frames);
        if self.arrival.is_none() {
            self.arrival = behind.arrival;
        }
        Ok(())
    }
}
