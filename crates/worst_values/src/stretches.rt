ghost use Rattle.std.specs.Prelude.{◌≡◌, ◌^◌, ◌<◌, [], ◌∷◌, ◌++◌, OnOk, Some, length};
ghost use Rattle.std.specs.Prelude.{if◌then◌else◌};
ghost use Rattle.criteria.specs.Criteria.{criteria};
ghost use Rattle.worst_values.specs.Firsts.{first_marked, first_unmet};
ghost use Rattle.worst_values.specs.Stretches.{lines_of, lines_of_all};

use crate::unmet::{NOTHING_UNMET, Unmet};
use criteria::Criterion;
use std::alloc::{AllocError, Global};
use std::marker::Model;

/// Lines that follow each other and don't meet the same criteria.
#[derive(Clone, Copy, Debug)]
pub struct Stretch {
    /// How many lines.
    pub lines: u32,
    /// What each of them doesn't meet.
    pub unmet: Unmet,
}

/// What each of some lines doesn't meet, in their order: a stretch takes no more room than a line.
#[derive(Debug, Drop)]
pub struct Stretches {
    closed: Vec<Stretch>,
    /// The last one, to which the next line may belong.
    last: Stretch,
}

impl Model for Stretches {
    ghost use Rattle.std.specs.Prelude.{Bool, List, ◌++◌};
    ghost use Rattle.worst_values.specs.Stretches.{lines_of, lines_of_all};

    ghost Value = { List (List Bool) };

    ghost view = { λ s. lines_of_all s.closed.items ++ lines_of s.last };
}

/// A criterion, if it is marked, else what was found behind it.
fn criterion_or(
    is_marked: bool,
    criterion: Criterion,
    behind: Option<Criterion>,
) -> Option<Criterion>
    ensures { result ≡ (if is_marked then Some criterion else behind) }
{
    if is_marked { Some(criterion) } else { behind }
}

/// The first criterion that is marked as not met.
#[rattlefmt::skip]
fn first_marked(unmet: &Unmet) -> Option<Criterion>
    ensures { result ≡ first_marked criteria unmet.now }
{
    let [c0, c1, c2, c3, c4, c5, c6, c7, c8, c9, c10, c11, _, _, _, _, _] = *unmet;
    let found = criterion_or(c11, Criterion::C11, None);
    let found = criterion_or(c10, Criterion::C10, found);
    let found = criterion_or(c9, Criterion::C9, found);
    let found = criterion_or(c8, Criterion::C8, found);
    let found = criterion_or(c7, Criterion::C7, found);
    let found = criterion_or(c6, Criterion::C6, found);
    let found = criterion_or(c5, Criterion::C5, found);
    let found = criterion_or(c4, Criterion::C4, found);
    let found = criterion_or(c3, Criterion::C3, found);
    let found = criterion_or(c2, Criterion::C2, found);
    let found = criterion_or(c1, Criterion::C1, found);
    criterion_or(c0, Criterion::C0, found)
}

/// The first line of a stretch that doesn't meet some criterion, where its first line is this.
fn first_in(stretch: &Stretch, line: u32) -> Option<(u32, Criterion)>
    ensures { result ≡ first_unmet line (lines_of stretch.now) }
{
    if stretch.lines == 0 {
        return None;
    }
    match first_marked(&stretch.unmet) {
        Some(criterion) => Some((line, criterion)),
        None => None,
    }
}

impl Stretches {
    /// No line.
    pub(crate) fn new(alloc: Global) -> Stretches
        ensures { result ≡ [] }
    {
        Stretches {
            closed: Vec::new(alloc),
            last: Stretch {
                lines: 0,
                unmet: NOTHING_UNMET,
            },
        }
    }

    /// Adds lines behind which all don't meet the same.
    fn add(&mut self, next: &Stretch) -> Result<(), AllocError>
        ensures { OnOk result (self.new ≡ self.old ++ lines_of next.now) }
    {
        if self.last.unmet == next.unmet {
            if let Some(lines) = self.last.lines.checked_add(next.lines) {
                self.last.lines = lines;
                return Ok(());
            }
        }
        self.closed.push(self.last)?;
        self.last = *next;
        Ok(())
    }

    /// Adds a line behind.
    pub(crate) fn push(&mut self, unmet: Unmet) -> Result<(), AllocError>
        ensures { OnOk result (self.new ≡ self.old ++ unmet ∷ []) }
    {
        self.add(&Stretch { lines: 1, unmet })
    }

    /// Adds all lines of others behind.
    pub(crate) fn append(&mut self, behind: &Stretches) -> Result<(), AllocError>
        ensures { OnOk result (self.new ≡ self.old ++ behind.now) }
    {
        for k in 0..behind.closed.len() {
            self.add(&behind.closed[k])?;
        }
        self.add(&behind.last)
    }

    /// The first line that doesn't meet some criterion, with the first that it doesn't meet.
    pub(crate) fn first_failing(&self) -> Option<(u32, Criterion)>
        requires { length self.now < 2 ^ 32 }
        ensures { result ≡ first_unmet 0 self.now }
    {
        let mut line = 0u32;
        for k in 0..self.closed.len() {
            let stretch = self.closed[k];
            match first_in(&stretch, line) {
                Some(first) => return Some(first),
                None => line += stretch.lines,
            }
        }
        first_in(&self.last, line)
    }

    /// The stretches in their order, but for the last one, and that one, which has no line where
    /// there is none.
    pub fn parts(&self) -> (&[Stretch], &Stretch)
        ensures { self.now ≡ lines_of_all result.0.now ++ lines_of result.1.now }
    {
        (&self.closed, &self.last)
    }
}
