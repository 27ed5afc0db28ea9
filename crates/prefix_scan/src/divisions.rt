ghost use Rattle.std.specs.Prelude.{◌≡◌, ◌<◌, length, slice_index, IfOk, IfErr};
ghost use Rattle.prefix_scan.specs.Cut.{Divides, IsEvery, IsFault, IsFaultOfEvery, IsRising};
ghost use Rattle.prefix_scan.specs.Cut.{start_of};

use std::alloc::{AllocError, Global};
use std::error::Error;
use std::fmt;
use std::marker::Model;
use std::ops::Range;

/// Why a list can't be cut so. It prints as its code, K1 to K4.
#[derive(Clone, Copy, Debug, PartialEq, Eq)]
pub enum CutFault {
    /// No chunk, or a chunk of no length, or nothing to be cut.
    Empty,
    /// An end that isn't above the one before it.
    NotRising,
    /// The last end isn't that of the list.
    WrongEnd,
    /// Out of memory.
    NoMemory,
}

impl fmt::Display for CutFault {
    ghost use Rattle.std.specs.Prelude.{Some};
    ghost use Rattle.prefix_scan.specs.Printed.{cut_fault_text};

    ghost output = { λ fault. Some (cut_fault_text fault) };

    fn fmt<W: fmt::Write>(&self, f: &mut fmt::Formatter<W>) -> fmt::Result {
        f.write_str(match self {
            CutFault::Empty => "K1",
            CutFault::NotRising => "K2",
            CutFault::WrongEnd => "K3",
            CutFault::NoMemory => "K4",
        })
    }
}

impl Error for CutFault {}

impl From<AllocError> for CutFault {
    ghost use Rattle.std.specs.Prelude.{◌≡◌};
    ghost use Rattle.prefix_scan.specs.declared.divisions.CutFault.TheVariants.{NoMemory};

    ghost from_gives = { λ _ fault. fault ≡ NoMemory };

    fn from(_: AllocError) -> CutFault {
        CutFault::NoMemory
    }
}

/// Where the numbers from 0 to a length are cut into chunks, none of which is empty.
#[derive(Drop)]
pub struct Cuts {
    ends: Vec<u32>,
}

impl Model for Cuts {
    ghost use Rattle.std.specs.Prelude.{List, ℕ, ◌<◌, length};
    ghost use Rattle.prefix_scan.specs.Cut.{IsRising};

    ghost Value = { List ℕ };

    ghost view = { λ c. c.ends.items };

    ghost invariant = { λ c. (0 < length c.ends.items) × IsRising c.ends.items };
}

/// The ends of chunks of `n` numbers, the last with what is left.
fn every_end(alloc: Global, n: u32, len: u32) -> Result<Vec<u32>, AllocError>
    requires { (0 < n) × (0 < len) }
    ensures { IfOk result (λ v. IsEvery n len v.items) }
{
    let mut ends = Vec::new(alloc);
    let mut at = 0;
    'next: while len - at > n {
        at += n;
        ends.push(at)?;
    }
    ends.push(len)?;
    Ok(ends)
}

impl Cuts {
    /// Chunks of `n` numbers, the last with what is left of `len`. [`CutFault::Empty`] where `n` or
    /// `len` is 0.
    pub fn every(alloc: Global, n: u32, len: u32) -> Result<Cuts, CutFault>
        ensures ok { IfOk result (λ c. (0 < n) × (0 < len) × IsEvery n len c) }
        ensures err { IfErr result (λ fault. IsFaultOfEvery n len fault) }
    {
        if n == 0 || len == 0 {
            return Err(CutFault::Empty);
        }
        let ends = every_end(alloc, n, len)?;
        Ok(Cuts { ends })
    }

    /// Chunks that end at these places. The first fault is answered: [`CutFault::Empty`] where
    /// there is no end or `len` is 0, `NotRising` where an end isn't above the one before it or the
    /// first is 0, `WrongEnd` where the last isn't `len`.
    pub fn at(alloc: Global, ends: &[u32], len: u32) -> Result<Cuts, CutFault>
        ensures ok { IfOk result (λ c. (c ≡ ends.now) × (0 < len) × Divides ends.now len) }
        ensures err { IfErr result (λ fault. IsFault ends.now len fault) }
    {
        if ends.is_empty() || len == 0 {
            return Err(CutFault::Empty);
        }
        let mut before = 0;
        for end in ends {
            if *end <= before {
                return Err(CutFault::NotRising);
            }
            before = *end;
        }
        if before != len {
            return Err(CutFault::WrongEnd);
        }
        Ok(Cuts {
            ends: ends.to_vec(alloc)?,
        })
    }

    /// How many chunks there are, at least one.
    pub fn chunks(&self) -> usize
        ensures count { result ≡ length self.now }
        ensures some { 0 < result }
    {
        self.ends.len()
    }

    /// The numbers of chunk `i`, the first being 0.
    pub fn range(&self, i: usize) -> Range<u32>
        requires { i < length self.now }
        ensures bounds { (result.start ≡ start_of self.now i)
            × (result.end ≡ slice_index self.now i) }
        ensures some { result.start < result.end }
    {
        let start = if i == 0 { 0 } else { self.ends[i - 1] };
        start..self.ends[i]
    }
    /// The ends of the chunks, each above the one before it.
    pub(crate) fn ends(&self) -> &[u32]
        ensures items { result.now ≡ self.now }
        ensures rising { IsRising self.now }
    {
        &self.ends
    }
}
