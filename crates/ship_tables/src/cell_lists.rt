ghost use Rattle.std.specs.Prelude.{◌≡◌, ◌<◌, ◌+◌, ◌*◌, ◌^◌, ◌++◌, ◌∷◌, [], true, slice_index};
ghost use Rattle.std.specs.Prelude.{IfOk, IfSome};
ghost use Rattle.std.specs.Bool.{OnTrue};
ghost use Rattle.std.specs.List.{position};
ghost use Rattle.units_core.specs.Cells.{cell_eq};
ghost use Rattle.ship_tables.specs.Lookup.{index_in, AllTold, AreApart};

use std::alloc::{AllocError, Global};
use std::marker::Model;
use units_core::Cell;

/// The tiers of a bay and row.
const TIERS: usize = 100;

/// A list of cells in which a cell is found without a search. For each bay and row `blocks` names a
/// block of 100 `entries`, one for each tier; an entry is the cell's index in the list. Whether all
/// cells are found at their indices is tested once, and kept in `sure`.
#[derive(Debug, Drop)]
pub struct CellList {
    cells: Vec<Cell>,
    blocks: Vec<u16>,
    entries: Vec<u16>,
    sure: bool,
}

impl Model for CellList {
    ghost use Rattle.std.specs.Prelude.{◌≡◌, List, true};
    ghost use Rattle.units_core.specs.declared.cells.Cell.{Cell};
    ghost use Rattle.ship_tables.specs.Lookup.{AllTold};

    ghost Value = { List Cell };

    ghost view = { λ c. c.cells.items };

    ghost invariant = { λ c. c.sure ≡ true → AllTold c.blocks.items c.entries.items c.cells.items };
}

/// The number of a bay and row among all of them.
#[inline(always)]
fn pair_of(cell: Cell) -> usize
    ensures { result ≡ cell.bay * 100 + cell.row }
{
    usize::from(cell.bay) * TIERS + usize::from(cell.row)
}

/// The block of a bay and row; 0 where they have none.
#[inline(always)]
fn block_of(blocks: &[u16], pair: usize) -> usize
    ensures value { result ≡ slice_index blocks.now pair }
    ensures small { result < 2 ^ 16 }
{
    if pair < blocks.len() {
        usize::from(blocks[pair])
    } else {
        0
    }
}

/// The index of a cell by the tables; any index where they have none.
#[inline(always)]
fn index_at(blocks: &[u16], entries: &[u16], cell: Cell) -> usize
    ensures { result ≡ index_in blocks.now entries.now cell }
{
    let at = block_of(blocks, pair_of(cell)) * TIERS + usize::from(cell.tier);
    if at < entries.len() {
        usize::from(entries[at])
    } else {
        0
    }
}

/// Entries of a block that say nothing.
static NO_ENTRIES: [u16; TIERS] = [0; TIERS];

/// Makes the block of a bay and row. The first block belongs to none.
#[cold]
#[inline(never)]
fn make_block(blocks: &mut Vec<u16>, entries: &mut Vec<u16>, pair: usize) -> Result<(), AllocError>
    requires { pair < 2 ^ 24 }
{
    if pair >= blocks.len() {
        blocks.resize(pair + 1, 0)?;
    }
    if entries.is_empty() {
        entries.extend_from_slice(&NO_ENTRIES)?;
    }
    let Ok(block) = u16::try_from(entries.len() / TIERS) else {
        return Ok(());
    };
    entries.extend_from_slice(&NO_ENTRIES)?;
    if pair < blocks.len() {
        blocks[pair] = block;
    }
    Ok(())
}

/// The place of a cell's entry, whose block is made where there is none; past the last entry, or in
/// the first block, where there is no room for it.
#[inline(always)]
fn entry_of(
    blocks: &mut Vec<u16>,
    entries: &mut Vec<u16>,
    cell: Cell,
) -> Result<usize, AllocError> {
    let pair = pair_of(cell);
    let mut block = block_of(blocks, pair);
    if block == 0 {
        make_block(blocks, entries, pair)?;
        block = block_of(blocks, pair);
    }
    Ok(block * TIERS + usize::from(cell.tier))
}

/// Writes the index of each cell to the tables, as far as they have room. They are tested
/// afterwards, so nothing is promised of them.
fn note_all(
    blocks: &mut Vec<u16>,
    entries: &mut Vec<u16>,
    cells: &[Cell],
) -> Result<(), AllocError> {
    for (place, cell) in cells.iter().enumerate() {
        let Ok(place) = u16::try_from(place) else {
            return Ok(());
        };
        let at = entry_of(blocks, entries, *cell)?;
        if at < entries.len() {
            entries[at] = place;
        }
    }
    Ok(())
}

/// Whether each cell is found at its index.
fn all_told(blocks: &[u16], entries: &[u16], cells: &[Cell]) -> bool
    ensures { OnTrue result (AllTold blocks.now entries.now cells.now) }
{
    for (place, cell) in cells.iter().enumerate() {
        if index_at(blocks, entries, *cell) != place {
            return false;
        }
    }
    true
}

/// The first index of a cell in a list, by a search from its beginning.
fn search(cells: &[Cell], cell: Cell) -> Option<usize>
    ensures { result ≡ position (cell_eq cell) cells.now }
{
    cells.iter().position(|other| cell == *other)
}

/// A list of different cells that is being made, with the tables by which they are found.
#[derive(Debug, Drop)]
pub struct GrowingList {
    pub cells: Vec<Cell>,
    blocks: Vec<u16>,
    entries: Vec<u16>,
}

impl GrowingList {
    /// A list with no cell.
    pub fn new(alloc: Global) -> GrowingList
        ensures { result.cells.items ≡ [] }
    {
        GrowingList {
            cells: Vec::new(alloc),
            blocks: Vec::new(alloc),
            entries: Vec::new(alloc),
        }
    }

    /// Adds a cell; false where the tables say that they have it already, or have no entry for it.
    /// The finished list is tested, so nothing rests on what they say.
    pub fn add(&mut self, cell: Cell) -> Result<bool, AllocError>
        ensures { IfOk result
            (λ added. added ≡ true → self.new.cells.items ≡ self.old.cells.items ++ cell ∷ []) }
    {
        let Ok(place) = u16::try_from(self.cells.len()) else {
            return Ok(false);
        };
        let at = entry_of(&mut self.blocks, &mut self.entries, cell)?;
        if at >= self.entries.len() {
            return Ok(false);
        }
        let told = usize::from(self.entries[at]);
        if told < self.cells.len() && self.cells[told] == cell {
            return Ok(false);
        }
        self.entries[at] = place;
        self.cells.push(cell)?;
        Ok(true)
    }

    /// The list, where each cell is found at its index.
    pub fn finish(self) -> Option<CellList>
        ensures value { IfSome result (λ c. c ≡ self.cells.items) }
        ensures apart { IfSome result (λ c. AreApart self.cells.items) }
    {
        let GrowingList {
            cells,
            blocks,
            entries,
        } = self;
        if !all_told(&blocks, &entries, &cells) {
            return None;
        }
        Some(CellList {
            cells,
            blocks,
            entries,
            sure: true,
        })
    }
}

impl CellList {
    /// A list of these cells.
    pub fn new(alloc: Global, cells: Vec<Cell>) -> Result<CellList, AllocError>
        ensures { IfOk result (λ c. c ≡ cells.items) }
    {
        let mut blocks = Vec::new(alloc);
        let mut entries = Vec::new(alloc);
        note_all(&mut blocks, &mut entries, &cells)?;
        let sure = all_told(&blocks, &entries, &cells);
        Ok(CellList {
            cells,
            blocks,
            entries,
            sure,
        })
    }

    /// The index of a cell, in constant time where no two cells are equal and each is one that
    /// seven digits write.
    pub fn find(&self, cell: Cell) -> Option<usize>
        ensures { result ≡ position (cell_eq cell) self.now }
    {
        if !self.sure {
            return search(&self.cells, cell);
        }
        let at = index_at(&self.blocks, &self.entries, cell);
        if at < self.cells.len() && self.cells[at] == cell {
            Some(at)
        } else {
            None
        }
    }

    /// The cells.
    pub fn as_slice(&self) -> &[Cell]
        ensures { result.now ≡ self.now }
    {
        self.cells.as_slice()
    }
}
