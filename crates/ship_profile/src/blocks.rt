ghost use Rattle.std.specs.Prelude.{◌≡◌, ◌≢◌, Ok, Err, IfOk, IfErr};
ghost use Rattle.toml.specs.View.{table_view};
ghost use Rattle.ship_profile.specs.Ship.{block_in, block_of, blocks_of, AreBlocks};

use crate::arrays::{Element, elements_at};
use crate::faults::{Key, ProfileFault};
use crate::keys::{MAX_KG, MAX_MM, length_in_table, number_in_table, table_of};
use ship_tables::{Extent, File};
use std::alloc::Global;
use toml::{Table, Value};
use units_core::{Body, Mm, Place};

/// Blocks, each within the stations.
#[derive(Clone, Copy)]
struct BlockRule {
    extent: Extent,
}

/// The block that a table says.
fn read_block(table: &Table) -> Result<Body, ProfileFault>
    ensures { result ≡ block_in (table_view table.now) }
{
    let kg = number_in_table(table, Key::Blocks, "kg", 1, MAX_KG)?;
    let x = length_in_table(table, Key::Blocks, "x_mm")?;
    let y = length_in_table(table, Key::Blocks, "y_mm")?;
    let z = length_in_table(table, Key::Blocks, "z_mm")?;
    let half = number_in_table(table, Key::Blocks, "half_mm", 0, MAX_MM)?;
    let place = Place {
        x,
        y,
        z,
        half: Mm::of(half),
    };
    Ok(Body::new(kg as u32, place, 0).unwrap())
}

impl Element for BlockRule {
    type Item = Body;

    ghost next = { λ s before d. block_of s.extent before d };

    fn read(&self, _alloc: Global, before: &[Body], value: &Value) -> Result<Body, ProfileFault> {
        let table = table_of(value, Key::Blocks)?;
        let block = read_block(table)?;
        if self.extent.holds(&block.place()) {
            Ok(block)
        } else {
            Err(ProfileFault::OutsideStations(File::Ship, before.len() as u32 + 1))
        }
    }
}

/// The blocks of a document.
pub fn read_blocks(alloc: Global, extent: Extent, table: &Table) -> Result<Vec<Body>, ProfileFault>
    ensures ok { IfOk result (λ v. blocks_of extent (table_view table.now) ≡ Ok v.items) }
    ensures refused { IfErr result
        (λ e. e ≢ ProfileFault.NoMemory → blocks_of extent (table_view table.now) ≡ Err e) }
    ensures meaning { IfOk result (λ v. AreBlocks extent v.items) }
{
    elements_at(alloc, &BlockRule { extent }, Key::Blocks, 1, 200, table)
}
