// What always holds of a store in linked cells, beyond what every store promises.
ghost use Rattle.cells.specs.Links.{OnePlaceEach};

use crate::cells_store::CellStore;

/// Every cell of a store is at one place of one chain, a set's or the free one: none is lost, and none is linked twice.
pub fn every_cell_is_at_one_place(store: &CellStore)
    ensures { OnePlaceEach store.now.chains.cells.items store.now.chains.ends }
{}
