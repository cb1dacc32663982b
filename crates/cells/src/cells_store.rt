// The store in linked cells.
ghost use Rattle.std.specs.Prelude.{◌≡◌, ℕ, ◌<◌, true};
ghost use Rattle.cells.specs.Chains.{ranges_of};
ghost use Rattle.cells.specs.Places.{in_order};

use crate::chains::Chains;

/// A store in cells that the caller hands over. It never allocates; one cell in use holds one maximal range.
#[derive(Drop)]
pub struct CellStore {
    pub(crate) chains: Chains,
    ghost ordered: { (k : ℕ) → k < 11 → in_order 0 (ranges_of chains k) ≡ true },
}
