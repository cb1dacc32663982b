// Making a store in linked cells, and its calls.
ghost use Rattle.std.specs.Prelude.{◌≡◌, vec_len};
ghost use Rattle.store.specs.Sets.{nothing, number};
ghost use Rattle.cells.specs.Links.{Blank};
ghost use Rattle.cells.specs.Meaning.{meaning, limit_of};
ghost use Rattle.store.proofs.Models.{number_small};
ghost use Rattle.cells.specs.Meanings;
ghost use Rattle.std.proofs.Common.{rules};
ghost use Rattle.cells.specs.Totals.{all_fit};

use crate::cell::Cell;
use crate::cells_store::CellStore;
use crate::chains::{Chain, Chains};
use store::{InMemory, Memory, Range, RangeStore, SetName, StoreRefusal};

impl InMemory for CellStore {
    type Place = Cell;

    /// A store in this memory with every set empty. What its cells held before is gone.
    fn new(memory: Memory<Cell>) -> CellStore
        ensures empty { meaning result ≡ nothing }
        ensures limit { limit_of result ≡ vec_len memory.places }
        ensures blank { Blank result.chains.cells.items }
    {
        CellStore {
            chains: Chains::new(memory),
        }
    }

    fn into_places(self) -> Vec<Cell>
        ensures cells { result ≡ self.chains.cells }
        ensures number { vec_len result ≡ limit_of self }
    {
        let CellStore { chains } = self;
        let Chains { cells, ends: _ } = chains;
        cells
    }
}

impl RangeStore for CellStore {
    ghost model = { meaning };

    ghost room = { limit_of };

    ghost canonical = { λ x set. Meanings.canonical x.chains x.ordered (number set) (number_small set) };

    ghost fits = { λ x. all_fit x.chains };

    ghost limited = { Prim.search rules };

    fn put(&mut self, set: SetName, range: Range) -> Result<(), StoreRefusal> {
        self.put_in(Chain::from(set), range)
    }

    fn take(&mut self, set: SetName, range: Range) -> Result<(), StoreRefusal> {
        self.take_from(Chain::from(set), range)
    }

    fn move_set(&mut self, from: SetName, to: SetName) {
        if from != to {
            let target = Chain::from(to);
            self.chains.clear(target);
            self.chains.exchange(Chain::from(from), target);
        }
    }

    fn clear(&mut self, set: SetName) {
        self.chains.clear(Chain::from(set));
    }

    fn next(&self, set: SetName, n: u64) -> Option<(u64, u64)> {
        self.next_in(Chain::from(set), n)
    }

    fn total(&self) -> usize {
        self.chains.cells.len() - self.chains.free()
    }

    fn limit(&self) -> usize {
        self.chains.cells.len()
    }
}
