// The store in ordered rows.
ghost use Rattle.std.specs.Prelude.{◌≡◌, vec_len};
ghost use Rattle.store.specs.Sets.{nothing};
ghost use Rattle.rows.specs.Meaning.{meaning, limit_of};
ghost use Rattle.rows.specs.Searches.{in_order};
ghost use Rattle.rows.specs.Spots.{ranges_canonical};
ghost use Rattle.std.proofs.Common.{rules};
ghost use Rattle.rows.specs.Meanings.{all_fit};

use crate::labels::Labels;
use crate::row::Row;
use crate::table::Table;
use store::{InMemory, Memory, Range, RangeStore, SetName, StoreRefusal};

/// A store in rows that the caller hands over. It never allocates; one row in use holds one maximal range.
#[derive(Drop)]
pub struct RowStore {
    table: Table,
    labels: Labels,
}

impl InMemory for RowStore {
    type Place = Row;

    fn new(memory: Memory<Row>) -> RowStore
        ensures empty { meaning result ≡ nothing }
        ensures limit { limit_of result ≡ vec_len memory.places }
        ensures rows { result.table.memory ≡ memory }
    {
        RowStore {
            table: Table { memory, used: 0 },
            labels: Labels::new(),
        }
    }

    fn into_places(self) -> Vec<Row>
        ensures rows { result ≡ self.table.memory.places }
        ensures number { vec_len result ≡ limit_of self }
    {
        let RowStore { table, labels: _ } = self;
        let Table { memory, used: _ } = table;
        let Memory { places } = memory;
        places
    }
}

impl RangeStore for RowStore {
    ghost model = { meaning };

    ghost room = { limit_of };

    ghost canonical = { λ x set. ranges_canonical _ _ (in_order x.table) };

    ghost fits = { λ x. all_fit x.table x.labels };

    ghost limited = { Prim.search rules };

    fn put(&mut self, set: SetName, range: Range) -> Result<(), StoreRefusal> {
        self.table.put(self.labels.of(set), range)
    }

    fn take(&mut self, set: SetName, range: Range) -> Result<(), StoreRefusal> {
        self.table.take(self.labels.of(set), range)
    }

    fn move_set(&mut self, from: SetName, to: SetName) {
        if from != to {
            self.table.clear(self.labels.of(to));
            self.labels.swap(from, to);
        }
    }

    fn clear(&mut self, set: SetName) {
        self.table.clear(self.labels.of(set));
    }

    fn next(&self, set: SetName, n: u64) -> Option<(u64, u64)> {
        self.table.next(self.labels.of(set), n)
    }

    fn total(&self) -> usize {
        self.table.used
    }

    fn limit(&self) -> usize {
        self.table.memory.places.len()
    }
}
