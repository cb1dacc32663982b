// What every store of ranges does: its meaning, what always holds of it, and what each call answers and leaves.
ghost use Rattle.std.specs.Prelude.{◌≡◌, ℕ, ◌≤◌, vec_len, OnOk};
ghost use Rattle.store.specs.Limits.{MayBeLimit};
ghost use Rattle.store.specs.Ranges.{Canonical, has, next_range, LowestOrNone};
ghost use Rattle.store.specs.Sets.{Model, nothing, total};
ghost use Rattle.store.specs.Changes.{put_into, taken_from, moved, cleared, GrantedIfItFits, Added, Removed, Moved, Emptied};
ghost use Rattle.store.specs.declared.sets.SetName.{SetName as Name};

use crate::memory::Memory;
use crate::range::Range;
use crate::refusal::StoreRefusal;
use crate::sets::SetName;

/// Eleven sets of IDs, each as its maximal ranges, with room for a limited number of ranges in all.
// That the room stays is a fact of a change, and of no value, so each call that changes says it. `next` answers plain numbers, as memory holds them.
pub trait RangeStore {
    // Of each set the list of its maximal ranges, lowest first.
    ghost model: { Self → Model };

    // How many maximal ranges it has room for, over all sets.
    ghost room: { Self → ℕ };

    /// Adds the range's IDs to the set; refused as full exactly when the ranges of all sets would pass the limit.
    fn put(&mut self, set: SetName, range: Range) -> Result<(), StoreRefusal>
        ensures room { room self.new ≡ room self.old }
        ensures model { GrantedIfItFits (room self.old) (model self.old) (put_into (model self.old) set range.low range.high) (model self.new) result }
        ensures members { OnOk result (Added (model self.old) (model self.new) set range.low range.high) };

    /// Removes the range's IDs from the set; refused as full exactly when the ranges of all sets would pass the limit.
    fn take(&mut self, set: SetName, range: Range) -> Result<(), StoreRefusal>
        ensures room { room self.new ≡ room self.old }
        ensures model { GrantedIfItFits (room self.old) (model self.old) (taken_from (model self.old) set range.low range.high) (model self.new) result }
        ensures members { OnOk result (Removed (model self.old) (model self.new) set range.low range.high) };

    /// Gives the IDs of `from` to `to`, whose own go; `from` is empty then. Onto itself it does nothing.
    fn move_set(&mut self, from: SetName, to: SetName)
        ensures room { room self.new ≡ room self.old }
        ensures model { model self.new ≡ moved (model self.old) from to }
        ensures members { Moved (model self.old) (model self.new) from to };

    /// Empties the set.
    fn clear(&mut self, set: SetName)
        ensures room { room self.new ≡ room self.old }
        ensures model { model self.new ≡ cleared (model self.old) set }
        ensures members { Emptied (model self.old) (model self.new) set };

    /// Whether the number is an ID in the set.
    fn holds(&self, set: SetName, id: u64) -> bool
        ensures { result ≡ has (model self.now set) id }
    {
        self.next(set, id).is_some_and(|(low, _)| low <= id)
    }

    /// The lowest maximal range of the set whose high end is not below `n`, as its lowest and highest ID.
    fn next(&self, set: SetName, n: u64) -> Option<(u64, u64)>
        ensures list { result ≡ next_range (model self.now set) n }
        ensures members { LowestOrNone (model self.now set) n result };

    /// How many maximal ranges all sets have together.
    fn total(&self) -> usize
        ensures { result ≡ total (model self.now) };

    /// How many it has room for.
    fn limit(&self) -> usize
        ensures { result ≡ room self.now };

    ghost canonical: { (x : Self) (set : Name) → Canonical (model x set) };

    ghost fits: { (x : Self) → total (model x) ≤ room x };

    ghost limited: { (x : Self) → MayBeLimit (room x) };
}

/// A store in memory that the caller hands over, and may have back.
pub trait InMemory: RangeStore {
    /// The memory of one range.
    type Place: Copy + Default;

    /// A store in this memory with every set empty, whatever is in it. Its limit is the number of places.
    fn new(memory: Memory<Self::Place>) -> Self
        ensures empty { Self.model result ≡ nothing }
        ensures limit { Self.room result ≡ vec_len memory.places };

    /// The memory back, as the store leaves it.
    fn into_places(self) -> Vec<Self::Place>
        ensures number { vec_len result ≡ Self.room self };
}
