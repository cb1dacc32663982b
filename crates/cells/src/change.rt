// A range put into a set's chain, and taken out of it.
ghost use Rattle.std.specs.Prelude.{◌≡◌, ℕ, ◌+◌, ◌-◌, ◌<◌, ◌≤◌, min, max, true, false, [], ◌∷◌, ◌++◌, length, take, drop, vec_len, nat_lt};
ghost use Rattle.store.specs.Ranges.{apart, with_range, without_range};
ghost use Rattle.cells.specs.Links.{cell};
ghost use Rattle.cells.specs.Chains.{ranges_of, free_of, Stands, Follow, Changed, ChangedIfItFits};
ghost use Rattle.cells.specs.Places.{one_or_none};

use crate::cells_store::CellStore;
use crate::chains::{Chain, Chains, Gap, Run};
use store::{COUNTERS, Range, StoreRefusal};

// The lowest ID that an ID below `low` has to reach to adjoin it.
fn adjoining_below(low: u64) -> u64
    ensures { (id : ℕ) → nat_lt id result ≡ apart id low }
{
    if low % COUNTERS == 0 { low } else { low - 1 }
}

// The highest ID that adjoins `high`.
fn adjoining_above(high: u64) -> u64
    ensures { (id : ℕ) → nat_lt result id ≡ apart high id }
{
    if high % COUNTERS == COUNTERS - 1 {
        high
    } else {
        high + 1
    }
}

impl CellStore {
    /// Puts the range's IDs into the chain; refused as full where that takes more cells than there are. A range that begins at the last range or behind it
    /// is put in without a walk.
    pub(crate) fn put_in(&mut self, chain: Chain, range: Range) -> Result<(), StoreRefusal>
        ensures { ChangedIfItFits self.old.chains self.new.chains chain.number (with_range range.low range.high (ranges_of self.old.chains chain.number)) result }
    {
        if self.grow_last(chain, range) {
            return Ok(());
        }
        let low = adjoining_below(range.low());
        let high = adjoining_above(range.high());
        let run = self.meeting(chain, low, high);
        let joined = self.chains.joined(run, range);
        self.chains.replace(run, Some(joined), None)
    }

    // Puts a range that begins in the last range of the chain, or right behind it, into that; whether it begins there, as `insert` of a set says whether it did.
    fn grow_last(&mut self, chain: Chain, range: Range) -> bool
        ensures grown { result ≡ true → Changed self.old.chains self.new.chains chain.number (with_range range.low range.high (ranges_of self.old.chains chain.number)) }
        ensures same { result ≡ false → self.new ≡ self.old }
    {
        let ends = self.chains.ends[chain.number];
        if ends.count == 0 {
            return false;
        }
        let last = self.chains.cells[ends.last];
        let low = range.low();
        if low < last.low || last.high < adjoining_below(low) {
            return false;
        }
        self.chains
            .set_last_high(chain, last.high.max(range.high()));
        true
    }

    /// Takes the range's IDs out of the chain; refused as full where that takes more cells than there are.
    pub(crate) fn take_from(&mut self, chain: Chain, range: Range) -> Result<(), StoreRefusal>
        ensures { ChangedIfItFits self.old.chains self.new.chains chain.number (without_range range.low range.high (ranges_of self.old.chains chain.number)) result }
    {
        let run = self.meeting(chain, range.low(), range.high());
        if run.ends.count == 0 {
            return Ok(());
        }
        let first = self.chains.cells[run.ends.first];
        let last = self.chains.cells[run.ends.last];
        let lower = range.leaves_below(first.low);
        let upper = range.leaves_above(last.high);
        self.chains.replace(run, lower, upper)
    }
}

impl Chains {
    // One range for the range and the cells that it meets.
    fn joined(&self, run: Run, range: Range) -> (u64, u64)
        requires { Follow self.now run }
        ensures alone { run.ends.count ≡ 0 → result ≡ (range.low, range.high) }
        ensures whole { 0 < run.ends.count → result ≡ (min range.low (cell self.now.cells.items run.ends.first).low, max range.high (cell self.now.cells.items run.ends.last).high) }
    {
        if run.ends.count == 0 {
            return (range.low(), range.high());
        }
        let first = self.cells[run.ends.first];
        let last = self.cells[run.ends.last];
        range.joined_with(first.low, last.high)
    }

    // Up to two ranges in the place of those of the run.
    // Within its callers, so that the two ranges need not go through memory.
    #[inline(always)]
    fn replace(
        &mut self,
        run: Run,
        lower: Option<(u64, u64)>,
        upper: Option<(u64, u64)>,
    ) -> Result<(), StoreRefusal>
        requires { Follow self.old run }
        ensures { let rs = ranges_of self.old run.gap.chain.number in ChangedIfItFits self.old self.new run.gap.chain.number (take run.gap.place rs ++ (one_or_none lower ++ (one_or_none upper ++ drop (run.gap.place + run.ends.count) rs))) result }
    {
        let wanted = usize::from(lower.is_some()) + usize::from(upper.is_some());
        if self.free() + run.ends.count < wanted {
            return Err(StoreRefusal::Full);
        }
        self.remove(run);
        self.insert_any(run.gap, upper);
        self.insert_any(run.gap, lower);
        Ok(())
    }

    // The range at the gap, if there is one.
    fn insert_any(&mut self, gap: Gap, range: Option<(u64, u64)>)
        requires stands { Stands self.old gap }
        requires room { length (one_or_none range) ≤ free_of self.old }
        ensures changed { let rs = ranges_of self.old gap.chain.number in Changed self.old self.new gap.chain.number (take gap.place rs ++ (one_or_none range ++ drop gap.place rs)) }
        ensures stands { Stands self.new gap }
        ensures free { free_of self.new + length (one_or_none range) ≡ free_of self.old }
    {
        if let Some((low, high)) = range {
            self.insert(gap, low, high);
        }
    }
}
