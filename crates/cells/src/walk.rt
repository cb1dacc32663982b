// Walks along a chain, and what is asked of a set.
ghost use Rattle.std.specs.Prelude.{◌≡◌, ℕ, ◌<◌, ◌≤◌, true, false};
ghost use Rattle.store.specs.Ranges.{next_range};
ghost use Rattle.cells.specs.Chains.{count_of, ranges_of, cell_at, Follow, GoesOn};
ghost use Rattle.cells.specs.Places.{EndingBelow, BeginningWithin};

use crate::cell::{Cell, Ends};
use crate::cells_store::CellStore;
use crate::chains::{Chain, Chains, Gap, Run};

/// A gap, and the number of the cell behind it; at the end of the chain, a number that no cell has.
#[derive(Clone, Copy)]
pub struct Spot {
    gap: Gap,
    at: usize,
}

impl Chains {
    // Steps over the cells from the spot on, for as long as they pass.
    fn walk_while<F: Fn(Cell) -> bool>(&self, from: Spot, passes: F) -> Spot
        requires callable { F.IsAlwaysCallable passes }
        requires on { GoesOn self.now from }
        ensures chain { result.gap.chain ≡ from.gap.chain }
        ensures on { GoesOn self.now result }
        ensures from { from.gap.place ≤ result.gap.place }
        ensures passed { (i : ℕ) → from.gap.place ≤ i → i < result.gap.place → F.post passes (cell_at self.now from.gap.chain.number i) true }
        ensures stopped { result.gap.place < count_of self.now from.gap.chain.number → F.post passes (cell_at self.now from.gap.chain.number result.gap.place) false }
    {
        let mut spot = from;
        for place in from.gap.place..self.ends[from.gap.chain.number].count {
            let cell = self.cells[spot.at];
            if !passes(cell) {
                break;
            }
            spot = Spot {
                gap: Gap {
                    chain: from.gap.chain,
                    place: place + 1,
                    before: Some(spot.at),
                },
                at: cell.next,
            };
        }
        spot
    }
}

impl CellStore {
    /// The gap behind the ranges that end below `n`. Behind the last range it is found without a walk.
    fn ending_below(&self, chain: Chain, n: u64) -> Spot
        ensures chain { result.gap.chain ≡ chain }
        ensures on { GoesOn self.now.chains result }
        ensures below { EndingBelow (ranges_of self.now.chains chain.number) n result.gap.place }
    {
        let ends = self.chains.ends[chain.number];
        if ends.count > 0 {
            let last = self.chains.cells[ends.last];
            if last.high < n {
                return Spot {
                    gap: Gap {
                        chain,
                        place: ends.count,
                        before: Some(ends.last),
                    },
                    at: last.next,
                };
            }
        }
        let front = Spot {
            gap: Gap::front(chain),
            at: ends.first,
        };
        self.chains.walk_while(front, |cell| cell.high < n)
    }

    /// The cells whose ranges meet low..high.
    pub(crate) fn meeting(&self, chain: Chain, low: u64, high: u64) -> Run
        ensures chain { result.gap.chain ≡ chain }
        ensures follow { Follow self.now.chains result }
        ensures below { EndingBelow (ranges_of self.now.chains chain.number) low result.gap.place }
        ensures met { BeginningWithin (ranges_of self.now.chains chain.number) high result.gap.place result.ends.count }
    {
        let from = self.ending_below(chain, low);
        let to = self.chains.walk_while(from, |cell| cell.low <= high);
        Run {
            gap: from.gap,
            ends: Ends {
                first: from.at,
                last: to.gap.before.unwrap_or(from.at),
                count: to.gap.place - from.gap.place,
            },
        }
    }

    /// The lowest range of the chain whose high end is not below `n`.
    pub(crate) fn next_in(&self, chain: Chain, n: u64) -> Option<(u64, u64)>
        ensures { result ≡ next_range (ranges_of self.now.chains chain.number) n }
    {
        let found = self.ending_below(chain, n);
        let cell = self.chains.cells.get(found.at)?;
        Some((cell.low, cell.high))
    }
}
