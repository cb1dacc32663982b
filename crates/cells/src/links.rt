// Cells linked into a chain and out of it. Each change moves cells between one set's chain and the free one, or exchanges two chains.
ghost use Rattle.std.specs.Prelude.{◌≡◌, ℕ, ◌+◌, ◌-◌, ◌<◌, IfSome, [], ◌∷◌, ◌++◌, length, take, drop, vec_len};
ghost use Rattle.cells.specs.Links.{Blank};
ghost use Rattle.cells.specs.Relinks.{link, relinked, with_link};
ghost use Rattle.cells.specs.Chains.{ranges_of, free_of, Stands, Follow, Changed};

use crate::cell::{Cell, Ends};
use crate::chains::{Chains, Gap, Run};
use std::mem;
use store::Memory;

// The number of the free chain: one of twelve alike, so that each fact about them is said once.
const FREE: usize = 11;

// Links a gap of a chain to another cell, and gives the one that it was linked to.
fn relink(cells: &mut [Cell], ends: &mut Ends, before: Option<usize>, to: usize) -> usize
    requires { IfSome before (λ p. p < length cells.old) }
    ensures was { result ≡ link cells.old ends.old before }
    ensures cells { cells.new ≡ relinked cells.old before to }
    ensures ends { ends.new ≡ with_link ends.old before to }
{
    match before {
        Some(cell) => mem::replace(&mut cells[cell].next, to),
        None => mem::replace(&mut ends.first, to),
    }
}

// Links each cell to the one after it in memory, and lets go of the range that was in it.
fn link_all(cells: &mut [Cell])
    ensures { Blank cells.new }
{
    for (i, cell) in cells.iter_mut().enumerate() {
        *cell = Cell {
            low: 0,
            high: 0,
            next: i + 1,
        };
    }
}

impl Chains {
    /// Every cell free, and what it held gone.
    pub(crate) fn new(memory: Memory<Cell>) -> Chains
        ensures len { vec_len result.cells ≡ vec_len memory.places }
        ensures blank { Blank result.cells.items }
        ensures empty { (k : ℕ) → k < 11 → ranges_of result k ≡ [] }
    {
        let Memory { places: mut cells } = memory;
        let n = cells.len();
        link_all(&mut cells);
        // No set's chain has a cell yet: its links end at once, in `n`. That is how many cells there are, and they are numbered from 0, so no cell has it.
        let mut ends = [Ends {
            first: n,
            last: n,
            count: 0,
        }; 12];
        ends[FREE] = Ends {
            first: 0,
            last: n - 1,
            count: n,
        };
        Chains { cells, ends }
    }

    /// How many cells are free.
    pub(crate) fn free(&self) -> usize
        ensures { result ≡ free_of self.now }
    {
        self.ends[FREE].count
    }

    /// Takes a free cell for the range and links it in at the gap.
    // That the gap stands there is of the chains at this moment: a type could hold it only with a borrow, through which nothing could be changed.
    pub(crate) fn insert(&mut self, gap: Gap, low: u64, high: u64)
        requires stands { Stands self.old gap }
        requires room { 0 < free_of self.old }
        ensures changed { let rs = ranges_of self.old gap.chain.number in Changed self.old self.new gap.chain.number (take gap.place rs ++ (low, high) ∷ drop gap.place rs) }
        ensures stands { Stands self.new gap }
        ensures free { free_of self.new + 1 ≡ free_of self.old }
    {
        let mut set = self.ends[gap.chain.number];
        let mut free = self.ends[FREE];
        let cell = free.first;
        free.first = self.cells[cell].next;
        free.count -= 1;
        if gap.place == set.count {
            set.last = cell;
        }
        set.count += 1;
        let next = relink(&mut self.cells, &mut set, gap.before, cell);
        self.cells[cell] = Cell { low, high, next };
        self.ends[gap.chain.number] = set;
        self.ends[FREE] = free;
    }

    /// Links cells out of their chain and hands them to the free chain as they are linked.
    pub(crate) fn remove(&mut self, run: Run)
        requires { Follow self.old run }
        ensures changed { let rs = ranges_of self.old run.gap.chain.number in Changed self.old self.new run.gap.chain.number (take run.gap.place rs ++ drop (run.gap.place + run.ends.count) rs) }
        ensures stands { Stands self.new run.gap }
        ensures free { free_of self.new ≡ free_of self.old + run.ends.count }
    {
        let Run { gap, ends } = run;
        if ends.count == 0 {
            return;
        }
        let mut set = self.ends[gap.chain.number];
        let mut free = self.ends[FREE];
        if set.last == ends.last {
            set.last = gap.before.unwrap_or(set.last);
        }
        set.count -= ends.count;
        let rest = self.cells[ends.last].next;
        relink(&mut self.cells, &mut set, gap.before, rest);
        self.cells[ends.last].next = free.first;
        free.first = ends.first;
        if free.count == 0 {
            free.last = ends.last;
        }
        free.count += ends.count;
        self.ends[gap.chain.number] = set;
        self.ends[FREE] = free;
    }
}
