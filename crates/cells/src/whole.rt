// Whole chains handed over, and the last range of a chain written.
ghost use Rattle.std.specs.Prelude.{◌≡◌, ℕ, ◌-◌, ◌<◌, [], ◌∷◌, ◌++◌, take, vec_len, ◌≢◌};
ghost use Rattle.cells.specs.Chains.{count_of, ranges_of, Changed};
ghost use Rattle.cells.specs.Places.{at_place};

use crate::chains::{Chain, Chains, Gap, Run};

impl Chains {
    /// Hands all cells of the chain to the free chain, in a constant number of steps.
    pub(crate) fn clear(&mut self, chain: Chain)
        ensures { Changed self.old self.new chain.number [] }
    {
        let run = Run {
            gap: Gap::front(chain),
            ends: self.ends[chain.number],
        };
        self.remove(run);
    }

    /// Two chains change places, in a constant number of steps.
    pub(crate) fn exchange(&mut self, one: Chain, two: Chain)
        requires { one.number ≢ two.number }
        ensures len { vec_len self.new.cells ≡ vec_len self.old.cells }
        ensures one { ranges_of self.new one.number ≡ ranges_of self.old two.number }
        ensures two { ranges_of self.new two.number ≡ ranges_of self.old one.number }
        ensures others { (other : ℕ) → other < 11 → (other ≢ one.number) → (other ≢ two.number) → ranges_of self.new other ≡ ranges_of self.old other }
    {
        self.ends.swap(one.number, two.number);
    }

    /// Writes another high end into the last cell of the chain.
    pub(crate) fn set_last_high(&mut self, chain: Chain, high: u64)
        requires { 0 < count_of self.old chain.number }
        ensures { Changed self.old self.new chain.number (take (count_of self.old chain.number - 1) (ranges_of self.old chain.number) ++ ((at_place (ranges_of self.old chain.number) (count_of self.old chain.number - 1)).0, high) ∷ []) }
    {
        let last = self.ends[chain.number].last;
        self.cells[last].high = high;
    }
}
