// A range of IDs of one replica: no other range can be made.
ghost use Rattle.std.specs.Prelude.{◌≡◌, ◌+◌, ◌-◌, ◌/◌, ◌^◌, ◌<◌, ◌≤◌, min, max, Some, None, if◌then◌else◌, nat_lt, MatchOption};
ghost use Rattle.store.specs.Ids.{Lawful, replid};

use std::fmt;

/// How many counters a REPLID has. An ID is REPLID × COUNTERS + counter, so it is also the lowest ID.
pub const COUNTERS: u64 = 0x1_0000_0000_0000;

/// The IDs from `low` to `high`, all of one REPLID.
#[derive(Clone, Copy, Debug, PartialEq, Eq)]
pub struct Range {
    low: u64,
    high: u64,
    ghost paired: { 2 ^ 48 ≤ low },
    ghost rising: { low ≤ high },
    ghost single: { replid low ≡ replid high },
}

/// Its lowest and its highest ID, with a space between.
impl fmt::Display for Range {
    ghost use Rattle.std.specs.Prelude.{Some};
    ghost use Rattle.store.specs.Prints.{range_text};

    ghost output = { λ r. Some (range_text r) };

    fn fmt<W: fmt::Write>(&self, f: &mut fmt::Formatter<W>) -> fmt::Result {
        write!(f, "{} {}", self.low, self.high)
    }
}

impl Range {
    /// The range from the ID `low` to the ID `high`; none unless both are IDs of one REPLID, the first not above the second.
    pub fn new(low: u64, high: u64) -> Option<Range>
        ensures { MatchOption result (Lawful low high → ⊥) (λ x. Lawful low high × (x.low ≡ low) × (x.high ≡ high)) }
    {
        if low >= COUNTERS && low <= high && low / COUNTERS == high / COUNTERS {
            Some(Range { low, high })
        } else {
            None
        }
    }

    /// Its lowest ID.
    pub fn low(self) -> u64
        ensures value { result ≡ self.low }
        ensures lawful { Lawful result self.high }
    {
        self.low
    }

    /// Its highest ID.
    pub fn high(self) -> u64
        ensures value { result ≡ self.high }
        ensures lawful { Lawful self.low result }
    {
        self.high
    }

    /// What it leaves, below itself, of a range that begins at `low`: the lowest and the highest ID.
    pub fn leaves_below(self, low: u64) -> Option<(u64, u64)>
        ensures { result ≡ (if nat_lt low self.low then Some (low, self.low - 1) else None) }
    {
        (low < self.low).then(|| (low, self.low - 1))
    }

    /// What it leaves, above itself, of a range that ends at `high`: the lowest and the highest ID.
    pub fn leaves_above(self, high: u64) -> Option<(u64, u64)>
        ensures { result ≡ (if nat_lt self.high high then Some (self.high + 1, high) else None) }
    {
        (self.high < high).then(|| (self.high + 1, high))
    }

    /// The lowest and the highest ID of it and of ranges from `low` to `high` together.
    pub fn joined_with(self, low: u64, high: u64) -> (u64, u64)
        ensures { result ≡ (min self.low low, max self.high high) }
    {
        (self.low.min(low), self.high.max(high))
    }
}
