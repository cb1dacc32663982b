// How many ranges a store may have room for.
ghost use Rattle.std.specs.Prelude.{◌≡◌, MatchResult};
ghost use Rattle.store.specs.Limits.{MayBeLimit};
ghost use Rattle.store.specs.Refusals.{listed, wrong_row_count};

use crate::refusal::StoreRefusal;

/// A store's limit: the number of its rows or cells, 64 to 65,535.
#[derive(Clone, Copy, Debug, PartialEq, Eq)]
pub struct Limit {
    ranges: usize,
    ghost lawful: { MayBeLimit ranges },
}

/// The limit of a store of so many rows or cells; refused below 64 and above 65,535.
impl TryFrom<u64> for Limit {
    type Error = StoreRefusal;

    ghost try_from_gives = { λ n r. MatchResult r (λ x. MayBeLimit n × (x.ranges ≡ n)) (λ e. (listed e ≡ wrong_row_count) × (MayBeLimit n → ⊥)) };

    fn try_from(ranges: u64) -> Result<Limit, StoreRefusal> {
        if (64..=65535).contains(&ranges) {
            Ok(Limit {
                ranges: ranges as usize,
            })
        } else {
            Err(StoreRefusal::RowCount)
        }
    }
}

impl Limit {
    /// The number of ranges.
    pub fn ranges(self) -> usize
        ensures value { result ≡ self.ranges }
        ensures lawful { MayBeLimit result }
    {
        self.ranges
    }
}
