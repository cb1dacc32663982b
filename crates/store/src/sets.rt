// The names of the eleven sets.
ghost use Rattle.std.specs.Prelude.{◌≡◌, ◌<◌, Some, None, MatchResult};
ghost use Rattle.store.specs.Sets.{number, numbered};

use std::error::Error;
use std::fmt;

/// One of the eleven sets of a store: four kept, three tracked while a transfer is open, four told by its end.
#[derive(Clone, Copy, Debug, PartialEq, Eq)]
pub enum SetName {
    KeptGiven,
    KeptSeen,
    KeptSeenFai,
    KeptRead,
    TrackedGiven,
    TrackedSeen,
    TrackedSeenFai,
    ToldGiven,
    ToldSeen,
    ToldSeenFai,
    ToldRead,
}

impl SetName {
    /// The eleven sets, each at its number.
    pub const ALL: [SetName; 11] = [
        SetName::KeptGiven,
        SetName::KeptSeen,
        SetName::KeptSeenFai,
        SetName::KeptRead,
        SetName::TrackedGiven,
        SetName::TrackedSeen,
        SetName::TrackedSeenFai,
        SetName::ToldGiven,
        SetName::ToldSeen,
        SetName::ToldSeenFai,
        SetName::ToldRead,
    ];

    /// The set's number, 0 to 10 in the order above.
    // A property with a name says more than a conversion would.
    pub fn number(self) -> u8
        ensures value { result ≡ number self }
        ensures small { result < 11 }
    {
        self as u8
    }
}

/// A number that no set has: they go from 0 to 10.
#[derive(Clone, Copy, Debug, PartialEq, Eq)]
pub struct NoSuchSet(pub u64);

impl fmt::Display for NoSuchSet {
    ghost use Rattle.std.specs.Prelude.{Some};
    ghost use Rattle.store.specs.Prints.{no_set_text};

    ghost output = { λ e. Some (no_set_text e) };

    fn fmt<W: fmt::Write>(&self, f: &mut fmt::Formatter<W>) -> fmt::Result {
        write!(f, "no set has the number {}", self.0)
    }
}

impl Error for NoSuchSet {}

/// The set of this number, or none above 10.
impl TryFrom<u64> for SetName {
    type Error = NoSuchSet;

    ghost try_from_gives = { λ n r. MatchResult r (λ set. numbered n ≡ Some set) (λ e. (numbered n ≡ None) × (e.0 ≡ n)) };

    fn try_from(number: u64) -> Result<SetName, NoSuchSet> {
        SetName::ALL
            .get(number as usize)
            .copied()
            .ok_or(NoSuchSet(number))
    }
}
