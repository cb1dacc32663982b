// Twelve chains through one memory of cells.
ghost use Rattle.std.specs.Prelude.{◌≡◌, ◌<◌, None, length, vec_len};
ghost use Rattle.store.specs.Limits.{MayBeLimit};
ghost use Rattle.store.specs.Sets.{number};
ghost use Rattle.cells.specs.Links.{Running, Ending, Parted, sum};

use crate::cell::{Cell, Ends};
use store::SetName;

/// A chain for each set, by its number, and behind them the chain of the free cells. Every cell is on one of them.
// The cells are in a `Vec` here and not in a `Memory`, since the other facts speak of them too.
#[derive(Drop)]
pub struct Chains {
    pub(crate) cells: Vec<Cell>,
    pub(crate) ends: [Ends; 12],
    ghost lawful: { MayBeLimit (vec_len cells) },
    ghost twelve: { length ends ≡ 12 },
    ghost running: { Running cells.items ends },
    ghost ending: { Ending cells.items ends },
    ghost parted: { Parted ends },
    ghost whole: { sum ends ≡ vec_len cells },
}

/// The chain of a set, by its number, which indexes the ends of the chains.
#[derive(Clone, Copy)]
pub struct Chain {
    pub(crate) number: usize,
    ghost small: { number < 11 },
}

impl From<SetName> for Chain {
    ghost from_gives = { λ set chain. chain.number ≡ number set };

    fn from(set: SetName) -> Chain {
        Chain {
            number: usize::from(set.number()),
        }
    }
}

/// The gap behind so many cells of a chain; `before` is the last of them, and there is none at the front.
#[derive(Clone, Copy)]
pub struct Gap {
    pub(crate) chain: Chain,
    pub(crate) place: usize,
    pub(crate) before: Option<usize>,
}

impl Gap {
    /// The gap before the first cell of the chain.
    pub(crate) fn front(chain: Chain) -> Gap
        ensures { result ≡ record { chain = chain; place = 0; before = None } }
    {
        Gap {
            chain,
            place: 0,
            before: None,
        }
    }
}

/// Cells that stand together in a chain, and the gap before them.
#[derive(Clone, Copy)]
pub struct Run {
    pub(crate) gap: Gap,
    pub(crate) ends: Ends,
}
