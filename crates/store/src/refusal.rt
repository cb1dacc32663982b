// Refusals as they are told: a number and the layer that refuses; and the refusals of the store layer.
ghost use Rattle.std.specs.Prelude.{◌≡◌};
ghost use Rattle.store.specs.Refusals.{listed};

use std::error::Error;
use std::fmt;

/// The layers of the engine, from the lowest up.
#[derive(Clone, Copy, Debug, PartialEq, Eq)]
pub enum Layer {
    Store,
    Set,
    Element,
    Record,
    Copy,
}

impl fmt::Display for Layer {
    ghost use Rattle.std.specs.Prelude.{Some};
    ghost use Rattle.store.specs.Prints.{layer_text};

    ghost output = { λ l. Some (layer_text l) };

    fn fmt<W: fmt::Write>(&self, f: &mut fmt::Formatter<W>) -> fmt::Result {
        f.write_str(match self {
            Layer::Store => "store",
            Layer::Set => "set",
            Layer::Element => "element",
            Layer::Record => "record",
            Layer::Copy => "copy",
        })
    }
}

/// A refusal's number in the list of refusals, and the layer it comes from.
// The number is what is told; the cases are each layer's own enum.
#[derive(Clone, Copy, Debug, PartialEq, Eq)]
pub struct Refusal {
    pub number: u8,
    pub layer: Layer,
}

/// The number and the layer, as in `25 store`.
impl fmt::Display for Refusal {
    ghost use Rattle.std.specs.Prelude.{Some};
    ghost use Rattle.store.specs.Prints.{refusal_text};

    ghost output = { λ r. Some (refusal_text r) };

    fn fmt<W: fmt::Write>(&self, f: &mut fmt::Formatter<W>) -> fmt::Result {
        write!(f, "{} {}", self.number, self.layer)
    }
}

/// Why the store layer refuses.
#[derive(Clone, Copy, Debug, PartialEq, Eq)]
pub enum StoreRefusal {
    /// A store was to be made of fewer than 64 or more than 65,535 rows or cells.
    RowCount,
    /// The maximal ranges of all sets would be more than the store's limit.
    Full,
}

impl From<StoreRefusal> for Refusal {
    ghost from_gives = { λ e r. r ≡ listed e };

    fn from(refusal: StoreRefusal) -> Refusal {
        let number = match refusal {
            StoreRefusal::RowCount => 1,
            StoreRefusal::Full => 25,
        };
        Refusal {
            number,
            layer: Layer::Store,
        }
    }
}

impl fmt::Display for StoreRefusal {
    ghost use Rattle.std.specs.Prelude.{Some};
    ghost use Rattle.store.specs.Prints.{reason_text};

    ghost output = { λ r. Some (reason_text r) };

    fn fmt<W: fmt::Write>(&self, f: &mut fmt::Formatter<W>) -> fmt::Result {
        f.write_str(match self {
            StoreRefusal::RowCount => "a store has 64 to 65,535 rows or cells",
            StoreRefusal::Full => "the ranges of all sets would be more than the store's limit",
        })
    }
}

impl Error for StoreRefusal {}
