// Which label each set has: a set moves to another by their labels, and no row moves.
ghost use Rattle.std.specs.Prelude.{◌≡◌, slice_index};
ghost use Rattle.std.specs.List.{swap};
ghost use Rattle.std.specs.List.Sorted.{IsPermutation};
ghost use Rattle.store.specs.Sets.{number};
ghost use Rattle.rows.specs.Labels.{own};

use crate::table::Label;
use store::SetName;

/// The label of each set, by its number. Every label has one set, so that every row in use counts for one.
#[derive(Clone, Copy)]
pub struct Labels {
    label: [u8; 11],
    ghost permuted: { ∥ IsPermutation own label ∥₁ },
}

impl Labels {
    /// Each set has its own number for its label.
    pub(crate) fn new() -> Labels
        ensures { result.label ≡ own }
    {
        Labels {
            label: [0, 1, 2, 3, 4, 5, 6, 7, 8, 9, 10],
        }
    }

    /// The label of a set.
    pub(crate) fn of(&self, set: SetName) -> Label
        ensures { result.value ≡ slice_index self.now.label (number set) }
    {
        Label {
            value: self.label[usize::from(set.number())],
        }
    }

    /// Two sets change labels.
    pub(crate) fn swap(&mut self, one: SetName, two: SetName)
        ensures { self.new.label ≡ swap self.old.label (number one) (number two) }
    {
        self.label
            .swap(usize::from(one.number()), usize::from(two.number()));
    }
}
