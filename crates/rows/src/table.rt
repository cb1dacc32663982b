// Rows of memory, the first of them in use and in order.
ghost use Rattle.std.specs.Prelude.{◌≡◌, ◌<◌, ◌≤◌, true, take, vec_len};
ghost use Rattle.rows.specs.Rows.{rising};

use crate::row::Row;
use store::Memory;

/// The first `used` rows each hold a maximal range under a label; they are in order of label and range.
// The rows come full and go back as many as they were, so how many are in use stands beside them.
#[derive(Drop)]
pub struct Table {
    pub(crate) memory: Memory<Row>,
    pub(crate) used: usize,
    ghost fits: { used ≤ vec_len memory.places },
    ghost rises: { rising 0 (take used memory.places.items) ≡ true },
}

/// One of the eleven labels.
// What a row's byte holds: no name of a set, which has another label after each move.
#[derive(Clone, Copy)]
pub struct Label {
    pub(crate) value: u8,
    ghost small: { value < 11 },
}

/// Rows that stand together, from the place `from` up to the place `to`.
#[derive(Clone, Copy)]
pub struct Stretch {
    pub(crate) from: usize,
    pub(crate) to: usize,
    ghost up: { from ≤ to },
}
