// A cell of memory, and the ends of linked ones.

/// The memory of one range, and the number of the next cell. A cell that is handed over may hold anything.
// `next` is a number and no `Option`, which would make a cell a third larger.
#[derive(Clone, Copy, Debug, Default, PartialEq, Eq)]
pub struct Cell {
    pub low: u64,
    pub high: u64,
    pub next: usize,
}

/// The first and the last of linked cells, and how many they are. Of none the last means nothing; the first of a chain without cells is the number that
/// ends its links, which no cell has.
// No `Option` around the three: the count is needed in any case, and a whole chain is handed over as it is.
#[derive(Clone, Copy)]
pub struct Ends {
    pub(crate) first: usize,
    pub(crate) last: usize,
    pub(crate) count: usize,
}
