// A row of memory.

/// The memory of one range. A row that is handed over may hold anything.
// So `label` is a byte, and no name.
#[derive(Clone, Copy, Debug, Default, PartialEq, Eq)]
pub struct Row {
    pub label: u8,
    pub low: u64,
    pub high: u64,
}
