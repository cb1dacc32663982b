// IDs, ranges, the eleven sets, and what every store of ranges does.
#![tactic(auto)]

pub mod laws;
pub mod limit;
pub mod memory;
pub mod range;
pub mod refusal;
pub mod sets;
pub mod stores;

pub use limit::Limit;
pub use memory::{Memory, RefusedMemory};
pub use range::{COUNTERS, Range};
pub use refusal::{Layer, Refusal, StoreRefusal};
pub use sets::{NoSuchSet, SetName};
pub use stores::{InMemory, RangeStore};
