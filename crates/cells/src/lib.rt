// A store in cells linked by their numbers, in memory that the caller hands over.
#![tactic(auto)]

mod cell;
mod cells_store;
mod chains;
mod change;
pub mod laws;
mod links;
mod range_store;
mod walk;
mod whole;

pub use cell::Cell;
pub use cells_store::CellStore;
