// A store in ordered rows, in memory that the caller hands over.
#![tactic(auto)]

mod change;
mod edit;
mod labels;
mod row;
mod rows_store;
mod search;
mod table;

pub use row::Row;
pub use rows_store::RowStore;
