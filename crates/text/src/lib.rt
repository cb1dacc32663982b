//! Reading and printing of numbers and bytes in scripts.
#![tactic(auto)]

mod decimal;
mod hex;

pub use decimal::{printed_number_reads_back, read_decimal, write_decimal};
pub use hex::{printed_bytes_read_back, read_hex, write_hex};
