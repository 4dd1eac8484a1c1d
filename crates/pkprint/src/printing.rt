//! The lines that the program prints, written directly to a writer without allocating.
mod costing;
mod hexadecimal;
mod imports;
mod listing;
mod verdict;

pub use costing::write_costing;
pub use imports::write_imports;
pub use listing::{write_last, write_line};
pub use verdict::{write_no, write_row, write_verdict};
