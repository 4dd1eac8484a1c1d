//! The imports that a pickle requests, and the texts that name them.
//!
//! An import is listed by the numbers of two texts, so it takes a few bytes however long its names
//! are. [`ImportTable`] collects texts and imports, [`Imports`] lends the imports of an answer, and
//! [`Quoted`] prints a name on one line.
#![tactic(auto)]

mod import;
mod import_list;
mod import_table;
mod imports;
mod quoted;
mod texts;

pub use import::{Asked, Import, Named, pair_of};
pub use import_list::{ImportIter, ImportList};
pub use import_table::ImportTable;
pub use imports::Imports;
pub use quoted::Quoted;
