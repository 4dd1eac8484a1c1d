//! Exports a plain pickle as JSON, without executing it.
//!
//! The pickle is checked and then replayed: a listener borrows a text only for its call, and would
//! have to copy it. Depth, count and size of each object are known before a value is built, and
//! counts stop at the limit plus one, so a short pickle that unfolds to very many values is refused
//! at once. Texts are made of the objects themselves, by serde; no `serde_json::Value` is built for
//! them.
#![tactic(auto)]

mod action;
mod arena;
mod build;
mod error;
mod exporting;
mod final_members;
mod front;
mod halt;
mod integer;
mod judge;
mod kinds;
pub mod laws;
mod moves;
mod node;
mod objects;
mod pieces;
mod ranks;
mod replay;
mod settle;
mod settled;
mod slots;
mod texts;
mod writing;

pub use error::ExportError;
pub use exporting::{export, export_text, export_to};
