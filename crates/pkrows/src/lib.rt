//! Tests that cross crates: worked rows with known answers, through the library calls that a
//! program makes.
//!
//! Each expected value comes from the description of the format (`docs/FORMATS.md`) or from
//! CPython, never from this project's own output.
#![tactic(auto)]

#[cfg(test)]
mod calling;
#[cfg(test)]
mod examples;
#[cfg(test)]
mod exported;
#[cfg(test)]
mod giving;
#[cfg(test)]
mod judging;
#[cfg(test)]
mod lists;
#[cfg(test)]
mod opcodes;
#[cfg(test)]
mod optimized;
#[cfg(test)]
mod sequences;
#[cfg(test)]
mod sources;
#[cfg(test)]
mod spellings;
#[cfg(test)]
mod verdicts;
