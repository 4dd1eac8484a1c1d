//! The program's arguments.
use crate::fault::Fault;
use std::env;
use std::io::ErrorKind;
use std::rt::Env;

/// The program's arguments, its name first.
///
/// # Errors
///
/// `NotUtf8` if one of them is not UTF-8; otherwise `OutOfMemory`.
pub fn words_of<'a, R: Env + AllocGlobal>(rt: &R) -> Result<Vec<String>, Fault<'a>> {
    match env::args(rt) {
        Ok(words) => Ok(words.collect(rt.alloc())?),
        Err(error) => Err(match error.kind() {
            ErrorKind::InvalidData => Fault::NotUtf8,
            _ => Fault::OutOfMemory,
        }),
    }
}
