//! The names of files that are created or replaced.
use std::alloc::{AllocError, Global};
use std::io;
use std::io::ErrorKind;
use std::path::{Path, PathBuf};
use std::rt::Files;

/// The longest name, in bytes, that is extended with a suffix: file names have at most 255 bytes.
const LONGEST: usize = 240;

/// What replaces a longer name.
const SHORT: &str = "pktool";

/// How many symbolic links are followed, the same number as Linux follows.
const MOST_LINKS: u32 = 40;

/// A name for an unfinished file next to this one.
pub fn partial_name(alloc: Global, path: &str, number: u32) -> Result<String, AllocError> {
    match Path::new(path).file_name() {
        Some(name) if name.len() > LONGEST => {
            let short = Path::new(path).with_file_name(alloc, SHORT)?;
            numbered(alloc, short.as_str(), number)
        }
        _ => numbered(alloc, path, number),
    }
}

fn numbered(alloc: Global, path: &str, number: u32) -> Result<String, AllocError> {
    match number {
        0 => format!(in alloc; "{path}.partial"),
        _ => format!(in alloc; "{path}.{number}.partial"),
    }
}

/// The name that a chain of symbolic links ends in. No file needs to exist there.
pub fn real_name<R: Files>(rt: &R, alloc: Global, path: &str) -> io::Result<PathBuf> {
    let mut name = PathBuf::from_str(alloc, path)?;
    for _ in 0..MOST_LINKS {
        match rt.read_link(alloc, name.as_str()) {
            Ok(target) => name.set_file_name(target.as_str())?,
            Err(error) => {
                return match error.kind() {
                    // not a link, or no file
                    ErrorKind::InvalidInput | ErrorKind::NotFound => Ok(name),
                    _ => Err(error),
                };
            }
        }
    }
    Err(io::Error::from(ErrorKind::FilesystemLoop))
}
