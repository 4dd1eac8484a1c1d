//! Readers that can pass over bytes.

ghost use Rattle.pkread.specs.Pull.{PassedOver};

use std::fs::{File, OpenFile};
use std::io::{Read, Seek, SeekFrom};

/// A reader that can pass over bytes without reading them.
pub trait PassOver: Read {
    /// Passes over at most `wanted` of the next bytes, and returns their number.
    fn pass_over(&mut self, wanted: usize) -> usize
        ensures { PassedOver wanted (Self.remaining self.old) (Self.remaining self.new) result };
}

/// Passes over bytes up to the end that the file has now. A pipe has no place, and a special file
/// has no length: these are read. If a seek fails, the place stays.
impl PassOver for File {
    fn pass_over(&mut self, wanted: usize) -> usize {
        let Ok(place) = self.seek(SeekFrom::Current(0)) else {
            return 0;
        };
        let Ok(metadata) = self.metadata() else {
            return 0;
        };
        let count = metadata.len().saturating_sub(place).min(wanted as u64);
        match self.seek(SeekFrom::Start(place + count)) {
            Ok(_) => count as usize,
            Err(_) => 0,
        }
    }
}
