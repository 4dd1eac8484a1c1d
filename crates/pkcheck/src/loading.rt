//! How the pickles of a row are loaded.

use pkmachine::{Memo, OldStrings};

/// How the pickles of a row are loaded, as set by whoever unpickles them.
#[derive(Clone, Copy, Debug, PartialEq, Eq)]
pub struct Loading {
    /// The memo between pickles.
    pub memo: Memo,
    /// The decoding of Python 2 strings.
    pub old_strings: OldStrings,
}
