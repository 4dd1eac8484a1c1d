//! What a command line asks for.
use pkmachine::{Memo, OldStrings};

/// Which pickles of a file are checked.
#[derive(Clone, Copy, Debug, PartialEq, Eq)]
pub enum Pickles {
    /// The first one.
    First,
    /// With `--all`: each pickle of a row. With `--one-unpickler` the memo is kept from one to the
    /// next.
    Row(Memo),
}

/// What a command line asks for, with the values as given.
#[derive(Debug, Drop)]
pub enum Job {
    /// `dis FILE`: the instructions of the pickle in FILE.
    Dis {
        /// The path of the pickle.
        file: String,
    },
    /// `check --allow LIST [--old-strings OBJECT] [--all [--one-unpickler]] [--bill] FILE`: whether
    /// the pickle in FILE imports only what LIST permits.
    Check {
        /// The path of the list file.
        allow: String,
        /// With `--old-strings`: how Python 2 strings are decoded.
        old: OldStrings,
        /// Which pickles of FILE are checked.
        pickles: Pickles,
        /// With `--bill`: what loading the last of them costs is reported too.
        bill: bool,
        /// The path of the pickle.
        file: String,
    },
    /// `imports FILE`: the imports of the pickle in FILE.
    Imports {
        /// The path of the pickle.
        file: String,
    },
    /// `optimize FILE OUT`: the pickle in FILE, optimized into OUT.
    Optimize {
        /// The path of the pickle.
        file: String,
        /// The path for its optimized form.
        out: String,
    },
    /// `json FILE`: the plain pickle in FILE, as JSON.
    Json {
        /// The path of the pickle.
        file: String,
    },
}
