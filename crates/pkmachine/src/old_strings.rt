//! How Python 2 strings are decoded.
//!
//! The decoding is a parameter of the one machine, so no lemma is proved three times. Under `Ascii`
//! a string that isn't ASCII is refused: such a pickle always raises there, and a yes to it would
//! say nothing.

/// How an unpickler decodes a Python 2 string (type `str`): STRING, BINSTRING and SHORT_BINSTRING.
/// In Python 3 this is the `encoding` of an `Unpickler`.
#[derive(Clone, Copy, Debug, PartialEq, Eq)]
pub enum OldStrings {
    /// Unspecified: it may decode to any object, or raise.
    Unknown,
    /// As text if all its bytes are ASCII; otherwise it raises.
    Ascii,
    /// As bytes.
    Bytes,
}
