//! What is kept of the memo from one pickle to the next.

/// The memo at the start of each pickle of a row after the first.
#[derive(Clone, Copy, Debug, PartialEq, Eq)]
pub enum Memo {
    /// Empty, as with a call of `pickle.load` for each pickle.
    Fresh,
    /// As the pickles before it left it, as with one `pickle.Unpickler` and several calls of
    /// `load()`.
    Kept,
}
