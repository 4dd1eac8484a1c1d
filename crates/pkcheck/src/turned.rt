//! Where a loop over lent instructions ends before their bytes do.

use pkops::Reason;

/// The first instruction that a session refuses among some bytes.
#[derive(Clone, Copy, Debug, Drop)]
pub(crate) struct Turned {
    /// The number of bytes in front of it.
    pub before: usize,
    /// The number of its bytes.
    pub length: usize,
    pub reason: Reason,
}

/// The first instruction among some bytes at which an audience fails. See `Turned`.
pub(crate) struct Failed<E> {
    pub before: usize,
    pub length: usize,
    pub error: E,
}
