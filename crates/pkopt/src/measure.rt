//! The length of a form, and its first two bytes.

ghost use Rattle.std.specs.Prelude.{◌≡◌};
ghost use Rattle.pkopt.specs.Private.Sinks.{byte_in, counts_more, counts_none};
ghost use Rattle.pkopt.specs.Private.Sinks.{Counts, unmeasured};

use crate::sink::Sink;
use std::alloc::AllocError;

/// Counts the bytes that it takes, and keeps the first two.
#[derive(Clone, Copy)]
pub(crate) struct Measure {
    /// How many there are.
    pub len: u64,
    /// The first byte, if there is one.
    pub first: u8,
    /// The second byte, if there are two.
    pub second: u8,
}

/// The byte at a place if it is in this piece, which follows `before` bytes; else `otherwise`.
fn byte_in(place: u64, before: u64, piece: &[u8], otherwise: u8) -> u8
    ensures { result ≡ byte_in place before piece.now otherwise }
{
    let Some(index) = place.checked_sub(before) else {
        return otherwise;
    };
    if index < piece.len() as u64 {
        piece[index as usize]
    } else {
        otherwise
    }
}

impl Measure {
    /// Before the first byte.
    pub(crate) fn new() -> Measure
        ensures { result ≡ unmeasured }
    {
        Measure {
            len: 0,
            first: 0,
            second: 0,
        }
    }

    /// Keeps what the piece has of the first two bytes.
    #[inline(never)]
    fn begin(&mut self, piece: &[u8])
        ensures len { self.new.len ≡ self.old.len }
        ensures first { self.new.first ≡ byte_in 0 self.old.len piece.now self.old.first }
        ensures second { self.new.second ≡ byte_in 1 self.old.len piece.now self.old.second }
    {
        self.first = byte_in(0, self.len, piece, self.first);
        self.second = byte_in(1, self.len, piece, self.second);
    }
}

impl Sink for Measure {
    type Error = AllocError;

    ghost takes = { Counts };

    #[inline(always)]
    fn take(&mut self, piece: &[u8]) -> Result<(), AllocError> {
        if self.len < 2 {
            self.begin(piece);
        }
        let Some(len) = self.len.checked_add(piece.len() as u64) else {
            return Err(AllocError);
        };
        self.len = len;
        Ok(())
    }

    ghost takes_none = { counts_none };

    ghost takes_more = { counts_more };
}
