//! An optional number in four bytes.

ghost use Rattle.std.specs.Prelude.{◌≡◌, IfOk};

use std::alloc::AllocError;
use std::marker::Model;

/// What stands for no number.
const NONE: u32 = 4_294_967_295;

/// A number below 2^32 - 1, or none. An `Option<u32>` takes twice the memory.
#[derive(Clone, Copy)]
pub(crate) struct Entry {
    number: u32,
}

impl Model for Entry {
    ghost use Rattle.std.specs.Prelude.{ℕ, Option};
    ghost use Rattle.pkopt.specs.Private.Entries.{number_held, held, held_by};

    ghost Value = { Option ℕ };

    ghost view = { λ entry. number_held entry.number };

    ghost inverse = { λ number. record { number = held number } };

    ghost inverse_ok = { λ entry h. held_by (λ number. record entry { number = number })
        entry.number };
}

impl Entry {
    /// An entry of this number.
    ///
    /// # Errors
    ///
    /// An error if it is 2^32 - 1. A `Trace` counts fewer than 2^32 writes, which are named from 0,
    /// so this is neither the name of a write nor its new number.
    #[inline(always)]
    pub(crate) fn new(number: Option<u32>) -> Result<Entry, AllocError>
        ensures { IfOk result (λ entry. entry ≡ number) }
    {
        let Some(number) = number else {
            return Ok(Entry { number: NONE });
        };
        if number == NONE {
            return Err(AllocError);
        }
        Ok(Entry { number })
    }

    /// The number.
    #[inline(always)]
    pub(crate) fn number(self) -> Option<u32>
        ensures { result ≡ self }
    {
        if self.number == NONE {
            None
        } else {
            Some(self.number)
        }
    }
}
