//! Limits on what is read, kept and written.

ghost use Rattle.std.specs.Prelude.{◌≡◌, ◌≤◌, SomeIff};
ghost use Rattle.pkops.specs.Limits.{AreWithin, bounds, greatest, greatest_large, holding_all};
ghost use Rattle.pkops.specs.Limits.{large, standard};

use std::marker::Model;

/// Limits on what is read, kept and written. Each is at most its standard value, except the limit
/// on skipped payloads and the limits for large data.
#[derive(Clone, Copy, Debug, PartialEq, Eq)]
pub struct Limits {
    counted: u64,
    stack: u64,
    memo: u64,
    depth: u64,
    values: u64,
    passed: u64,
    numbers: u64,
}

impl Model for Limits {
    ghost use Rattle.pkops.specs.Limits.{AreWithin, Bounds, bounds, greatest_large};

    ghost Value = { Bounds };

    ghost view = { λ a. bounds a.counted a.stack a.memo a.depth a.values a.passed a.numbers };

    ghost invariant = { λ a.
        AreWithin (bounds a.counted a.stack a.memo a.depth a.values a.passed a.numbers)
        greatest_large };

    ghost inverse = { λ b. record {
      counted = b.counted;
      stack = b.stack;
      memo = b.memo;
      depth = b.depth;
      values = b.values;
      passed = b.passed;
      numbers = b.numbers;
    } };
}

impl Limits {
    /// The default limits: payloads of 16,777,216 bytes, held or skipped; 1,000,000 stack entries;
    /// 1,000,000 memo entries; JSON values nested 100 deep, and 1,000,000 of them; and memo numbers
    /// up to 4,294,967,295, the greatest that an instruction can spell.
    pub const STANDARD: Limits = Limits {
        counted: 16_777_216,
        stack: 1_000_000,
        memo: 1_000_000,
        depth: 100,
        values: 1_000_000,
        passed: 16_777_216,
        numbers: 4_294_967_295,
    };

    /// The greatest limits without large data: the default ones, with 1,099,511,627,776 bytes for
    /// skipped payloads.
    pub const GREATEST: Limits = Limits {
        passed: 1_099_511_627_776,
        ..Limits::STANDARD
    };

    /// The default limits for large data: 4,294,967,295 payload bytes, stack entries and memo
    /// entries, and otherwise the default limits.
    pub const LARGE: Limits = Limits {
        counted: 4_294_967_295,
        stack: 4_294_967_295,
        memo: 4_294_967_295,
        ..Limits::STANDARD
    };

    /// The greatest limits of all: those for large data, with 1,099,511,627,776 bytes for skipped
    /// payloads.
    pub const GREATEST_LARGE: Limits = Limits {
        passed: 1_099_511_627_776,
        ..Limits::LARGE
    };

    /// Limits with these values, or `None` if one of them is above [`Limits::STANDARD`]. The limits
    /// on skipped payloads and on memo numbers are the standard ones.
    pub fn new(counted: u64, stack: u64, memo: u64, depth: u64, values: u64) -> Option<Limits>
        ensures { SomeIff result
            (AreWithin (bounds counted stack memo depth values standard.passed standard.numbers)
            standard)
            (bounds counted stack memo depth values standard.passed standard.numbers) }
    {
        if counted <= Limits::STANDARD.counted
            && stack <= Limits::STANDARD.stack
            && memo <= Limits::STANDARD.memo
        {
            Limits::large(counted, stack, memo, depth, values)
        } else {
            None
        }
    }

    /// Limits for large data with these values, or `None` if one of them is above
    /// [`Limits::LARGE`]. Memory stays bounded by what was read: no payload, stack or memo is
    /// allocated before its bytes arrive.
    pub fn large(counted: u64, stack: u64, memo: u64, depth: u64, values: u64) -> Option<Limits>
        ensures { SomeIff result
            (AreWithin (bounds counted stack memo depth values standard.passed standard.numbers)
            large)
            (bounds counted stack memo depth values standard.passed standard.numbers) }
    {
        if counted <= Limits::LARGE.counted
            && stack <= Limits::LARGE.stack
            && memo <= Limits::LARGE.memo
            && depth <= Limits::LARGE.depth
            && values <= Limits::LARGE.values
        {
            Some(Limits {
                counted,
                stack,
                memo,
                depth,
                values,
                ..Limits::STANDARD
            })
        } else {
            None
        }
    }

    /// These limits with another one on skipped payloads, in bytes; `None` above 1,099,511,627,776.
    pub fn with_passed(self, passed: u64) -> Option<Limits>
        ensures { SomeIff result (passed ≤ greatest.passed) (record self { passed = passed }) }
    {
        if passed <= Limits::GREATEST.passed {
            Some(Limits { passed, ..self })
        } else {
            None
        }
    }

    /// These limits with another one on memo numbers; `None` above 4,294,967,295. An unpickler
    /// whose memo is an array, like CPython's, allocates memory up to the greatest number that a
    /// pickle stores under.
    pub fn with_numbers(self, numbers: u64) -> Option<Limits>
        ensures { SomeIff result (numbers ≤ greatest.numbers) (record self { numbers = numbers }) }
    {
        if numbers <= Limits::GREATEST.numbers {
            Some(Limits { numbers, ..self })
        } else {
            None
        }
    }

    /// These limits for a reader that holds every payload: `counted` applies to each of them.
    pub fn holding_all(self) -> Limits
        ensures { result ≡ holding_all self }
    {
        let Limits { counted, .. } = self;
        Limits {
            passed: counted,
            ..self
        }
    }

    /// The most bytes in the payload of a counted argument that is held.
    pub fn counted(&self) -> u64
        ensures is { result ≡ self.now.counted }
        ensures most { result ≤ greatest_large.counted }
    {
        self.counted
    }

    /// The most stack entries, marks included.
    pub fn stack(&self) -> u64
        ensures is { result ≡ self.now.stack }
        ensures most { result ≤ greatest_large.stack }
    {
        self.stack
    }

    /// The most memo entries.
    pub fn memo(&self) -> u64
        ensures is { result ≡ self.now.memo }
        ensures most { result ≤ greatest_large.memo }
    {
        self.memo
    }

    /// The deepest nesting of JSON values.
    pub fn depth(&self) -> u64
        ensures is { result ≡ self.now.depth }
        ensures most { result ≤ greatest_large.depth }
    {
        self.depth
    }

    /// The most JSON values.
    pub fn values(&self) -> u64
        ensures is { result ≡ self.now.values }
        ensures most { result ≤ greatest_large.values }
    {
        self.values
    }

    /// The most bytes in a payload that is skipped: one of bytes or of a bytearray, of which only
    /// the length is reported.
    pub fn passed(&self) -> u64
        ensures is { result ≡ self.now.passed }
        ensures most { result ≤ greatest_large.passed }
    {
        self.passed
    }
    /// The greatest memo number that PUT, BINPUT and LONG_BINPUT may store under. MEMOIZE stores
    /// under the number of entries, which `memo` limits.
    pub fn numbers(&self) -> u64
        ensures is { result ≡ self.now.numbers }
        ensures most { result ≤ greatest_large.numbers }
    {
        self.numbers
    }
}
