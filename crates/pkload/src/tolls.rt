//! Limits on what loading a pickle may cost.

ghost use Rattle.std.specs.Prelude.{◌≡◌, ◌≤◌, ◌<◌, MatchOption, None};
ghost use Rattle.pkload.specs.Tolls.{Exceeds, KeepsWithin, are_counted, standard, tolls_said};
ghost use Rattle.pkload.specs.Tolls.{unlimited};

use crate::tally::Tally;
use pklist::CostLimits;
use std::fmt;

/// Limits on what the keys of a pickle may cost. Depths are counted up to 1,023 and weights up to
/// 1,048,575: nothing exceeds a limit of at least that many, of which only 4,294,967,295 means to
/// be none ([`Tolls::are_counted`]).
#[derive(Clone, Copy, Debug, PartialEq, Eq)]
pub struct Tolls {
    /// The depth of a key: levels of tuples.
    pub levels: u32,
    /// The weight of a key.
    pub weight: u32,
    /// The weights of all keys together.
    pub work: u64,
    /// The weights of all keys whose hash isn't salted.
    pub clash: u64,
    /// The bytes of memory that loading takes.
    pub memory: u64,
    /// Whether BUILD may take an object that an import answered.
    pub builds: bool,
}

/// Why loading would cost too much, in the order in which the reasons are tried.
#[derive(Clone, Copy, Debug, PartialEq, Eq)]
pub enum Excess {
    /// A key is deeper than `levels`.
    DeepKey,
    /// A key is heavier than `weight`, or all of them together than `work`.
    HeavyKeys,
    /// The keys whose hash isn't salted are heavier than `clash`.
    ManyKeys,
    /// Loading takes more memory than `memory`.
    MuchMemory,
    /// BUILD takes an object that an import answered.
    BuildsImport,
    /// An allocation for the bill was refused, or a sum doesn't fit 64 bits.
    OutOfMemory,
}

impl fmt::Display for Excess {
    ghost use Rattle.std.specs.Prelude.{Some};
    ghost use Rattle.pkload.specs.Printed.{excess_name};

    ghost output = { λ excess. Some (excess_name excess) };

    fn fmt<W: fmt::Write>(&self, f: &mut fmt::Formatter<W>) -> fmt::Result {
        match *self {
            Excess::DeepKey => f.write_str("DeepKey"),
            Excess::HeavyKeys => f.write_str("HeavyKeys"),
            Excess::ManyKeys => f.write_str("ManyKeys"),
            Excess::MuchMemory => f.write_str("MuchMemory"),
            Excess::BuildsImport => f.write_str("BuildsImport"),
            Excess::OutOfMemory => f.write_str("OutOfMemory"),
        }
    }
}

impl Tolls {
    /// The default limits: 1,000 levels, a weight of 1,000,000 for a key and of 100,000,000 for all
    /// keys, no limit on collisions or memory, and no BUILD of an imported object.
    pub fn standard() -> Tolls
        ensures { result ≡ standard }
    {
        Tolls {
            levels: 1_000,
            weight: 1_000_000,
            work: 100_000_000,
            clash: u64::MAX,
            memory: u64::MAX,
            builds: false,
        }
    }

    /// No limits, whatever BUILD takes.
    pub fn unlimited() -> Tolls
        ensures { result ≡ unlimited }
    {
        Tolls {
            levels: u32::MAX,
            weight: u32::MAX,
            work: u64::MAX,
            clash: u64::MAX,
            memory: u64::MAX,
            builds: true,
        }
    }

    /// The limits that a list file says, and no others.
    ///
    /// ```rust
    /// use pklist::Allow;
    /// use pkload::Tolls;
    ///
    /// let allow = Allow::from_toml(alloc, "version = 2\n[imports]\n[limits]\nlevels = 100\n")?;
    /// let tolls = Tolls::said(&allow.cost_limits());
    /// assert_eq!(rt; (tolls.levels, tolls.memory), (100, u64::MAX));
    /// ```
    pub fn said(said: &CostLimits) -> Tolls
        ensures { result ≡ tolls_said said.now }
    {
        let none = Tolls::unlimited();
        Tolls {
            levels: said.levels.unwrap_or(none.levels),
            weight: said.weight.unwrap_or(none.weight),
            work: said.work.unwrap_or(none.work),
            clash: said.clash.unwrap_or(none.clash),
            memory: said.memory.unwrap_or(none.memory),
            builds: said.builds.unwrap_or(none.builds),
        }
    }

    /// Whether a key can exceed the limits on its depth and its weight, but for those that say that
    /// there is none.
    pub fn are_counted(&self) -> bool
        ensures { result ≡ are_counted self.now }
    {
        (self.levels < 1_023 || self.levels == u32::MAX)
            && (self.weight < 1_048_575 || self.weight == u32::MAX)
    }

    /// The first limit that a tally or this much memory exceeds.
    pub(crate) fn excess_of(&self, tally: &Tally, memory: u64) -> Option<Excess>
        ensures excess { MatchOption result (KeepsWithin self.now tally.now memory)
            (λ excess. Exceeds excess self.now tally.now memory) }
        ensures unlimited { self.now ≡ unlimited → result ≡ None }
    {
        if tally.levels > self.levels {
            return Some(Excess::DeepKey);
        }
        if tally.weight > self.weight || tally.work > self.work {
            return Some(Excess::HeavyKeys);
        }
        if tally.clash > self.clash {
            return Some(Excess::ManyKeys);
        }
        if self.memory < memory {
            return Some(Excess::MuchMemory);
        }
        if tally.builds && !self.builds {
            return Some(Excess::BuildsImport);
        }
        None
    }
}
