//! Limits on what loading costs, and the bill.
ghost use Rattle.std.specs.Prelude.{◌≡◌};
ghost use Rattle.pkguard.specs.Loading.{are_served, bill_of, costs_over, extent_by, flag_over};
ghost use Rattle.pkguard.specs.Loading.{nothing_billed, old_strings_with, tolls_by};

use crate::settings::{Settings, old_strings_in};
use pkcheck::{Extent, OldStrings};
use pklist::CostLimits;
use pkload::{Tally, Tolls};

/// Limits on what loading a pickle may cost, for C.
#[repr(C)]
#[derive(Clone, Copy, Debug)]
pub struct Costs {
    /// The most levels of tuples in a key.
    pub levels: u32,
    /// The greatest weight of a key.
    pub weight: u32,
    /// The greatest weight of all keys of a pickle together.
    pub work: u64,
    /// The greatest weight of those keys of a pickle whose hash isn't salted.
    pub clash: u64,
    /// The most bytes of memory that loading a pickle may take.
    pub memory: u64,
    /// Whether BUILD may take an object that an import answered: 1 if it may, otherwise 0.
    pub builds: u32,
    /// Which pickles are checked: 1 for all up to the end of the bytes, 0 for the first alone.
    pub all: u32,
}

/// What loading a pickle costs, for C.
#[repr(C)]
#[derive(Clone, Copy, Debug, PartialEq, Eq)]
pub struct Bill {
    /// The levels of tuples in the deepest key.
    pub levels: u32,
    /// The weight of the heaviest key.
    pub weight: u32,
    /// The weight of all keys together.
    pub work: u64,
    /// The weight of those keys whose hash isn't salted.
    pub clash: u64,
    /// The bytes of memory that loading takes.
    pub memory: u64,
}

/// An empty bill.
pub const NOTHING: Bill = Bill {
    levels: 0,
    weight: 0,
    work: 0,
    clash: 0,
    memory: 0,
};

/// The bill for what keys cost together, and for this many bytes of memory.
pub fn bill_of(tally: &Tally, memory: u64) -> Bill
    ensures { result ≡ bill_of tally.now memory }
{
    Bill {
        levels: tally.levels,
        weight: tally.weight,
        work: tally.work,
        clash: tally.clash,
        memory,
    }
}

/// The limits of a check.
pub fn tolls_by(costs: &Costs) -> Tolls
    ensures { result ≡ tolls_by costs.now }
{
    Tolls {
        levels: costs.levels,
        weight: costs.weight,
        work: costs.work,
        clash: costs.clash,
        memory: costs.memory,
        builds: costs.builds == 1,
    }
}

/// The limits that a list file says, and otherwise these.
pub fn costs_over(costs: &Costs, said: &CostLimits) -> Costs
    ensures { result ≡ costs_over costs.now said.now }
{
    Costs {
        levels: said.levels.unwrap_or(costs.levels),
        weight: said.weight.unwrap_or(costs.weight),
        work: said.work.unwrap_or(costs.work),
        clash: said.clash.unwrap_or(costs.clash),
        memory: said.memory.unwrap_or(costs.memory),
        builds: flag_over(costs.builds, said.builds),
        all: costs.all,
    }
}

/// A flag as C has it, or this one.
fn flag_over(flag: u32, said: Option<bool>) -> u32
    ensures { result ≡ flag_over flag said }
{
    match said {
        Some(true) => 1,
        Some(false) => 0,
        None => flag,
    }
}

/// Where a check ends.
pub fn extent_by(costs: &Costs) -> Extent
    ensures { result ≡ extent_by costs.now }
{
    if costs.all == 1 {
        Extent::ToTheEnd
    } else {
        Extent::OnePickle
    }
}

/// How Python 2 strings are decoded; `None` if the settings or the limits are not supported.
pub fn old_strings_with(settings: &Settings, costs: &Costs) -> Option<OldStrings>
    ensures { result ≡ old_strings_with settings.now costs.now }
{
    if are_served(costs) {
        old_strings_in(settings)
    } else {
        None
    }
}

/// Whether each flag is 0 or 1, and a key can exceed its limits, but for those that say that there
/// is none.
fn are_served(costs: &Costs) -> bool
    ensures { result ≡ are_served costs.now }
{
    costs.builds <= 1 && costs.all <= 1 && tolls_by(costs).are_counted()
}
