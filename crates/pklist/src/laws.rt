//! Laws of the definitions. Each is the contract of a function that does nothing.

ghost use Rattle.pklist.specs.Bounded.{NamesAreBounded};
ghost use Rattle.pklist.specs.Pairs.{HalvingIsRight};

/// A binary search finds only pairs that the array has, and finds all of them if the array is
/// sorted.
pub fn halving()
    ensures { HalvingIsRight }
{}

/// The names of a list are of bounded length, so there is a text longer than all of them.
pub fn bounded_names()
    ensures { NamesAreBounded }
{}
