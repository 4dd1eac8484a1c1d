//! Laws of the definitions. Each is the contract of a function that does nothing.

ghost use Rattle.pkjson.specs.Laws.{OneValue, AreDerivations, PlainRunsAreRuns};

/// An object unfolds to at most one value, by a finite derivation.
pub fn unfolding()
    ensures one { OneValue }
    ensures derivations { AreDerivations }
{}

/// The plain run of a pickle is its run whose outcomes are all `goes_on`.
pub fn plain_runs()
    ensures { PlainRunsAreRuns }
{}
