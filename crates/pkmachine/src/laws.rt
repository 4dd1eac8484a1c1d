//! Laws of the definitions. Each is the contract of a function that does nothing; call the function
//! to use its law in a proof.

ghost use Rattle.pkmachine.specs.StepLaws.{StepLaws};

/// What a loop over [`Machine::step`](crate::Machine::step) knows about runs: what an accepted step
/// does in every covered state, that the runs for which its knowledge stands have no fault there,
/// and that a refused instruction has the named one.
pub fn steps()
    ensures { StepLaws }
{}
