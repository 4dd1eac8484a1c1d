//! Decides which imports a pickle makes and whether it can go wrong, whatever its operations
//! answer.
#![tactic(auto)]

mod audience;
mod check_loop;
mod checking;
pub mod laws;
mod listening;
mod loading;
mod row_of_pickles;
mod session;
mod turned;
mod with_imports;

pub use audience::Audience;
pub use check_loop::{Extent, RefusedPickle, Terms, check_pickles};
pub use checking::{No, Yes, check, check_as};
pub use listening::{Listener, check_heard};
pub use loading::Loading;
pub use pkimport::{Asked, Import, ImportIter, ImportList, Imports, Quoted};
pub use pklist::{Allow, AllowError, Where};
pub use pkmachine::{Memo, Moved, OldStrings, Permit, Policy};
pub use row_of_pickles::{NoAll, YesAll, check_all, check_all_loaded};
pub use with_imports::{NoWithImports, check_with_imports};

/// The machine alone, which keeps nothing of objects but what it knows about them.
pub type Machine = pkmachine::Machine<pkmachine::Nothing>;
