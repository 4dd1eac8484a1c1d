//! Laws of the definitions. Each is the contract of a function that does nothing.

ghost use Rattle.pkopt.specs.Laws.{FormIsAccepted};

use pkcheck::laws::refused_for_limits;
use pkread::laws::one_sequence;

/// If a check accepts a pickle, the same check refuses its optimized form only for a limit, a
/// refused allocation or a failed read.
pub fn form_is_accepted()
    ensures { FormIsAccepted }
{
    one_sequence();
    refused_for_limits();
}
