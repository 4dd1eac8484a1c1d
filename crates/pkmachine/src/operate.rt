//! The operations, which take objects and leave one.
ghost use Rattle.std.specs.Prelude.{◌≡◌, option_map, IfSome};
ghost use Rattle.pkops.specs.Contents.{IsGood};
ghost use Rattle.pkops.specs.Inst.{instruction_of};
ghost use Rattle.pkops.specs.Operands.{pair_named};
ghost use Rattle.pkops.specs.Spelling.{Pair, instruction};

mod given;
mod named;
mod nameless;
mod permitted;
mod receiver;

pub use named::{Spelled, operate_named};
pub use nameless::operate_unnamed;
use pkimport::Asked;
use pkops::{Arg, Inst, Reason};

/// Why a step is refused, and the pair if it is off the list. The pair is boxed, which keeps the
/// result of a step small. Few steps are refused.
#[derive(Drop)]
pub struct StepError {
    pub reason: Reason,
    pub pair: Option<Box<Asked>>,
}

impl From<Reason> for StepError {
    ghost use Rattle.std.specs.Prelude.{◌≡◌, None};

    ghost from_gives = { λ reason error. error ≡ record { reason = reason; pair = None } };

    fn from(reason: Reason) -> StepError {
        StepError { reason, pair: None }
    }
}

/// The two lines of an argument, if it has two.
pub fn lines_of<'a>(inst: &Inst<'a>) -> Option<(&'a [u8], &'a [u8])>
    ensures named { option_map (λ pair. (pair.0.now, pair.1.now)) result
        ≡ pair_named (instruction_of inst.now) }
    ensures good { IfSome result (λ pair.
        IsGood (instruction (instruction_of inst.now).op (Pair pair.0.now pair.1.now))) }
{
    match inst.arg() {
        Arg::Pair(first, second) => Some((first, second)),
        _ => None,
    }
}
