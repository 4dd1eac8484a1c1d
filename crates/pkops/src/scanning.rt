//! The instruction at the front of bytes.

ghost use Rattle.std.specs.Prelude.{◌≡◌};
ghost use Rattle.pkops.specs.Private.FirstFaults.{IsUnread};
ghost use Rattle.pkops.specs.Answer.{Answer, Answers, shown_scan};

use crate::codes::op_of_byte;
use crate::fault::Fault;
use crate::found::Scan;
use crate::inst::Inst;
use crate::limits::Limits;
use crate::reading::{Unread, argument};
use crate::table::kind;

/// What is at the front of the bytes. A payload may have at most `limits.counted()` bytes.
///
/// A fault is reported as soon as it is certain: an unknown opcode at its code; a negative count,
/// or one above the limit, once the count is complete; a line that is too long at its first excess
/// byte; bad contents once the argument is complete. Allocates nothing.
pub fn scan<'a>(bytes: &'a [u8], limits: &Limits) -> Scan<'a>
    ensures answer { Answers limits.now.counted bytes.now (shown_scan result) }
    // This is the only right answer.
    ensures only { (other : Answer) →
        Answers limits.now.counted bytes.now other → other ≡ shown_scan result }
{
    right_answer(bytes, limits)
}

/// A right answer.
fn right_answer<'a>(bytes: &'a [u8], limits: &Limits) -> Scan<'a>
    ensures { Answers limits.now.counted bytes.now (shown_scan result) }
{
    let [code, from @ ..] = bytes else {
        return Scan::More;
    };
    let Some(op) = op_of_byte(*code) else {
        return Scan::Bad(Fault::UnknownOpcode(*code));
    };
    match argument(limits.counted(), kind(op).layout(), from) {
        Ok((arg, rest)) => match Inst::judged(op, arg) {
            Some(inst) => Scan::Whole(inst, bytes.len() - rest.len()),
            None => Scan::Bad(Fault::BadArgument),
        },
        Err(why) => unread(why),
    }
}

/// The answer of a scan that reads no argument.
fn unread<'a>(why: Unread) -> Scan<'a>
    ensures { IsUnread why (shown_scan result) }
{
    match why {
        Unread::Short => Scan::More,
        Unread::Bad(fault) => Scan::Bad(fault),
    }
}
