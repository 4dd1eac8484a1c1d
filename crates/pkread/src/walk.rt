//! An iterator over the instructions of a slice.

ghost use Rattle.std.specs.Prelude.{◌≡◌, IfOk, IfErr, length};
ghost use Rattle.pkops.specs.Answer.{IsWhole};
ghost use Rattle.pkops.specs.Inst.{instruction_of};
ghost use Rattle.pkread.specs.Admission.{objection};
ghost use Rattle.pkread.specs.Genops.{EndsOrIsAmiss, is_stop, walk_of};

use crate::admission::{objection_to, reason_of};
use pkops::laws::one_answer;
use pkops::{Inst, Limits, Op, Reason, Refusal, Scan, scan};
use std::marker::Model;

/// The instructions of a slice with their offsets, up to STOP or a refusal. Made by `genops`.
#[derive(Debug, Drop)]
pub struct Genops<'a> {
    rest: &'a [u8],
    at: u64,
    limits: Limits,
    done: bool,
}

impl<'a> Model for Genops<'a> {
    ghost use Rattle.std.specs.Prelude.{◌+◌, ◌^◌, ◌<◌, length};
    ghost use Rattle.pkread.specs.Genops.{Walk};

    ghost Value = { Walk };

    ghost view = { λ g. record {
      bytes = g.rest.now;
      at = g.at;
      limit = g.limits.counted;
      done = g.done;
    } };

    ghost invariant = { λ g. g.at + length g.rest.now < 2 ^ 64 };
}

impl<'a> Genops<'a> {
    /// An iterator at the first instruction.
    pub(crate) fn new(bytes: &'a [u8], limits: &Limits) -> Genops<'a>
        ensures { result ≡ walk_of bytes.now limits.now.counted }
    {
        Genops {
            rest: bytes,
            at: 0,
            limits: *limits,
            done: false,
        }
    }
}

impl<'a> Iterator for Genops<'a> {
    ghost use Rattle.pkread.specs.Genops.{Walks, most_items};

    type Item = Result<(u64, Inst<'a>), Refusal>;

    ghost next_gives = { Walks };

    ghost remaining = { most_items };

    /// The next instruction and the offset of its first byte, or a refusal, for one of the reasons
    /// from `Truncated` to `UnsupportedProtocol`, in the order of `Reason`.
    fn next(&mut self) -> Option<Result<(u64, Inst<'a>), Refusal>> {
        if self.done {
            return None;
        }
        let at = self.at;
        match admitted_at_front(self.rest, &self.limits) {
            Ok((inst, length)) => {
                self.rest = &self.rest[length..];
                self.at += length as u64;
                self.done = is_stop(inst.op());
                Some(Ok((at, inst)))
            }
            Err(reason) => {
                self.done = true;
                Some(Err(Refusal { at, reason }))
            }
        }
    }
}

/// Whether the opcode is STOP.
fn is_stop(op: Op) -> bool
    ensures { result ≡ is_stop op }
{
    matches!(op, Op::Stop)
}

/// The admitted instruction at the front of the bytes, and its length.
fn admitted_at_front<'a>(bytes: &'a [u8], limits: &Limits) -> Result<(Inst<'a>, usize), Reason>
    ensures ok { IfOk result (λ given.
        IsWhole limits.now.counted bytes.now (instruction_of given.0) given.1
        × (objection (instruction_of given.0) ≡ None)) }
    ensures err { IfErr result (λ reason. EndsOrIsAmiss limits.now.counted bytes.now reason
        × ((other : Reason) → EndsOrIsAmiss limits.now.counted bytes.now other → other ≡ reason)) }
{
    one_answer();
    match scan(bytes, limits) {
        Scan::Whole(inst, length) => match objection_to(inst) {
            Some(reason) => Err(reason),
            None => Ok((inst, length)),
        },
        Scan::More => Err(Reason::Truncated),
        Scan::Bad(fault) => Err(reason_of(fault)),
    }
}
