//! Laws of the definitions. Each is the contract of a function that does nothing.

ghost use Rattle.pkread.specs.Again.{NoByteIsRefused};
ghost use Rattle.pkread.specs.Framing.{CountingIsExact};
ghost use Rattle.pkread.specs.Pieces.{FramesBreak, FramesGoOn, FramesHold};
ghost use Rattle.pkread.specs.Run.{EndIsRead, EndOfHeads, HeadIsRead, LentIsRead, NextIsRead};
ghost use Rattle.pkread.specs.Run.{PassedIsRead, ReadingBegins, ReadingGoesOn, RefusalIsRead};
ghost use Rattle.pkread.specs.Run.{RefusalOfHeads, TakingTwice};
ghost use Rattle.pkread.specs.Rows.{TakingLaws};
ghost use Rattle.pkread.specs.Sequences.{OneFront, OneSequence, SequenceGoesOn};
ghost use Rattle.pkread.specs.Walked.{EndIsWalked, ItemIsWalked, RefusalIsWalked, WalkBegins};

use pkops::laws::{growth, one_answer, one_spelling};

/// Along any consecutive instructions, the rule of `Frames::take` first refuses exactly at the
/// first instruction that the frame rules forbid.
pub fn framed()
    ensures { CountingIsExact }
{}

/// What a loop over `Reader::next` knows: the instructions given so far are those that the bytes
/// taken spell, the last is STOP if the reader has ended, and a refusal is reported where it first
/// occurs.
pub fn nexts()
    ensures begins { ReadingBegins }
    ensures given { NextIsRead }
    ensures lent { LentIsRead }
    ensures twice { TakingTwice }
    ensures ended { EndIsRead }
    ensures refused { RefusalIsRead }
{}

/// What a loop over `Reader::next_head` knows, as for `next`.
pub fn heads()
    ensures begins { ReadingBegins }
    ensures given { HeadIsRead }
    ensures lent { LentIsRead }
    ensures twice { TakingTwice }
    ensures passed { PassedIsRead }
    ensures ended { EndOfHeads }
    ensures refused { RefusalOfHeads }
{}

/// What a loop over either knows after `Reader::again` has returned true, what its refusal is, and
/// that the bytes of several pickles were taken one after the other.
pub fn rows()
    ensures begins { ReadingGoesOn }
    ensures refused { NoByteIsRefused }
    ensures taking { TakingLaws }
{
    growth();
    one_answer();
}

/// What a loop over `genops` knows, as for `next`.
pub fn walks()
    ensures begins { WalkBegins }
    ensures given { ItemIsWalked }
    ensures ended { EndIsWalked }
    ensures refused { RefusalIsWalked }
{}

/// The rule of `Frames::take` as instructions are appended: what it accepts is framed, and the next
/// one that it refuses is not.
pub fn frames()
    ensures more { FramesGoOn }
    ensures all { FramesHold }
    ensures refused { FramesBreak }
{}

/// Bytes have at most one instruction at their front, and at most one sequence, whatever the limits
/// on payloads. The sequence begins with any instructions at the front that have no STOP among
/// them.
pub fn one_sequence()
    ensures front { OneFront }
    ensures one { OneSequence }
    ensures goes_on { SequenceGoesOn }
{
    one_spelling();
}
