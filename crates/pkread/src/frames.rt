//! The frame rules of PEP 3154, decided from the number of bytes left in the open frame.

ghost use Rattle.std.specs.Prelude.{◌≡◌, ◌≢◌, ◌-◌, ◌<◌, ◌≤◌, ℕ, take};
ghost use Rattle.pkops.specs.Inst.{instruction_of};
ghost use Rattle.pkread.specs.Framing.{TakesPiece};
ghost use Rattle.pkread.specs.Pieces.{number_of, role_of};

use pkops::{Arg, Inst, Op, Reason};
use std::marker::Model;

/// The instruction breaks the frame rules: it is a FRAME inside a frame, it crosses the end of a
/// frame, or it is a STOP before the end of its frame.
#[derive(Clone, Copy, Debug, Drop, PartialEq, Eq)]
pub struct BrokenFrame;

impl From<BrokenFrame> for Reason {
    ghost use Rattle.std.specs.Prelude.{◌≡◌};
    ghost use Rattle.pkops.specs.declared.Reason.TheVariants.{BrokenFrame};

    ghost from_gives = { λ _ reason. reason ≡ BrokenFrame };

    fn from(_broken: BrokenFrame) -> Reason {
        Reason::BrokenFrame
    }
}

/// Follows the frames of a pickle (PEP 3154), one instruction at a time. Contracts see the number
/// of bytes left in the open frame, and 0 outside any frame.
#[derive(Debug, Drop)]
pub struct Frames {
    open: u64,
}

impl Model for Frames {
    ghost use Rattle.std.specs.Prelude.{ℕ};

    ghost Value = { ℕ };

    ghost view = { λ f. f.open };
}

impl Frames {
    /// The state before the first instruction, with no frame open.
    pub fn new() -> Frames
        ensures { result ≡ 0 }
    {
        Frames { open: 0 }
    }

    /// Takes the next instruction: its opcode, its length in bytes, and its frame argument, as
    /// `frame_argument` returns it (ignored unless the opcode is FRAME). An instruction that breaks
    /// the frame rules is refused and changes nothing.
    #[inline(always)]
    pub fn take(&mut self, op: Op, length: u64, arg: u64) -> Result<(), BrokenFrame>
        requires { 0 < length }
        ensures { TakesPiece self.old (record { length = length; role = role_of op arg })
            result self.new }
    {
        if self.open == 0 {
            match op {
                Op::Frame => self.open = arg,
                _ => {}
            }
            return Ok(());
        }
        match op {
            Op::Frame => return Err(BrokenFrame),
            Op::Stop => {
                if length != self.open {
                    return Err(BrokenFrame);
                }
            }
            _ => {}
        }
        if length > self.open {
            return Err(BrokenFrame);
        }
        self.open -= length;
        Ok(())
    }

    /// As many of these bytes as lie in the open frame, or all of them outside any frame.
    pub fn inside<'a>(&self, bytes: &'a [u8]) -> &'a [u8]
        ensures outside { self.now ≡ 0 → result.now ≡ bytes.now }
        ensures inside { self.now ≢ 0 → result.now ≡ take self.now bytes.now }
    {
        if self.open == 0 || self.open >= bytes.len() as u64 {
            return bytes;
        }
        &bytes[..self.open as usize]
    }

    /// Takes instructions at once, which are neither FRAME nor STOP and have `count` bytes in all.
    /// If a frame is open, they lie in it.
    pub fn take_inside(&mut self, count: usize)
        requires { self.old ≢ 0 → count ≤ self.old }
        ensures { self.new ≡ self.old - count }
    {
        self.open = self.open.saturating_sub(count as u64);
    }
}

/// The last argument of `Frames::take`: the number in the instruction's argument if that is
/// unsigned, otherwise 0.
pub fn frame_argument(inst: &Inst<'_>) -> u64
    ensures { result ≡ number_of (instruction_of inst.now).arg }
{
    match inst.arg() {
        Arg::U1(number) => u64::from(number),
        Arg::U2(number) => u64::from(number),
        Arg::U4(number) => u64::from(number),
        Arg::U8(number) => number,
        _ => 0,
    }
}
