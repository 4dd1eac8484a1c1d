//! Where the instructions of a pickle that may change lie.

ghost use Rattle.std.specs.Prelude.{◌≡◌, ◌<◌, ◌^◌, false, length};
ghost use Rattle.pkops.specs.Inst.{instruction_of};
ghost use Rattle.pkops.specs.Spelling.{spelling};
ghost use Rattle.pkopt.specs.Private.Places.{end_of, place_behind, stays_as_is};

use pkops::{Inst, Op};

/// The place of an instruction that may change.
#[derive(Clone, Copy)]
pub(crate) struct Place {
    /// The offset of its first byte.
    pub at: u64,
    /// Its length in bytes.
    pub size: u16,
    /// Its opcode.
    pub op: Op,
}

/// A part of a pickle: bytes that stay as they are, and then an instruction that may change. More
/// bytes that stay are a part without such an instruction: its opcode is STOP.
#[derive(Clone, Copy)]
pub(crate) struct Part {
    /// The length of the instruction in bytes.
    pub size: u16,
    /// How many bytes before it stay.
    pub gap: u8,
    /// Its opcode.
    pub op: Op,
}

impl Part {
    /// The place of its instruction, if the part begins at this offset.
    #[inline(always)]
    pub(crate) fn place_behind(self, from: u64) -> Place
        requires { end_of from self < 2 ^ 64 }
        ensures { result ≡ place_behind from self }
    {
        Place {
            at: from + u64::from(self.gap),
            size: self.size,
            op: self.op,
        }
    }
}

/// Whether instructions with this opcode never change: they don't use the memo and aren't FRAME.
#[inline(always)]
pub(crate) fn is_plain(op: Op) -> bool
    ensures { result ≡ stays_as_is op }
{
    match op {
        Op::Put => false,
        Op::BinPut => false,
        Op::LongBinPut => false,
        Op::Memoize => false,
        Op::Get => false,
        Op::BinGet => false,
        Op::LongBinGet => false,
        Op::Frame => false,
        _ => true,
    }
}

/// The length in bytes of an instruction that may change. It fits, because the only possible line
/// of such an instruction is a number.
#[inline(always)]
pub(crate) fn size_of(inst: &Inst<'_>) -> u16
    requires { stays_as_is (instruction_of inst.now).op ≡ false }
    ensures { result ≡ length (spelling (instruction_of inst.now)) }
{
    inst.len() as u16
}

/// The length of an instruction with this opcode, which may change. For the most frequent opcodes
/// of long pickles it is a constant.
#[inline(always)]
pub(crate) fn size_with(op: Op, inst: &Inst<'_>) -> u16
    requires changes { stays_as_is op ≡ false }
    requires has { (instruction_of inst.now).op ≡ op }
    ensures { result ≡ length (spelling (instruction_of inst.now)) }
{
    // Its argument is one of the opcode's kind.
    let _same = inst.op();
    match op {
        Op::BinGet => 2,
        Op::LongBinPut => 5,
        Op::Memoize => 1,
        _ => size_of(inst),
    }
}
