//! Writes instructions as bytes, to a writer or into memory.

ghost use Rattle.std.specs.Prelude.{◌≡◌, ◌++◌, ◌∷◌, [], OnOk, IfOk};
ghost use Rattle.std.specs.List.{flat_map};
ghost use Rattle.std.specs.Io.KnownBytes.{Appends};
ghost use Rattle.pkops.specs.Inst.{instruction_of};
ghost use Rattle.pkops.specs.Spelling.{Counted, Suits, laid, layout_at, shown_arg, spelling};

use crate::arg::Arg;
use crate::inst::Inst;
use crate::layout::Layout;
use crate::op::Op;
use crate::table::{code, kind};
use byteorder::{LittleEndian, WriteBytesExt};
use std::alloc::{AllocError, Global};
use std::io;
use std::io::Write;

/// Writes a line and its line feed.
fn write_line<W: Write>(text: &[u8], to: &mut W) -> Result<(), io::Error>
    ensures { OnOk result (Appends (W.contents to.old) (W.contents to.new) (text.now ++ 10 ∷ [])) }
{
    to.write_all(text)?;
    to.write_all(b"\n")
}

/// Writes two lines and their line feeds.
fn write_pair<W: Write>(first: &[u8], second: &[u8], to: &mut W) -> Result<(), io::Error>
    ensures { OnOk result (Appends (W.contents to.old) (W.contents to.new)
        ((first.now ++ 10 ∷ []) ++ (second.now ++ 10 ∷ []))) }
{
    write_line(first, to)?;
    write_line(second, to)
}

/// Writes the payload of an opcode after its little-endian count.
fn write_counted<W: Write>(op: Op, payload: &[u8], to: &mut W) -> Result<(), io::Error>
    requires { Suits (layout_at op) (Counted payload.now) }
    ensures { OnOk result (Appends (W.contents to.old) (W.contents to.new)
        (laid (layout_at op) (Counted payload.now))) }
{
    let Layout::Counted(width, _) = kind(op).layout() else {
        unreachable!()
    };
    to.write_uint::<LittleEndian>(payload.len() as u64, width.size())?;
    to.write_all(payload)
}

/// Writes the bytes of an opcode's argument.
fn write_argument<W: Write>(op: Op, arg: Arg<'_>, to: &mut W) -> Result<(), io::Error>
    requires { Suits (layout_at op) (shown_arg arg) }
    ensures { OnOk result (Appends (W.contents to.old) (W.contents to.new)
        (laid (layout_at op) (shown_arg arg.entry))) }
{
    match arg {
        Arg::None => Ok(()),
        Arg::U1(n) => to.write_u8(n),
        Arg::U2(n) => to.write_u16::<LittleEndian>(n),
        Arg::I4(n) => to.write_i32::<LittleEndian>(n),
        Arg::U4(n) => to.write_u32::<LittleEndian>(n),
        Arg::U8(n) => to.write_u64::<LittleEndian>(n),
        Arg::F8(bytes) => to.write_all(bytes),
        Arg::Line(text) => write_line(text, to),
        Arg::Pair(first, second) => write_pair(first, second, to),
        Arg::Counted(payload) => write_counted(op, payload, to),
    }
}

/// Writes the spelling of an instruction. Allocates nothing, and fails only if the writer fails; it
/// is then unspecified how much was written.
pub fn write_inst<W: Write>(inst: &Inst<'_>, to: &mut W) -> Result<(), io::Error>
    ensures { OnOk result
        (Appends (W.contents to.old) (W.contents to.new) (spelling (instruction_of inst.now))) }
{
    let op = inst.op();
    to.write_u8(code(op))?;
    write_argument(op, inst.arg(), to)
}

/// The spellings of instructions, in order. Fails only if an allocation is refused.
///
/// ```rust
/// use pkops::{Arg, Inst, Op, assemble};
///
/// let seven = Inst::new(Op::BinInt1, Arg::U1(7)).ok_or("an argument of another kind")?;
/// let stop = Inst::new(Op::Stop, Arg::None).ok_or("an argument of another kind")?;
/// let pickle = assemble(alloc, &[seven, stop])?;
/// assert_eq!(rt; pickle.as_slice(), b"K\x07.".as_slice());
/// ```
pub fn assemble(alloc: Global, insts: &[Inst<'_>]) -> Result<Vec<u8>, AllocError>
    ensures { IfOk result (λ out.
        out.items ≡ flat_map (λ inst. spelling (instruction_of inst)) insts.now) }
{
    let mut out = Vec::new(alloc);
    for inst in insts {
        let Ok(()) = write_inst(inst, &mut out) else {
            return Err(AllocError);
        };
    }
    Ok(out)
}
