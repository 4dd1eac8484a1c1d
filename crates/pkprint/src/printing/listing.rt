//! The lines of a listing.
ghost use Rattle.std.specs.Prelude.{OnOk};
ghost use Rattle.std.specs.Io.KnownBytes.{Appends};
ghost use Rattle.pkops.specs.Inst.{instruction_of};
ghost use Rattle.pkops.specs.Spelling.{shown_arg};
ghost use Rattle.pkcheck.specs.Heard.{heard};
ghost use Rattle.pkprint.specs.Listing.{angled, argument_text, indent, last_line, listing_line};
ghost use Rattle.pkprint.specs.Listing.{opcode_text, payload_text, position_text};

use crate::printing::hexadecimal::write_hexadecimal;
use crate::printing::verdict::write_no;
use pkcheck::{No, Quoted, Yes};
use pkops::{Arg, Inst, Op, row};
use std::io;
use std::io::Write;

/// Writes the line of an instruction: its offset, its code, its name indented by two spaces for
/// each open mark, and its argument.
pub fn write_line<W: Write>(at: u64, inst: &Inst<'_>, marks: usize, out: &mut W) -> io::Result<()>
    ensures { OnOk result (Appends (W.contents out.old) (W.contents out.new)
        (listing_line (heard at (instruction_of inst.now) marks))) }
{
    write_position(at, out)?;
    out.write_all(b": ")?;
    write_opcode(inst.op(), marks, out)?;
    write_argument(inst.op(), inst.arg(), out)?;
    out.write_all(b"\n")
}

/// Writes the last line: the highest protocol that an opcode needs, or why the pickle is refused.
pub fn write_last<W: Write>(answer: &Result<Yes, No>, highest: u8, out: &mut W) -> io::Result<()>
    ensures { OnOk result (Appends (W.contents out.old) (W.contents out.new)
        (last_line answer.now highest)) }
{
    match answer {
        Ok(_) => writeln!(out, "highest protocol: {highest}"),
        Err(no) => write_no(no, out),
    }
}

fn write_position<W: Write>(at: u64, out: &mut W) -> io::Result<()>
    ensures { OnOk result (Appends (W.contents out.old) (W.contents out.new)
        (position_text at)) }
{
    write!(out, "{at:>5}")
}

fn write_opcode<W: Write>(op: Op, marks: usize, out: &mut W) -> io::Result<()>
    ensures { OnOk result (Appends (W.contents out.old) (W.contents out.new)
        (opcode_text op marks)) }
{
    let row = row(op);
    write_hexadecimal(&[row.code], out)?;
    out.write_all(b" ")?;
    write_indent(marks, out)?;
    out.write_all(row.name.as_bytes())
}

fn write_indent<W: Write>(marks: usize, out: &mut W) -> io::Result<()>
    ensures { OnOk result (Appends (W.contents out.old) (W.contents out.new) (indent marks)) }
{
    for _mark in 0..marks {
        out.write_all(b"  ")?;
    }
    Ok(())
}

fn write_argument<W: Write>(op: Op, arg: Arg<'_>, out: &mut W) -> io::Result<()>
    ensures { OnOk result (Appends (W.contents out.old) (W.contents out.new)
        (argument_text op (shown_arg arg.entry))) }
{
    match arg {
        Arg::None => Ok(()),
        Arg::U1(number) => write!(out, " {number}"),
        Arg::U2(number) => write!(out, " {number}"),
        Arg::I4(number) => write!(out, " {number}"),
        Arg::U4(number) => write!(out, " {number}"),
        Arg::U8(number) => write!(out, " {number}"),
        Arg::F8(bytes) => {
            out.write_all(b" ")?;
            write_angled(bytes, out)
        }
        Arg::Line(text) => write!(out, " {}", Quoted(text)),
        Arg::Pair(first, second) => write!(out, " {} {}", Quoted(first), Quoted(second)),
        Arg::Counted(payload) => {
            out.write_all(b" ")?;
            write_payload(op, payload, out)
        }
    }
}

/// Writes a payload: a long integer as its bytes, any other quoted.
fn write_payload<W: Write>(op: Op, payload: &[u8], out: &mut W) -> io::Result<()>
    ensures { OnOk result (Appends (W.contents out.old) (W.contents out.new)
        (payload_text op payload.now)) }
{
    match op {
        Op::Long1 => write_angled(payload, out),
        Op::Long4 => write_angled(payload, out),
        _ => write!(out, "{}", Quoted(payload)),
    }
}

/// Writes bytes in hexadecimal between `<` and `>`.
fn write_angled<W: Write>(bytes: &[u8], out: &mut W) -> io::Result<()>
    ensures { OnOk result (Appends (W.contents out.old) (W.contents out.new) (angled bytes.now)) }
{
    out.write_all(b"<")?;
    write_hexadecimal(bytes, out)?;
    out.write_all(b">")
}
