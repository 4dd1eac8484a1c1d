//! The line for a pickle that cannot be exported.
ghost use Rattle.std.specs.Prelude.{OnOk};
ghost use Rattle.std.specs.Io.KnownBytes.{Appends};
ghost use Rattle.pkops.specs.Table.{row_of};
ghost use Rattle.pktool.specs.Json.{error_line, not_plain_line};

use pkjson::ExportError;
use pkops::{Op, row};
use pkprint::write_no;
use std::io;
use std::io::Write;

/// Writes why a pickle cannot be exported.
pub fn write_export_error<W: Write>(error: ExportError, out: &mut W) -> io::Result<()>
    ensures { OnOk result (Appends (W.contents out.old) (W.contents out.new) (error_line error)) }
{
    match error {
        ExportError::Check(refusal) => write_no(&refusal, out),
        ExportError::NotPlain(at, op) => write_not_plain(at, op, out),
        ExportError::Key(at) => writeln!(out, "no at {at}: Key"),
        ExportError::Number(at) => writeln!(out, "no at {at}: Number"),
        ExportError::TooDeep => out.write_all(b"no: TooDeep\n"),
        ExportError::TooMany => out.write_all(b"no: TooMany\n"),
        ExportError::OutOfMemory => out.write_all(b"no: OutOfMemory\n"),
    }
}

fn write_not_plain<W: Write>(at: u64, op: Op, out: &mut W) -> io::Result<()>
    ensures { OnOk result (Appends (W.contents out.old) (W.contents out.new)
        (not_plain_line at op)) }
{
    write!(out, "no at {at}: NotPlain(")?;
    write_name(op, out)?;
    out.write_all(b")\n")
}

fn write_name<W: Write>(op: Op, out: &mut W) -> io::Result<()>
    ensures { OnOk result (Appends (W.contents out.old) (W.contents out.new) (row_of op).name) }
{
    let row = row(op);
    out.write_all(row.name.as_bytes())
}
