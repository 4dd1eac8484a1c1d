//! The lines of the imports of a pickle.
ghost use Rattle.std.specs.Prelude.{OnOk, flat_map};
ghost use Rattle.std.specs.Io.KnownBytes.{Appends};
ghost use Rattle.pkimport.specs.Import.{import_shown};
ghost use Rattle.pkprint.specs.Imports.{import_line, import_lines};

use pkcheck::{Import, Imports, No, Quoted, Yes};
use std::io;
use std::io::Write;

/// Writes a line for each import of a yes; for a no, nothing.
pub fn write_imports<W: Write>(answer: &Result<Yes, No>, out: &mut W) -> io::Result<()>
    ensures { OnOk result (Appends (W.contents out.old) (W.contents out.new)
        (import_lines answer.now)) }
{
    match answer {
        Ok(yes) => write_each(&yes.imports, out),
        Err(_) => Ok(()),
    }
}

fn write_each<W: Write>(imports: &Imports, out: &mut W) -> io::Result<()>
    ensures { OnOk result (Appends (W.contents out.old) (W.contents out.new)
        (flat_map import_line imports.now)) }
{
    for number in 0..imports.len() {
        let Some(import) = imports.get(number) else {
            unreachable!()
        };
        write_import(import, out)?;
    }
    Ok(())
}

fn write_import<W: Write>(import: Import<'_>, out: &mut W) -> io::Result<()>
    ensures { OnOk result (Appends (W.contents out.old) (W.contents out.new)
        (import_line (import_shown import.entry))) }
{
    match import {
        Import::Pair { module, name } => {
            let module = Quoted(module.as_bytes());
            let name = Quoted(name.as_bytes());
            writeln!(out, "{module} {name}")
        }
        Import::Unknown => out.write_all(b"unknown\n"),
    }
}
