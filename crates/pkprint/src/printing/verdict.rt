//! The line of a verdict on a pickle, or on a row of them.
ghost use Rattle.std.specs.Prelude.{OnOk, IfSome, length};
ghost use Rattle.std.specs.Io.KnownBytes.{Appends};
ghost use Rattle.pkprint.specs.Verdict.{no_line, row_line, verdict_line, yes_all_line, yes_line};

use pkcheck::{No, NoAll, Yes, YesAll};
use std::fmt::Display;
use std::io;
use std::io::Write;

/// Writes the line of an answer.
pub fn write_verdict<W: Write>(answer: &Result<Yes, No>, out: &mut W) -> io::Result<()>
    ensures { OnOk result (Appends (W.contents out.old) (W.contents out.new)
        (verdict_line answer.now)) }
{
    match answer {
        Ok(yes) => write_yes(yes.taken, yes.imports.len(), out),
        Err(no) => write_no(no, out),
    }
}

/// Writes the line of a yes.
pub fn write_yes<W: Write>(taken: u64, imports: usize, out: &mut W) -> io::Result<()>
    ensures { OnOk result (Appends (W.contents out.old) (W.contents out.new)
        (yes_line taken imports)) }
{
    writeln!(out, "yes: {taken} bytes, {imports} imports")
}

/// Writes the line of an answer about a row of pickles.
pub fn write_row<W: Write>(answer: &Result<YesAll, NoAll>, out: &mut W) -> io::Result<()>
    ensures { OnOk result (Appends (W.contents out.old) (W.contents out.new)
        (row_line answer.now)) }
{
    match answer {
        Ok(yes) => write_yes_all(yes, out),
        Err(no) => write_no(no, out),
    }
}

/// Writes the line of a yes about a row of pickles.
pub fn write_yes_all<W: Write>(yes: &YesAll, out: &mut W) -> io::Result<()>
    ensures { OnOk result (Appends (W.contents out.old) (W.contents out.new)
        (yes_all_line yes.now.taken yes.now.pickles (length yes.now.imports))) }
{
    let taken = yes.taken;
    let pickles = yes.pickles;
    let imports = yes.imports.len();
    writeln!(
        out,
        "yes: {taken} bytes, {pickles} pickles, {imports} imports"
    )
}

/// Writes the line of a refusal.
pub fn write_no<D: Display, W: Write>(refusal: &D, out: &mut W) -> io::Result<()>
    ensures { IfSome (D.output refusal.now) (λ text.
        OnOk result (Appends (W.contents out.old) (W.contents out.new) (no_line text))) }
{
    writeln!(out, "no {refusal}")
}
