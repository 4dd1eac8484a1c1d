//! A plain pickle as a line of JSON.
ghost use Rattle.std.specs.Prelude.{IfOk};
ghost use Rattle.pkread.specs.Rows.{sight};
ghost use Rattle.pktool.specs.Json.{EndsWith};

use crate::export_line::write_export_error;
use crate::gathering::take_all;
use pkjson::{ExportError, export_to};
use pkops::Limits;
use pkprint::Outcome;
use pkread::Source;
use std::alloc::Global;
use std::io;
use std::io::Write;

/// Reads a source to its end, and writes the plain pickle at its front as a line of JSON, or why it
/// cannot be exported. The line is written in pieces. If a read fails, nothing is written.
///
/// # Errors
///
/// The writer's, or that there is no memory for a piece. How much of the line was written is then
/// unspecified.
#[tactic(auto, using(crate::proofs::Exports::error_for, crate::proofs::Exports::ends_done))]
pub fn json_to<R: Source, W: Write>(
    alloc: Global,
    source: &mut R,
    limits: &Limits,
    out: &mut W,
) -> Result<Outcome, io::Error>
    ensures { IfOk result (EndsWith limits.now
        (sight R.left R.failures source.old) (sight R.left R.failures source.new)
        (W.contents out.old) (W.contents out.new)) }
{
    let Ok(found) = take_all(alloc, source) else {
        return Ok(Outcome::Unread);
    };
    let Some(bytes) = found else {
        write_export_error(ExportError::OutOfMemory, out)?;
        return Ok(Outcome::Refused);
    };
    match export_to(alloc, bytes.as_slice(), limits, out)? {
        Ok(()) => {
            out.write_all(b"\n")?;
            Ok(Outcome::Done)
        }
        Err(error) => {
            write_export_error(error, out)?;
            Ok(Outcome::Refused)
        }
    }
}
