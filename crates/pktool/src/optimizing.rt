//! The optimized form of a pickle: where it is written, and the line that reports it.
ghost use Rattle.std.specs.Prelude.{◌≡◌, ◌⊎◌, IfOk, List, OnErr, OnOk, ℕ, ⊤};
ghost use Rattle.pkopt.specs.Answer.{Checks};
ghost use Rattle.std.specs.Io.KnownBytes.{Appends};
ghost use Rattle.pktool.specs.Optimized.{EndsIn, sizes_line};

use pkops::Limits;
use pkopt::{Form, optimized_form};
use pkprint::{Outcome, write_no};
use std::alloc::Global;
use std::io;
use std::io::Write;

/// A destination for an optimized form.
pub trait Place {
    // Between two states it was made to hold these bytes, as far as it reveals that.
    ghost puts: { Self → Self → List ℕ → Type 0 } = { λ _ _ _. ⊤ };

    /// Replaces what it holds with this form.
    ///
    /// # Errors
    ///
    /// An error if the form cannot be written.
    fn put(&mut self, form: &Form<'_>) -> io::Result<()>
        ensures { OnOk result (puts self.old self.new form.now.bytes) };
}

/// Why an optimization ends without an answer.
#[derive(Drop)]
pub enum Unoptimized {
    /// The form cannot be written to its place.
    Unmade,
    /// The line cannot be written.
    Unwritten(io::Error),
}

impl From<io::Error> for Unoptimized {
    fn from(error: io::Error) -> Unoptimized {
        Unoptimized::Unwritten(error)
    }
}

/// Optimizes the pickle at the front of the bytes, puts the result in the place, and writes a line
/// with both sizes. If the pickle is refused, the place stays unchanged, and the line says where
/// and why.
///
/// # Errors
///
/// `Unmade` if the place does not accept the form; `Unwritten` if the writer fails. How much of the
/// line was written is then unspecified.
pub fn optimize_to<P: Place, W: Write>(
    alloc: Global,
    bytes: &[u8],
    limits: &Limits,
    place: &mut P,
    out: &mut W,
) -> Result<Outcome, Unoptimized>
    ensures ends { IfOk result (EndsIn limits.now bytes.now P.puts place.old place.new
        (W.contents out.old) (W.contents out.new)) }
    ensures fails { OnErr result ((Checks limits.now bytes.now) ⊎ (place.new ≡ place.old)) }
{
    match optimized_form(alloc, bytes, limits) {
        Ok(form) => {
            let Ok(()) = place.put(&form) else {
                return Err(Unoptimized::Unmade);
            };
            write_sizes(form.taken(), form.len(), out)?;
            Ok(Outcome::Done)
        }
        Err(refusal) => {
            write_no(&refusal, out)?;
            Ok(Outcome::Refused)
        }
    }
}

/// Writes the sizes before and after.
fn write_sizes<W: Write>(before: u64, after: u64, out: &mut W) -> io::Result<()>
    ensures { OnOk result (Appends (W.contents out.old) (W.contents out.new)
        (sizes_line before after)) }
{
    writeln!(out, "{before} bytes to {after} bytes")
}
