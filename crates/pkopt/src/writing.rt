//! The optimized form of a pickle, and how it is written.

ghost use Rattle.std.specs.Prelude.{◌≡◌, ◌<◌, ◌≤◌, ◌^◌, IfOk, IfSome, OnOk, length};
ghost use Rattle.std.specs.Io.KnownBytes.{Appends};
ghost use Rattle.pkopt.specs.Private.Outputs.{output, slim_bytes};
ghost use Rattle.pkopt.specs.Private.Places.{end_behind, has_frames};
ghost use Rattle.pkopt.specs.Private.Sinks.{Measures};

use crate::fate::Plan;
use crate::frame::{FormFront, front_of};
use crate::made::Made;
use crate::measure::Measure;
use crate::packed::PackedPart;
use crate::rest::Rest;
use crate::sink::Sink;
use crate::slim::give_slim;
use std::alloc::{AllocError, Global};
use std::io;
use std::io::{ErrorKind, Write};
use std::marker::Model;

/// How many bytes a part has, on average, from which on the slim form is not made before it is
/// written. Shorter parts cost more to find twice than to copy twice.
const LONG: usize = 256;

/// The slim form, if its parts are short.
fn made_of(
    alloc: Global,
    bytes: &[u8],
    parts: &[PackedPart],
    taken: usize,
    plan: &Plan,
) -> Result<Option<Made>, AllocError>
    requires within { end_behind 0 parts.now ≤ taken }
    requires there { taken ≤ length bytes.now }
    ensures { IfOk result (λ made. IfSome made (λ slim.
        slim ≡ slim_bytes plan.now bytes.now taken parts.now)) }
{
    if parts.len() < taken / LONG {
        return Ok(None);
    }
    let mut slim = Made::with_room(alloc, taken)?;
    give_slim(bytes, parts, taken, plan, &mut slim)?;
    Ok(Some(slim))
}

/// The measure of the slim form, which may have been made.
fn measure_of(
    bytes: &[u8],
    parts: &[PackedPart],
    taken: usize,
    plan: &Plan,
    made: &Option<Made>,
) -> Result<Measure, AllocError>
    requires within { end_behind 0 parts.now ≤ taken }
    requires there { taken ≤ length bytes.now }
    requires made { IfSome made.now (λ slim.
        slim ≡ slim_bytes plan.now bytes.now taken parts.now) }
    ensures { IfOk result (λ measure.
        Measures measure (slim_bytes plan.now bytes.now taken parts.now)) }
{
    let mut measure = Measure::new();
    match made {
        Some(slim) => measure.take(slim.bytes())?,
        None => give_slim(bytes, parts, taken, plan, &mut measure)?,
    }
    Ok(measure)
}

/// The parts of a pickle up to its last instruction that may change.
#[derive(Drop)]
pub(crate) struct Parts {
    /// The parts, in order.
    pub list: Vec<PackedPart>,
    /// Whether one of them has a FRAME.
    pub framed: bool,
}

/// The optimized form of a pickle. It borrows the pickle, and is complete only where it is written.
pub struct Form<'a> {
    alloc: Global,
    /// The bytes that begin with the pickle.
    bytes: &'a [u8],
    /// The length of the pickle.
    taken: usize,
    /// The parts up to its last instruction that may change.
    parts: Vec<PackedPart>,
    plan: Plan,
    /// The slim form, if it is made.
    made: Option<Made>,
    front: FormFront,
    /// The length of the form.
    len: u64,
}

impl<'a> Drop for Form<'a> {
    fn drop(self) {
        let Form {
            alloc: _alloc,
            bytes: _bytes,
            taken: _taken,
            parts: _parts,
            plan: _plan,
            made: _made,
            front: _front,
            len: _len,
        } = self;
    }
}

impl<'a> Model for Form<'a> {
    ghost use Rattle.std.specs.Prelude.{◌≡◌, ◌≤◌, IfSome, length};
    ghost use Rattle.pkopt.specs.Output.{Output};
    ghost use Rattle.pkopt.specs.Private.Outputs.{slim_bytes, written};
    ghost use Rattle.pkopt.specs.Private.Places.{end_behind};

    ghost Value = { Output };

    ghost view = { λ f. record {
      taken = f.taken;
      bytes = written f.plan f.bytes.now f.taken
          f.parts.items f.front.bytes.items f.front.head;
    } };

    ghost invariant = { λ f. (end_behind 0 f.parts.items ≤ f.taken)
        × (f.taken ≤ length f.bytes.now)
        × (f.front.head ≤ length (slim_bytes f.plan f.bytes.now f.taken f.parts.items))
        × IfSome f.made (λ slim.
        slim ≡ slim_bytes f.plan f.bytes.now f.taken f.parts.items)
        × (f.len ≡ length (written f.plan f.bytes.now f.taken f.parts.items f.front.bytes.items
        f.front.head)) };
}

impl<'a> Form<'a> {
    /// The form of the pickle that is the first `taken` bytes. It is inside a frame if a part has a
    /// FRAME.
    ///
    /// # Errors
    ///
    /// An error if an allocation is refused, or if the form would have 2^64 bytes.
    pub(crate) fn new(
        alloc: Global,
        bytes: &'a [u8],
        taken: usize,
        parts: Parts,
        plan: Plan,
    ) -> Result<Form<'a>, AllocError>
        requires within { end_behind 0 parts.list.items ≤ taken }
        requires there { taken ≤ length bytes.now }
        requires framed { parts.framed ≡ has_frames parts.list.items }
        ensures taken { IfOk result (λ form. form.taken ≡ taken) }
        ensures bytes { IfOk result (λ form.
            form.bytes ≡ output plan bytes.now taken parts.list.items) }
        ensures short { IfOk result (λ _.
            length (slim_bytes plan bytes.now taken parts.list.items) < 2 ^ 64) }
    {
        let Parts { list, framed } = parts;
        let made = made_of(alloc, bytes, &list, taken, &plan)?;
        let measure = measure_of(bytes, &list, taken, &plan, &made)?;
        let front = front_of(alloc, measure, framed)?;
        let rest = measure.len - front.head as u64;
        let Some(len) = rest.checked_add(front.bytes.len() as u64) else {
            return Err(AllocError);
        };
        Ok(Form {
            alloc,
            bytes,
            taken,
            parts: list,
            plan,
            made,
            front,
            len,
        })
    }

    /// The length of the pickle in bytes, up to and including STOP.
    pub fn taken(&self) -> u64
        ensures { result ≡ self.now.taken }
    {
        self.taken as u64
    }

    /// The length of the form in bytes.
    pub fn len(&self) -> u64
        ensures { result ≡ length self.now.bytes }
    {
        self.len
    }

    /// Writes the form. Small pieces are gathered first, so the writer needs no buffer.
    ///
    /// # Errors
    ///
    /// The writer's. How much was written is then unspecified.
    pub fn write_to<W: Write>(&self, out: &mut W) -> io::Result<()>
        ensures { OnOk result (Appends (W.contents out.old) (W.contents out.new) self.now.bytes) }
    {
        out.write_all(&self.front.bytes)?;
        if let Some(slim) = &self.made {
            return out.write_all(&slim.bytes()[self.front.head..]);
        }
        let mut rest = Rest {
            out,
            skip: self.front.head,
            gathered: Vec::new(self.alloc),
            error: None,
        };
        let given = give_slim(self.bytes, &self.parts, self.taken, &self.plan, &mut rest);
        let Rest {
            out,
            gathered,
            error,
            ..
        } = rest;
        let Ok(()) = given else {
            return Err(error.unwrap_or(io::Error::from(ErrorKind::Other)));
        };
        out.write_all(&gathered)
    }
}
