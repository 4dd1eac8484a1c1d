//! The bytes of a form after its head.

ghost use Rattle.std.specs.Prelude.{◌≡◌, OnOk};
ghost use Rattle.std.proofs.Common.{◌∙◌, refl};
ghost use Rattle.std.specs.Io.KnownBytes.{Appends};
ghost use Rattle.pkopt.specs.Private.Sinks.{Drops, drops_more, drops_none, with_gathered};

use crate::sink::Sink;
use std::io;
use std::io::Write;

/// How many bytes are gathered before they are written.
const GATHERED: usize = 65_536;

/// A write failed. The writer's error is kept aside: a result without it is much cheaper.
#[derive(Clone, Copy)]
pub(crate) struct Stopped;

/// Writes the bytes that it takes, except for the first ones. Small pieces are gathered.
#[derive(Drop)]
pub(crate) struct Rest<'w, W> {
    /// Where they are written.
    pub out: &'w mut W,
    /// How many more bytes are not written.
    pub skip: usize,
    /// The bytes that are not written yet.
    pub gathered: Vec<u8>,
    /// Why a write failed.
    pub error: Option<io::Error>,
}

impl<'w, W: Write> Rest<'w, W> {
    /// Writes what was gathered, and then the piece.
    #[inline(never)]
    fn pass(&mut self, piece: &[u8]) -> Result<(), Stopped>
        ensures same { self.new.out.ghost_name ≡ self.old.out.ghost_name }
        ensures skip { self.new.skip ≡ self.old.skip }
        ensures bytes { OnOk result (Appends
            (with_gathered (W.contents self.old.out.now) self.old.gathered.items)
            (with_gathered (W.contents self.new.out.now) self.new.gathered.items) piece.now) }
    {
        if let Err(error) = self.out.write_all(&self.gathered) {
            self.error = Some(error);
            return Err(Stopped);
        }
        self.gathered.clear();
        if let Err(error) = self.out.write_all(piece) {
            self.error = Some(error);
            return Err(Stopped);
        }
        Ok(())
    }
}

impl<'w, W: Write> Sink for Rest<'w, W> {
    type Error = Stopped;

    ghost takes = { λ x y bytes. (y.out.ghost_name ≡ x.out.ghost_name)
        × Drops (with_gathered (W.contents x.out.now) x.gathered.items)
        (with_gathered (W.contents y.out.now) y.gathered.items) x.skip y.skip bytes };

    #[inline(always)]
    fn take(&mut self, piece: &[u8]) -> Result<(), Stopped> {
        let first = self.skip.min(piece.len());
        self.skip -= first;
        let piece = &piece[first..];
        if self.gathered.len() + piece.len() > GATHERED {
            return self.pass(piece);
        }
        let Ok(()) = self.gathered.extend_from_slice(piece) else {
            return self.pass(piece);
        };
        Ok(())
    }

    ghost takes_none = { λ x. (refl, drops_none _ _) };

    ghost takes_more = { λ x y z a b f g. (g.0 ∙ f.0, drops_more _ _ _ _ _ _ a b f.1 g.1) };
}
