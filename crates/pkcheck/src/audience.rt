//! The observer of the instructions of a check.

ghost use Rattle.std.specs.Prelude.{◌≡◌, ◌∷◌, ◌++◌, [], Bool, IfErr, List, OnOk, false};
ghost use Rattle.std.specs.Prelude.{true};
ghost use Rattle.pkops.specs.Inst.{instruction_of};
ghost use Rattle.pkcheck.specs.Reports.{Report, Skipped, Whole, report, told_of};

use crate::listening::Listener;
use pkops::{Inst, Op};
use std::convert::Infallible;

/// The observer of the instructions of a check. It gets each one before it is judged.
///
/// An audience that holds payloads gets each instruction whole. Any other audience gets an
/// instruction with a payload of plain bytes as skipped, wherever its bytes lie, and every other
/// one whole. Such payloads are those of BINBYTES, SHORT_BINBYTES, BINBYTES8 and BYTEARRAY8.
pub trait Audience {
    /// Why the audience stops the check.
    type Error;

    // Whether all payloads are held for it.
    ghost holding: { Bool };

    // What it observed between two of its states, in order.
    ghost hears: { Self → Self → List Report → Type 0 };

    // It stopped the check with this error when it observed this in the first state; the second one
    // is that in which it is left.
    ghost fails: { Self → Self → Report → Self.Error → Type 0 };

    /// Whether all payloads are held for it. Otherwise those of plain bytes are skipped.
    fn holds() -> bool
        ensures { result ≡ holding };

    /// Tells of an instruction that was read whole and is admitted, before it is judged. `at` is
    /// the offset of its first byte, counted from the first byte taken. `marks` is the number of
    /// open marks before it, which is the same in every run.
    ///
    /// # Errors
    ///
    /// An error ends the check.
    fn tell(&mut self, at: u64, inst: &Inst<'_>, marks: usize) -> Result<(), Self::Error>
        ensures ok { OnOk result (hears self.old self.new
            (report at (Whole (instruction_of inst.now)) marks ∷ [])) }
        ensures err { IfErr result (fails self.old self.new
            (report at (Whole (instruction_of inst.now)) marks)) };

    /// Tells of an admitted instruction with this opcode, whose payload is skipped, before it is
    /// judged. `length` is the number of its bytes, with its opcode, its count and its payload. It
    /// isn't called where all payloads are held.
    ///
    /// # Errors
    ///
    /// An error ends the check.
    fn tell_skipped(
        &mut self,
        at: u64,
        op: Op,
        length: u64,
        marks: usize,
    ) -> Result<(), Self::Error>
        ensures ok { OnOk result (holding ≡ false → hears self.old self.new
            (report at (Skipped op length) marks ∷ [])) }
        ensures err { IfErr result (λ error. holding ≡ false → fails self.old self.new
            (report at (Skipped op length) marks) error) };

    ghost hears_none: { (x : Self) → hears x x [] };

    ghost hears_more: { (x y z : Self) (rs : List Report) (r : Report)
        → hears x y rs → hears y z (r ∷ []) → hears x z (rs ++ r ∷ []) };
}

/// A listener gets each instruction whole.
impl<L: Listener> Audience for L {
    ghost use Rattle.std.specs.Prelude.{⊤};
    ghost use Rattle.pkcheck.specs.Private.WholeReports.{HearsWhole, hears_whole_more};

    type Error = L::Error;

    ghost holding = { true };

    ghost hears = { HearsWhole L.hears };

    ghost fails = { λ old new told error. ⊤ };

    fn holds() -> bool {
        true
    }

    #[inline(always)]
    fn tell(&mut self, at: u64, inst: &Inst<'_>, marks: usize) -> Result<(), L::Error> {
        self.hear(at, inst, marks)
    }

    fn tell_skipped(
        &mut self,
        _at: u64,
        _op: Op,
        _length: u64,
        _marks: usize,
    ) -> Result<(), L::Error> {
        Ok(())
    }

    ghost hears_none = { λ x. (tt, L.hears_none x) };

    ghost hears_more = { hears_whole_more L.hears L.hears_more };
}

/// Observes nothing, and costs nothing.
#[derive(Drop)]
pub(crate) struct Silent;

impl Audience for Silent {
    ghost use Rattle.std.specs.Prelude.{⊤};

    type Error = Infallible;

    ghost holding = { false };

    ghost hears = { λ x y rs. ⊤ };

    ghost fails = { λ old new told error. ⊤ };

    fn holds() -> bool {
        false
    }

    fn tell(&mut self, _at: u64, _inst: &Inst<'_>, _marks: usize) -> Result<(), Infallible> {
        Ok(())
    }

    fn tell_skipped(
        &mut self,
        _at: u64,
        _op: Op,
        _length: u64,
        _marks: usize,
    ) -> Result<(), Infallible> {
        Ok(())
    }

    ghost hears_none = { λ x. tt };

    ghost hears_more = { λ x y z rs r a b. tt };
}

/// Tells of an instruction that lies whole at hand.
pub(crate) fn tell_lent<A: Audience>(
    audience: &mut A,
    at: u64,
    inst: &Inst<'_>,
    marks: usize,
) -> Result<(), A::Error>
    ensures ok { OnOk result (A.hears audience.old audience.new
        (report at (told_of A.holding (instruction_of inst.now)) marks ∷ [])) }
    ensures err { IfErr result (A.fails audience.old audience.new
        (report at (told_of A.holding (instruction_of inst.now)) marks)) }
{
    if A::holds() {
        return audience.tell(at, inst, marks);
    }
    if inst.op().passed() {
        // Handed on as it is, the result would keep the compiler from seeing that `tell` succeeds.
        if let Err(error) = audience.tell_skipped(at, inst.op(), inst.len(), marks) {
            return Err(error);
        }
        return Ok(());
    }
    audience.tell(at, inst, marks)
}
