//! Takes the bytes of one instruction from a source, in one pass.

ghost use Rattle.std.specs.Prelude.{◌≡◌, ◌∷◌, ◌≤◌, [], IfOk, length};
ghost use Rattle.pkops.specs.Scans.{longest};
ghost use Rattle.pkops.specs.Spelling.{layout_at};
ghost use Rattle.pkops.specs.Table.{code_of};
ghost use Rattle.pkread.specs.Core.{AtMostOneAhead};
ghost use Rattle.pkread.specs.Private.Arms.{TakesFound, TakesOp, TakesSplit, TakesWhole};
ghost use Rattle.pkread.specs.Private.Progress.{KeepsRest, intake, intake_start};
ghost use Rattle.pkread.specs.Private.Reads.{TakesByte};

use crate::arms::Count;
use crate::gathering::Gathering;
use crate::source::Source;
use pkops::laws::{growth, one_answer};
use pkops::{Layout, Op, Reason, layout_of_op, op_of_byte};

/// What was gathered: an opcode and, for an argument of two lines, the length of the first.
#[derive(Clone, Copy, Debug)]
pub(crate) struct Found {
    pub(crate) op: Op,
    pub(crate) split: usize,
}

impl Gathering {
    /// Takes the argument after a code and judges the instruction. Returns the length of the first
    /// of two lines, or 0. Each layout has its own arm, so an opcode that accepts any argument pays
    /// for no check.
    #[inline(always)]
    fn behind_code<R: Source>(
        &mut self,
        source: &mut R,
        op: Op,
        layout: Layout,
    ) -> Result<usize, Reason>
        requires code { self.old.buffer.bytes ≡ code_of op ∷ [] }
        requires lay { layout ≡ layout_at op }
        ensures keeps { KeepsRest self.old self.new }
        ensures takes { TakesSplit self.old.limits.counted op result
            (intake R.left R.failures source.old self.old)
            (intake R.left R.failures source.new self.new) }
    {
        growth();
        match layout {
            Layout::Nothing => {}
            Layout::U1 => self.one_byte(source, op)?,
            Layout::U2 => self.fixed::<R, 2>(source, op)?,
            Layout::I4 => self.fixed::<R, 4>(source, op)?,
            Layout::U4 => self.fixed::<R, 4>(source, op)?,
            Layout::U8 => self.fixed::<R, 8>(source, op)?,
            Layout::F8 => self.fixed::<R, 8>(source, op)?,
            Layout::Line(most) => self.one_line(source, op, most)?,
            Layout::Pair(most) => return Ok(self.two_lines(source, op, most)?),
            Layout::Counted(width, signed) => {
                let limit = self.limits().counted();
                let count = Count {
                    width,
                    signed,
                    limit,
                };
                self.counted(source, op, count)?;
            }
        }
        Ok(0)
    }

    /// Takes the code of an instruction. The buffer already holds it if it was read ahead.
    fn take_code<R: Source>(&mut self, source: &mut R) -> Result<u8, Reason>
        requires { AtMostOneAhead self.old.buffer.bytes self.old.taken }
        ensures keeps { KeepsRest self.old self.new }
        ensures takes { TakesByte result
            (intake_start R.left R.failures source.old self.old)
            (intake R.left R.failures source.new self.new) }
    {
        let Some(byte) = self.first() else {
            return self.take_byte(source);
        };
        self.count_lent(1);
        Ok(byte)
    }

    /// Takes a code and returns its opcode.
    #[inline]
    pub(crate) fn take_op<R: Source>(&mut self, source: &mut R) -> Result<Op, Reason>
        requires { AtMostOneAhead self.old.buffer.bytes self.old.taken }
        ensures keeps { KeepsRest self.old self.new }
        ensures code { IfOk result (λ op. self.new.buffer.bytes ≡ code_of op ∷ []) }
        ensures few { length self.new.buffer.bytes ≤ 1 }
        ensures takes { TakesOp result
            (intake_start R.left R.failures source.old self.old)
            (intake R.left R.failures source.new self.new) }
    {
        growth();
        let code = self.take_code(source)?;
        let Some(op) = op_of_byte(code) else {
            return Err(Reason::UnknownOpcode(code));
        };
        Ok(op)
    }

    /// Reads the argument of an opcode and returns both.
    #[inline(always)]
    pub(crate) fn gather_behind<R: Source>(
        &mut self,
        source: &mut R,
        op: Op,
        layout: Layout,
    ) -> Result<Found, Reason>
        requires code { self.old.buffer.bytes ≡ code_of op ∷ [] }
        requires lay { layout ≡ layout_at op }
        ensures keeps { KeepsRest self.old self.new }
        ensures op { IfOk result (λ f. f.op ≡ op) }
        ensures takes { TakesFound self.old.limits.counted result
            (intake R.left R.failures source.old self.old)
            (intake R.left R.failures source.new self.new) }
    {
        let split = self.behind_code(source, op, layout)?;
        Ok(Found { op, split })
    }

    /// Takes bytes until they spell an instruction: first the code, unless the buffer already holds
    /// it, then what its layout needs.
    pub(crate) fn gather<R: Source>(&mut self, source: &mut R) -> Result<Found, Reason>
        requires { AtMostOneAhead self.old.buffer.bytes self.old.taken }
        ensures keeps { KeepsRest self.old self.new }
        ensures bound { length self.new.buffer.bytes ≤ longest self.old.limits.counted }
        ensures takes { TakesWhole self.old.limits.counted result
            (intake_start R.left R.failures source.old self.old)
            (intake R.left R.failures source.new self.new) }
    {
        growth();
        one_answer();
        let op = self.take_op(source)?;
        self.gather_behind(source, op, layout_of_op(op))
    }
}
