//! Takes the bytes of one instruction from a source without holding byte payloads.

ghost use Rattle.std.specs.Prelude.{◌≡◌, ◌∷◌, ◌≤◌, [], length, max, true};
ghost use Rattle.pkops.specs.Payloads.{is_passed};
ghost use Rattle.pkops.specs.Scans.{longest};
ghost use Rattle.pkops.specs.Spelling.{layout_at};
ghost use Rattle.pkops.specs.Table.{code_of};
ghost use Rattle.pkread.specs.Core.{AtMostOneAhead};
ghost use Rattle.pkread.specs.Held.{most_held};
ghost use Rattle.pkread.specs.Private.Progress.{intake, intake_start};
ghost use Rattle.pkread.specs.Private.SkippedBytes.{RisesLittle, SkipsAll, SkipsArgument};
ghost use Rattle.pkread.specs.Private.SkippedBytes.{TakesHead};

use crate::arms::Count;
use crate::gather::Found;
use crate::gathering::Gathering;
use crate::source::Source;
use pkops::laws::{growth, one_answer, one_code};
use pkops::lengths::count_width;
use pkops::{Layout, Op, Reason, layout_of_op};

/// What was gathered: a whole instruction, or the length of a payload that was skipped.
#[derive(Clone, Copy, Debug)]
pub(crate) enum Gathered {
    Skipped { op: Op, count: u64 },
    Held(Found),
}

/// Whether the payload of an opcode is skipped. Only counted layouts have to look at the opcode;
/// for all others the layout, which the caller has already matched, decides.
fn is_skipped(op: Op, layout: Layout) -> bool
    requires { layout ≡ layout_at op }
    ensures { result ≡ is_passed op }
{
    match layout {
        Layout::Counted(_, _) => op.passed(),
        _ => false,
    }
}

impl Gathering {
    /// Skips the rest of a payload, by reading it only where the source can't pass over it.
    fn skip_rest<R: Source>(&mut self, source: &mut R, count: usize) -> Result<(), Reason>
        requires { length self.old.buffer.bytes ≤ 9 }
        ensures rises { RisesLittle self.old self.new }
        ensures held { self.new.buffer.bytes ≡ self.old.buffer.bytes }
        ensures skips { SkipsAll count result
            (intake R.left R.failures source.old self.old)
            (intake R.left R.failures source.new self.new) }
    {
        let head = self.bytes().len();
        let mut left = count - self.pass(source, count);
        'blocks: loop {
            if left == 0 {
                return Ok(());
            }
            left -= self.take_block(source, left)?;
            self.cut(head);
        }
    }

    /// Skips a payload of `count` bytes, which usually arrives in one read.
    #[inline(always)]
    fn skip_payload<R: Source>(&mut self, source: &mut R, count: usize) -> Result<(), Reason>
        requires { length self.old.buffer.bytes ≤ 9 }
        ensures rises { RisesLittle self.old self.new }
        ensures held { self.new.buffer.bytes ≡ self.old.buffer.bytes }
        ensures skips { SkipsAll count result
            (intake R.left R.failures source.old self.old)
            (intake R.left R.failures source.new self.new) }
    {
        if count == 0 {
            return Ok(());
        }
        let head = self.bytes().len();
        let n = self.take_block(source, count)?;
        self.cut(head);
        if n == count {
            return Ok(());
        }
        self.skip_rest(source, count - n)
    }

    /// Takes the count of a skipped payload, skips the payload, and returns its length.
    fn skip_argument<R: Source>(&mut self, source: &mut R, op: Op) -> Result<u64, Reason>
        requires code { self.old.buffer.bytes ≡ code_of op ∷ [] }
        requires skipped { is_passed op ≡ true }
        ensures rises { RisesLittle self.old self.new }
        ensures few { length self.new.buffer.bytes ≤ 9 }
        ensures skips { SkipsArgument self.old.limits.passed op result
            (intake R.left R.failures source.old self.old)
            (intake R.left R.failures source.new self.new) }
    {
        growth();
        let limit = self.limits().passed();
        let count = Count {
            width: count_width(op),
            signed: false,
            limit,
        };
        let length = self.take_count(source, op, count)?;
        self.skip_payload(source, length)?;
        Ok(length as u64)
    }

    /// Takes bytes until they spell an instruction, as `gather` does, but holds no byte payload.
    #[inline(always)]
    pub(crate) fn gather_head<R: Source>(&mut self, source: &mut R) -> Result<Gathered, Reason>
        requires { AtMostOneAhead self.old.buffer.bytes self.old.taken }
        ensures limits { self.new.limits ≡ self.old.limits }
        ensures least { self.old.buffer.peak ≤ self.new.buffer.peak }
        ensures bound { most_held self.new.buffer
            ≤ max self.old.buffer.peak (longest self.old.limits.counted) }
        ensures takes { TakesHead self.old.limits result
            (intake_start R.left R.failures source.old self.old)
            (intake R.left R.failures source.new self.new)
            self.old.buffer.peak (most_held self.new.buffer) }
    {
        growth();
        one_answer();
        one_code();
        let op = self.take_op(source)?;
        let layout = layout_of_op(op);
        if is_skipped(op, layout) {
            let count = self.skip_argument(source, op)?;
            return Ok(Gathered::Skipped { op, count });
        }
        let found = self.gather_behind(source, op, layout)?;
        Ok(Gathered::Held(found))
    }
}
