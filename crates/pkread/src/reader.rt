//! The instructions of a source, one at a time.

ghost use Rattle.std.specs.Prelude.{◌≡◌, ◌+◌, ◌≤◌, IfSome, length, true};
ghost use Rattle.std.specs.Borrow.{sem};
ghost use Rattle.pkread.specs.ReaderCalls.{source_name, source_of};
ghost use Rattle.pkops.specs.Scans.{longest};
ghost use Rattle.pkread.specs.Rows.{all_bytes, sight};

use crate::heads::Gathered;
use crate::source::Source;
use crate::state::{Core, Phase};
use pkops::{Inst, Limits, Op, Refusal};
use std::alloc::Global;

/// What `Reader::next` returns.
#[derive(Clone, Copy, Debug)]
pub enum Next<'a> {
    /// An instruction and the offset of its first byte, counted from the first byte taken. Its
    /// argument borrows from the reader's buffer.
    Inst { at: u64, inst: Inst<'a> },
    /// STOP was already returned.
    Ended,
}

/// What `Reader::next_head` returns.
#[derive(Clone, Copy, Debug)]
pub enum Head<'a> {
    /// An instruction, as in `Next`. Its opcode is not a passed one.
    Inst { at: u64, inst: Inst<'a> },
    /// An instruction with a passed opcode, and the offset of its first byte. Its payload of
    /// `count` bytes was taken and discarded.
    Passed { at: u64, op: Op, count: u64 },
    /// STOP was already returned.
    Ended,
}

/// Reads the instructions of a source, and takes no byte after STOP. A read requests only bytes
/// that the current instruction is known to need, and at most 4,096 of them, so buffer a source
/// whose reads are expensive.
///
/// The reader borrows its source, so write the reading code as a function that is generic in the
/// source, and call it with any source:
///
/// ```rust
/// use pkops::Limits;
/// use pkread::{Memory, Next, Reader, Refusal, Source};
/// use std::alloc::Global;
///
/// fn count<R: Source>(alloc: Global, source: &mut R) -> Result<u64, Refusal> {
///     let mut reader = Reader::new(alloc, source, &Limits::STANDARD);
///     let mut count = 0u64;
///     for _ in 0..u64::MAX {
///         match reader.next()? {
///             Next::Inst { .. } => count = count.wrapping_add(1),
///             Next::Ended => break,
///         }
///     }
///     Ok(count)
/// }
///
/// assert_eq!(rt; count(alloc, &mut Memory::new(b"N.")), Ok(2));
/// ```
#[derive(Debug)]
pub struct Reader<'r, R, B: Drop = Core> {
    source: &'r mut R,
    core: B,
}

impl<'r, R, B: Drop> Drop for Reader<'r, R, B> {
    fn drop(self)
        ensures { self.exit.0.now ≡ source_of self.entry }
    {
        let Reader { source, core } = self;
        drop(core);
        let _ = source;
    }
}

impl<'r, R: Source> Reader<'r, R> {
    ghost use Rattle.pkread.specs.Again.{StepsAgain, TakesOneAhead};
    ghost use Rattle.pkread.specs.Heads.{ShowsAHead, StepsHead};
    ghost use Rattle.pkread.specs.AtHand.{AreNext, beyond};
    ghost use Rattle.pkread.specs.ReaderCalls.{KeepsSource, Shows, Steps, TakesNoneAhead, begun};
    ghost use Rattle.pkread.specs.ReaderCalls.{has_ended, source_of, state};
    ghost use Rattle.pkread.specs.Returned.{OnceReturned};

    /// A reader at the start of the source.
    pub fn new(alloc: Global, source: &'r mut R, limits: &Limits) -> Reader<'r, R>
        ensures source { source_name result ≡ source.entry.ghost_name }
        ensures state { state R.left R.failures result
            ≡ begun (sight R.left R.failures source.old) limits.now }
    {
        Reader {
            source,
            core: Core::new(alloc, limits),
        }
    }

    /// Whether the last returned instruction was STOP, with no refusal since.
    pub fn ended(&self) -> bool
        ensures { result ≡ has_ended (state R.left R.failures self.now) }
    {
        matches!(self.core.phase(), Phase::Ended)
    }

    /// The number of bytes taken from the source.
    pub fn taken(&self) -> u64
        ensures { result ≡ (state R.left R.failures self.now).taken }
    {
        self.core.taken()
    }

    /// The most bytes that the buffer has held. It never exceeds 131,075 or the limit on held
    /// payloads plus 9, whichever is larger.
    pub fn most_held(&self) -> usize
        ensures most { result ≡ (state R.left R.failures self.now).most }
        ensures bound { result ≤ longest (state R.left R.failures self.now).limits.counted }
    {
        self.core.most()
    }

    /// Takes the next instruction from the source. It borrows from the reader until the next call.
    /// After STOP this returns `Ended`, and after a refusal the same refusal. Neither reads the
    /// source.
    ///
    /// # Errors
    ///
    /// The reasons from `Source` to `UnsupportedProtocol`, in the order of `Reason`, and
    /// `OutOfMemory`. A failed read is not retried.
    pub fn next(&mut self) -> Result<Next<'_>, Refusal>
        ensures shows { Shows (state R.left R.failures self.old) result }
        ensures* after { sem 𝓛 (OnceReturned R.row R.Source self.entry
            (λ old new. Steps old result new)) }
    {
        match self.core.phase() {
            Phase::Ended => return Ok(Next::Ended),
            Phase::Refused(refusal) => return Err(refusal),
            Phase::Open => {}
        }
        let at = self.taken();
        let found = self.core.collect(self.source)?;
        Ok(Next::Inst {
            at,
            inst: self.core.instruction(found),
        })
    }

    /// Takes the next instruction as `next` does, but does not hold the payload of a passed opcode:
    /// it takes the payload in blocks and reports only its length. The limit on such a payload is
    /// `passed` instead of `counted`. Otherwise refusals, their offsets and the bytes taken are
    /// those of `next`, unless an allocation is refused. Calls of the two may be mixed.
    ///
    /// One call raises `most_held` to at most 131,075, or to the count plus 9 of an instruction
    /// whose payload is held.
    pub fn next_head(&mut self) -> Result<Head<'_>, Refusal>
        ensures shows { ShowsAHead (state R.left R.failures self.old) result }
        ensures* after { sem 𝓛 (OnceReturned R.row R.Source self.entry
            (λ old new. StepsHead old result new)) }
    {
        match self.core.phase() {
            Phase::Ended => return Ok(Head::Ended),
            Phase::Refused(refusal) => return Err(refusal),
            Phase::Open => {}
        }
        let at = self.taken();
        match self.core.collect_head(self.source)? {
            Gathered::Skipped { op, count } => Ok(Head::Passed { at, op, count }),
            Gathered::Held(found) => Ok(Head::Inst {
                at,
                inst: self.core.instruction(found),
            }),
        }
    }

    /// The next bytes of the source, as far as they are at hand and can be taken. [`lend`] finds
    /// the instruction that they begin with. Nothing is taken: call `advance` with the length of
    /// the instructions that were used, or a call that returns every instruction. `None` says
    /// nothing about the reader: it comes after STOP, after a refusal, and where an instruction has
    /// begun, but no clause says that it comes only there.
    ///
    /// [`lend`]: crate::lend
    pub fn at_hand(&self) -> Option<&[u8]>
        ensures next { IfSome result (λ bytes. AreNext (state R.left R.failures self.now)
            bytes.now) }
        ensures within { IfSome result (λ bytes. length bytes.now
            ≤ R.at_hand (source_of self.now)) }
        ensures none { IfSome result (λ _. TakesNoneAhead self.now) }
    {
        if !self.core.is_open() {
            return None;
        }
        let bytes = self.source.ahead();
        let count = bytes.len().min(self.core.room() as usize);
        Some(&bytes[..count])
    }

    /// Takes `count` of the bytes that `at_hand` returned: those of whole instructions. The source
    /// is then as after calls of `next` or `next_head`.
    pub fn advance(&mut self, count: usize)
        requires within { count ≤ R.at_hand (source_of self.old) }
        requires room { (state R.left R.failures self.old).taken + count ≤ all_bytes }
        requires none { TakesNoneAhead self.old }
        ensures source { KeepsSource self.old self.new }
        ensures none { TakesNoneAhead self.new }
        ensures after { state R.left R.failures self.new
            ≡ beyond count (state R.left R.failures self.old) }
    {
        self.source.advance(count);
        self.core.count_lent(count);
    }

    /// Reads one byte after STOP, to find out whether another pickle follows. If so, that byte
    /// belongs to the first instruction of that pickle. `next` and `next_head` read on to the next
    /// STOP, and offsets continue. At the end of the source, the reader stays as it is.
    ///
    /// # Errors
    ///
    /// `Source`, `OutOfMemory`, or `TooLarge` without reading once 2^64 - 1 bytes were taken. After
    /// an error, `next` and `next_head` return the same refusal.
    pub fn again(&mut self) -> Result<bool, Refusal>
        requires { has_ended (state R.left R.failures self.old) ≡ true }
        ensures source { KeepsSource self.old self.new }
        ensures steps { StepsAgain (state R.left R.failures self.old) result
            (state R.left R.failures self.new) }
        ensures byte { TakesOneAhead R.left R.failures self.old result self.new }
    {
        self.core.again(self.source)
    }
}
