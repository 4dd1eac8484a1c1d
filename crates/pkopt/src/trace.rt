//! Records the memo and the frames of a pickle while it is checked.

ghost use Rattle.std.specs.Prelude.{◌≡◌, ◌||◌, ◌+◌, ◌++◌, ◌∷◌, ◌<◌, ◌≤◌, [], IfOk, OnOk, false};
ghost use Rattle.pkops.specs.declared.Op.TheVariants as op;
ghost use Rattle.pkops.specs.Inst.{instruction_of};
ghost use Rattle.pkops.specs.Operands.{memo_number};
ghost use Rattle.pkstack.specs.Shape.{recalled};
ghost use Rattle.pkopt.specs.Private.Passes.{IsNewTrace, Marks, Notes, NotesNext, NotesStep, Skips};
ghost use Rattle.pkopt.specs.Private.Places.{place, place_of, stays_as_is};
ghost use Rattle.pkopt.specs.Slim.{is_frame};

use crate::memo::{MemoUse, memo_use};
use crate::packed::{PackedPart, is_short};
use crate::place::{Part, is_plain, size_of, size_with};
use crate::sources::Sources;
use pkbase::NumberedMap;
use pkcheck::Listener;
use pkops::{Inst, Op};
use std::alloc::{AllocError, Global};

/// The most bytes that stay in a part with an instruction that may change, if it is short.
const MOST_BEFORE: u64 = 255;

/// The most bytes in a part without such an instruction: what a long part can hold.
const MOST: u16 = 26_623;

/// The memo number that an instruction names; 0 if it names none.
#[inline(always)]
fn number_of(inst: &Inst<'_>) -> u32
    ensures { result ≡ memo_number (instruction_of inst.now) }
{
    inst.memo_number().unwrap_or(0)
}

/// The length of the next part without an instruction that may change, if so many bytes stay.
fn part_of(bytes: u64) -> u16
    ensures fits { result ≤ bytes }
    ensures some { 0 < bytes → 0 < result }
{
    if bytes < u64::from(MOST) {
        bytes as u16
    } else {
        MOST
    }
}

/// The most bytes that stay in a part with an instruction of this length.
#[inline(always)]
fn most_before(size: u16) -> u64
    ensures { result ≤ 255 }
{
    if is_short(size) { MOST_BEFORE } else { 0 }
}

/// Whether a part with this opcode or an earlier one has a FRAME.
#[inline(always)]
fn with_frame(framed: bool, op: Op) -> bool
    ensures { result ≡ framed || is_frame op }
{
    framed || matches!(op, Op::Frame)
}

/// What the first pass has learned about the memo and the frames of a pickle.
#[derive(Drop)]
pub(crate) struct Trace {
    /// The last write of each number. Writes are named 0, 1, 2 and so on, in order.
    pub memo: NumberedMap<u32>,
    /// The number of writes. It can't overflow: 2^32 writes would take 8 GB of parts alone.
    pub writes: u32,
    /// For each read, the write that it reads.
    pub sources: Sources,
    /// The parts up to the last instruction that may change.
    pub parts: Vec<PackedPart>,
    /// The offset at which these parts end.
    pub end: u64,
    /// Whether one of them has a FRAME.
    pub framed: bool,
}

impl Trace {
    /// Before the first instruction.
    pub(crate) fn new(alloc: Global) -> Trace
        ensures { IsNewTrace result }
    {
        Trace {
            memo: NumberedMap::new(alloc, 0),
            writes: 0,
            sources: Sources::new(alloc),
            parts: Vec::new(alloc),
            end: 0,
            framed: false,
        }
    }

    /// Records a write under this number. Out of line, so that the compiler still inlines the check
    /// into its caller.
    #[inline(never)]
    fn write(&mut self, number: u32) -> Result<(), AllocError>
        ensures noted { OnOk result (Notes number self.old self.new) }
        ensures sources { self.new.sources.items ≡ self.old.sources.items }
        ensures parts { self.new.parts.items ≡ self.old.parts.items }
        ensures end { self.new.end ≡ self.old.end }
        ensures framed { self.new.framed ≡ self.old.framed }
    {
        let Some(writes) = self.writes.checked_add(1) else {
            return Err(AllocError);
        };
        self.memo.store(u64::from(number), self.writes)?;
        self.writes = writes;
        Ok(())
    }

    /// Records a write under the number of memo entries.
    #[inline(always)]
    fn write_next(&mut self) -> Result<(), AllocError>
        ensures noted { OnOk result (NotesNext self.old self.new) }
        ensures sources { self.new.sources.items ≡ self.old.sources.items }
        ensures parts { self.new.parts.items ≡ self.old.parts.items }
        ensures end { self.new.end ≡ self.old.end }
        ensures framed { self.new.framed ≡ self.old.framed }
    {
        let Some(writes) = self.writes.checked_add(1) else {
            return Err(AllocError);
        };
        self.memo.store_next(self.writes)?;
        self.writes = writes;
        Ok(())
    }

    /// Records a read of this number.
    #[inline(always)]
    fn read(&mut self, number: u32) -> Result<(), AllocError>
        ensures writes { self.new.writes ≡ self.old.writes }
        ensures memo { self.new.memo ≡ self.old.memo }
        ensures sources { OnOk result (self.new.sources.items
            ≡ self.old.sources.items ++ recalled number self.old.memo ∷ []) }
        ensures parts { self.new.parts.items ≡ self.old.parts.items }
        ensures end { self.new.end ≡ self.old.end }
        ensures framed { self.new.framed ≡ self.old.framed }
    {
        let source = self.memo.get(number);
        self.sources.push(source)
    }

    /// Records what an instruction with this opcode and memo number does to the memo.
    #[inline(always)]
    fn follow(&mut self, op: Op, number: u32) -> Result<(), AllocError>
        ensures step { OnOk result (NotesStep op number self.old self.new) }
        ensures parts { self.new.parts.items ≡ self.old.parts.items }
        ensures end { self.new.end ≡ self.old.end }
        ensures framed { self.new.framed ≡ self.old.framed }
    {
        match memo_use(op) {
            MemoUse::Stores => self.write(number),
            MemoUse::StoresNext => self.write_next(),
            MemoUse::Fetches => self.read(number),
            MemoUse::Neither => Ok(()),
        }
    }

    /// Records a part of bytes that stay as they are.
    fn stay(&mut self, size: u16) -> Result<(), AllocError>
        ensures skips { OnOk result (Skips self.old self.new) }
        ensures end { OnOk result (self.new.end ≡ self.old.end + size) }
        ensures writes { self.new.writes ≡ self.old.writes }
        ensures memo { self.new.memo ≡ self.old.memo }
        ensures sources { self.new.sources.items ≡ self.old.sources.items }
    {
        let Some(end) = self.end.checked_add(u64::from(size)) else {
            return Err(AllocError);
        };
        let (gap, op) = (0, Op::Stop);
        let Some(part) = PackedPart::new(Part { size, gap, op }) else {
            return Err(AllocError);
        };
        self.parts.push(part)?;
        self.end = end;
        Ok(())
    }

    /// Records so many bytes that stay as they are.
    #[inline(never)]
    fn pass(&mut self, count: u64) -> Result<(), AllocError>
        ensures skips { OnOk result (Skips self.old self.new) }
        ensures end { OnOk result (self.new.end ≡ self.old.end + count) }
        ensures writes { self.new.writes ≡ self.old.writes }
        ensures memo { self.new.memo ≡ self.old.memo }
        ensures sources { self.new.sources.items ≡ self.old.sources.items }
    {
        let mut left = count;
        while left > 0 {
            let size = part_of(left);
            self.stay(size)?;
            left -= u64::from(size);
        }
        Ok(())
    }

    /// Records the bytes before an instruction at this offset, except for the result: the gap
    /// before it, which has at most so many bytes.
    #[inline(always)]
    fn pass_to(&mut self, at: u64, most: u64) -> Result<u8, AllocError>
        requires { most ≤ 255 }
        ensures skips { OnOk result (Skips self.old self.new) }
        ensures gap { IfOk result (λ gap. self.new.end + gap ≡ at) }
        ensures writes { self.new.writes ≡ self.old.writes }
        ensures memo { self.new.memo ≡ self.old.memo }
        ensures sources { self.new.sources.items ≡ self.old.sources.items }
    {
        if at < self.end {
            return Err(AllocError);
        }
        let count = at - self.end;
        if count <= most {
            return Ok(count as u8);
        }
        self.pass(count)?;
        Ok(0)
    }

    /// Records where an instruction that may change lies.
    #[inline(always)]
    fn place(&mut self, at: u64, op: Op, size: u16) -> Result<(), AllocError>
        requires { stays_as_is op ≡ false }
        ensures places { OnOk result (Marks (place at size op) self.old self.new) }
        ensures writes { self.new.writes ≡ self.old.writes }
        ensures memo { self.new.memo ≡ self.old.memo }
        ensures sources { self.new.sources.items ≡ self.old.sources.items }
    {
        let Some(end) = at.checked_add(u64::from(size)) else {
            return Err(AllocError);
        };
        let gap = self.pass_to(at, most_before(size))?;
        let Some(part) = PackedPart::new(Part { size, gap, op }) else {
            return Err(AllocError);
        };
        self.parts.push(part)?;
        self.framed = with_frame(self.framed, op);
        self.end = end;
        Ok(())
    }

    /// Records an instruction that may change, at this offset, by its opcode, length and memo
    /// number.
    #[inline(never)]
    fn take_slowly(&mut self, at: u64, op: Op, size: u16, number: u32) -> Result<(), AllocError>
        requires { stays_as_is op ≡ false }
        ensures places { OnOk result (Marks (place at size op) self.old self.new) }
        ensures step { OnOk result (NotesStep op number self.old self.new) }
    {
        if let Op::Get = op {
            self.place(at, Op::Get, size)?;
            return self.read(number);
        }
        if let Op::Put = op {
            self.place(at, Op::Put, size)?;
            return self.write(number);
        }
        self.place(at, op, size)?;
        self.follow(op, number)
    }

    /// Records an instruction that may change, at this offset.
    #[inline(always)]
    fn take(&mut self, at: u64, inst: &Inst<'_>) -> Result<(), AllocError>
        requires { stays_as_is (instruction_of inst.now).op ≡ false }
        ensures places { OnOk result (Marks (place_of at (instruction_of inst.now))
            self.old self.new) }
        ensures step { OnOk result (NotesStep (instruction_of inst.now).op
            (memo_number (instruction_of inst.now)) self.old self.new) }
    {
        self.take_slowly(at, inst.op(), size_of(inst), number_of(inst))
    }

    /// Records a BINGET at this offset. It does what `take` does, without a jump table.
    #[inline(always)]
    fn take_binget(&mut self, at: u64, inst: &Inst<'_>) -> Result<(), AllocError>
        requires { (instruction_of inst.now).op ≡ op.BinGet }
        ensures places { OnOk result (Marks (place_of at (instruction_of inst.now))
            self.old self.new) }
        ensures step { OnOk result (NotesStep (instruction_of inst.now).op
            (memo_number (instruction_of inst.now)) self.old self.new) }
    {
        self.place(at, Op::BinGet, size_with(Op::BinGet, inst))?;
        self.read(number_of(inst))
    }

    /// Records a MEMOIZE at this offset. It does what `take` does, without a jump table.
    #[inline(always)]
    fn take_memoize(&mut self, at: u64, inst: &Inst<'_>) -> Result<(), AllocError>
        requires { (instruction_of inst.now).op ≡ op.Memoize }
        ensures places { OnOk result (Marks (place_of at (instruction_of inst.now))
            self.old self.new) }
        ensures step { OnOk result (NotesStep (instruction_of inst.now).op
            (memo_number (instruction_of inst.now)) self.old self.new) }
    {
        self.place(at, Op::Memoize, size_with(Op::Memoize, inst))?;
        self.write_next()
    }

    /// Records a LONG_BINPUT at this offset. It does what `take` does, without a jump table.
    #[inline(always)]
    fn take_long_binput(&mut self, at: u64, inst: &Inst<'_>) -> Result<(), AllocError>
        requires { (instruction_of inst.now).op ≡ op.LongBinPut }
        ensures places { OnOk result (Marks (place_of at (instruction_of inst.now))
            self.old self.new) }
        ensures step { OnOk result (NotesStep (instruction_of inst.now).op
            (memo_number (instruction_of inst.now)) self.old self.new) }
    {
        self.place(at, Op::LongBinPut, size_with(Op::LongBinPut, inst))?;
        self.write(number_of(inst))
    }
}

impl Listener for Trace {
    type Error = AllocError;

    ghost use Rattle.pkopt.specs.Private.Passes.{Hears};
    ghost use Rattle.pkopt.specs.Private.HeardParts.{hears_none, hears_more};

    ghost hears = { Hears };

    // Inlined into the check, so that an instruction that never changes costs only comparisons. The
    // most frequent opcodes of long pickles come first.
    #[inline(always)]
    fn hear(&mut self, at: u64, inst: &Inst<'_>, _marks: usize) -> Result<(), AllocError> {
        let op = inst.op();
        if let Op::BinGet = op {
            return self.take_binget(at, inst);
        }
        if let Op::Memoize = op {
            return self.take_memoize(at, inst);
        }
        if is_plain(op) {
            return Ok(());
        }
        if let Op::LongBinPut = op {
            return self.take_long_binput(at, inst);
        }
        self.take(at, inst)
    }

    ghost hears_none = { hears_none };

    ghost hears_more = { hears_more };
}
