//! A ceiling of what loading costs, which follows neither the whole stack nor the memo.

ghost use Rattle.std.specs.Prelude.{◌≡◌, ◌≤◌, true};
ghost use Rattle.pkload.specs.Private.Ceiling.{FitsUnder, blind, heaviest, held, lowest};
ghost use Rattle.pkload.specs.Private.Ceiling.{exceeded, may_exceed, plain_weight, pushed};
ghost use Rattle.pkload.specs.Private.Ceiling.{raised, repeated, tied};
ghost use Rattle.pkload.specs.Tally.{Implies};

use crate::tolls::Tolls;
use pkcheck::Audience;
use pkops::{Inst, Op};

/// What bounds the cost of loading a pickle from above. Of the stack only the objects on top are
/// known that hold no others, as tuples, frozensets and answers may, and of the memo nothing: any
/// other object of a tuple or a call may be the heaviest and the deepest that there is.
#[derive(Clone, Copy)]
pub struct Ceiling {
    /// No tuple, frozenset or answer about operands weighs more.
    pub tied: u64,
    /// No other object weighs more than one and so much.
    pub plain: u64,
    /// No object is deeper.
    pub depth: u64,
    /// So many entries on top of the stack are such other objects.
    pub flat: u64,
    /// Whether a mark lies directly below these.
    pub marked: bool,
    /// How many objects were pushed again: fetched, doubled, or put into a frozenset.
    pub again: u64,
    /// Whether there was a BUILD.
    pub builds: bool,
}

/// So many objects that are pushed again are counted at most.
const MOST_COUNTED: u64 = 1_073_741_824;

/// So many bytes of a pickle at most: the memory that they take fits 64 bits.
const MOST_BYTES: u64 = 1_099_511_627_776;

impl Ceiling {
    /// Where a pickle begins.
    pub fn lowest() -> Ceiling
        ensures { result ≡ lowest }
    {
        Ceiling {
            tied: 0,
            plain: 0,
            depth: 0,
            flat: 0,
            marked: false,
            again: 0,
            builds: false,
        }
    }

    /// No object that holds no others weighs more.
    fn plain_weight(&self) -> u64
        ensures { result ≡ plain_weight self.now }
    {
        self.plain.saturating_add(1).min(1_048_575)
    }

    /// No object weighs more.
    fn heaviest(&self) -> u64
        ensures { result ≡ heaviest self.now }
    {
        self.tied.max(self.plain_weight())
    }

    /// Knows nothing about the top of the stack.
    fn blind(&mut self)
        ensures { self.new ≡ blind self.old }
    {
        self.flat = 0;
        self.marked = false;
    }

    /// Pushes an object that holds no others, and weighs one and so much more.
    fn push(&mut self, more: u64)
        ensures { self.new ≡ pushed more self.old }
    {
        self.plain = self.plain.max(more);
        self.flat = self.flat.wrapping_add(1);
    }

    /// Pushes an object that was counted before.
    fn repeat(&mut self)
        ensures { self.new ≡ repeated self.old }
    {
        self.blind();
        if self.again < MOST_COUNTED {
            self.again += 1;
        }
    }

    /// Puts at most so many objects, none heavier than this, into one.
    fn hold(&mut self, count: u64, weight: u64)
        ensures { self.new ≡ held count weight self.old }
    {
        self.blind();
        let whole = count.saturating_mul(weight).saturating_add(1);
        self.tied = self.tied.max(whole.min(1_048_575));
    }

    /// Puts at most so many objects into a tuple, or an answer. `is_flat` says that all of them are
    /// known to hold no others.
    fn tie(&mut self, is_flat: bool, count: u64)
        ensures { self.new ≡ tied is_flat count self.old }
    {
        if is_flat {
            self.hold(count, self.plain_weight());
            self.depth = self.depth.max(1);
        } else {
            self.hold(count, self.heaviest());
            self.depth = self.depth.saturating_add(1).min(1_023);
        }
    }

    /// Puts the objects above the topmost mark into a tuple, by an instruction at this offset.
    fn tie_slice(&mut self, at: u64)
        ensures { self.new ≡ raised Op.Tuple 1 at self.old }
    {
        if self.marked {
            self.tie(true, self.flat);
        } else {
            self.tie(false, at);
        }
    }

    /// Puts the objects above the topmost mark into a frozenset, by an instruction at this offset.
    fn freeze(&mut self, at: u64)
        ensures { self.new ≡ raised Op.FrozenSet 1 at self.old }
    {
        self.hold(at, self.heaviest());
        self.repeat();
    }

    /// Takes a state for an object.
    fn build(&mut self)
        ensures { self.new ≡ raised Op.Build 1 0 self.old }
    {
        self.blind();
        self.builds = true;
    }

    /// Marks the stack.
    fn mark(&mut self)
        ensures { self.new ≡ raised Op.Mark 1 0 self.old }
    {
        self.flat = 0;
        self.marked = true;
    }

    /// Follows an instruction at this offset that may exceed limits, apart from those with a
    /// payload or a memo number.
    fn exceed(&mut self, op: Op, at: u64)
        ensures { self.new ≡ exceeded op at self.old }
    {
        match op {
            Op::Tuple1 => self.tie(1 <= self.flat, 1),
            Op::Tuple2 => self.tie(2 <= self.flat, 2),
            Op::Tuple3 => self.tie(3 <= self.flat, 3),
            Op::Tuple => self.tie_slice(at),
            Op::FrozenSet => self.freeze(at),
            Op::Build => self.build(),
            Op::Dup => self.repeat(),
            Op::Reduce | Op::NewObj => self.tie(false, 2),
            Op::NewObjEx => self.tie(false, 3),
            Op::Obj | Op::Inst => self.tie(false, at),
            Op::BinPersid | Op::ReadonlyBuffer => self.tie(false, 1),
            _ => {}
        }
    }

    /// Follows an instruction with this opcode and so many bytes at this offset, and says whether
    /// it may exceed limits, apart from those with a payload or a memo number, whose bytes pay for
    /// what is done twice. Each arm knows what it says, so only the others pay for a test of it.
    #[inline(always)]
    fn raise(&mut self, op: Op, size: u64, at: u64) -> bool
        ensures ceiling { self.new ≡ raised op size at self.old }
        ensures more { result ≡ may_exceed op }
    {
        match op {
            Op::Tuple1 | Op::Tuple2 | Op::Tuple3 | Op::Tuple => {
                self.exceed(op, at);
                return true;
            }
            Op::FrozenSet | Op::Build | Op::Dup => {
                self.exceed(op, at);
                return true;
            }
            Op::Reduce | Op::NewObj | Op::NewObjEx | Op::Obj | Op::Inst => {
                self.exceed(op, at);
                return true;
            }
            Op::BinPersid | Op::ReadonlyBuffer => {
                self.exceed(op, at);
                return true;
            }
            Op::EmptyTuple => self.tie(true, 0),
            Op::Memoize | Op::BinPut | Op::LongBinPut | Op::Put => {}
            Op::Proto | Op::Frame => {}
            Op::Mark => self.mark(),
            Op::BinGet | Op::LongBinGet | Op::Get => self.repeat(),
            Op::Append | Op::Appends | Op::SetItem | Op::SetItems => self.blind(),
            Op::AddItems | Op::List | Op::Dict | Op::StackGlobal => self.blind(),
            Op::Pop | Op::PopMark | Op::Stop => self.blind(),
            Op::Ext1 | Op::Ext2 | Op::Ext4 => self.blind(),
            Op::Int | Op::Long | Op::Long1 | Op::Long4 => self.push(size / 8),
            Op::String | Op::BinString | Op::ShortBinString => self.push(size / 64),
            Op::Unicode | Op::ShortBinUnicode => self.push(size / 64),
            Op::BinUnicode | Op::BinUnicode8 => self.push(size / 64),
            Op::BinBytes | Op::ShortBinBytes | Op::BinBytes8 => self.push(size / 64),
            _ => self.push(0),
        }
        false
    }

    /// Whether no object is deeper or heavier than the limits allow, nor those that were pushed
    /// again together, and none is built that may not be.
    fn is_within(&self, tolls: &Tolls) -> bool
        ensures depth { result ≡ true → self.now.depth ≤ tolls.now.levels }
        ensures weight { result ≡ true → heaviest self.now ≤ tolls.now.weight }
        ensures builds { result ≡ true → Implies self.now.builds tolls.now.builds }
    {
        self.depth <= u64::from(tolls.levels)
            && self.heaviest() <= u64::from(tolls.weight)
            && self.again.saturating_mul(self.heaviest()) <= tolls.work
            && (tolls.builds || !self.builds)
    }

    /// Whether a pickle of so many bytes is within the limits, as far as is known.
    pub fn fits_under(&self, tolls: &Tolls, bytes: u64) -> bool
        ensures { result ≡ true → FitsUnder tolls.now bytes self.now }
    {
        let Some(repeated) = self.again.checked_mul(self.heaviest()) else {
            return false;
        };
        let Some(work) = bytes.checked_add(repeated) else {
            return false;
        };
        self.is_within(tolls)
            && self.again < MOST_COUNTED
            && work <= tolls.work
            && work <= tolls.clash
            && tolls.memory == u64::MAX
            && bytes <= MOST_BYTES
    }
}

/// The audience of a check that bounds what loading costs. It stops the check where a tuple, a
/// frozenset or a BUILD puts the ceiling above the limits, so that little is done twice.
#[derive(Clone, Copy)]
pub struct Estimate {
    /// What bounds the cost so far.
    pub ceiling: Ceiling,
    /// The limits.
    pub tolls: Tolls,
}

/// The ceiling is above the limits, which says nothing about the pickle.
#[derive(Clone, Copy)]
pub struct Above;

impl Estimate {
    /// Where a pickle begins.
    pub fn new(tolls: &Tolls) -> Estimate
        ensures { result.ceiling ≡ lowest }
    {
        Estimate {
            ceiling: Ceiling::lowest(),
            tolls: *tolls,
        }
    }
}

impl Audience for Estimate {
    ghost use Rattle.std.specs.Prelude.{⊤, false};
    ghost use Rattle.pkload.specs.Private.Ceiling.{Follows, follows_more, follows_none};

    type Error = Above;

    ghost holding = { false };

    ghost hears = { Follows };

    ghost fails = { λ old new told error. ⊤ };

    fn holds() -> bool {
        false
    }

    #[inline(always)]
    fn tell(&mut self, at: u64, inst: &Inst<'_>, _marks: usize) -> Result<(), Above> {
        if self.ceiling.raise(inst.op(), inst.len(), at) && !self.ceiling.is_within(&self.tolls) {
            return Err(Above);
        }
        Ok(())
    }

    fn tell_skipped(&mut self, at: u64, op: Op, length: u64, _marks: usize) -> Result<(), Above> {
        self.ceiling.raise(op, length, at);
        Ok(())
    }

    ghost hears_none = { follows_none };

    ghost hears_more = { follows_more };
}
