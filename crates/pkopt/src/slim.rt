//! Produces the slim form of a pickle.

ghost use Rattle.std.specs.Prelude.{◌≡◌, ◌<◌, ◌≤◌, ◌+◌, ◌++◌, ◌^◌, OnOk, length};
ghost use Rattle.pkops.specs.declared.Op.TheVariants as op;
ghost use Rattle.pkopt.specs.Private.Fates.{fate_in, reads_after, writes_after};
ghost use Rattle.pkopt.specs.Private.Passes.{memo_use};
ghost use Rattle.pkopt.specs.Private.Places.{end_behind, places_behind};
ghost use Rattle.pkopt.specs.Private.Produced.{at_start, emitted, fate_at, first_past, from_after};
ghost use Rattle.pkopt.specs.Private.Produced.{between, passed, produced, respelled};

use crate::fate::{Fate, Plan, fetched_fate, next_fate, number_of, passed_fate, stored_fate};
use crate::memo::{MemoUse, memo_use};
use crate::packed::PackedPart;
use crate::place::{Place, is_plain};
use crate::renumbering::{code, give_renumbered};
use crate::sink::Sink;
use pkops::Op;

/// How far a pass over a pickle has come.
#[derive(Clone, Copy)]
pub(crate) struct Pass {
    /// The number of memo writes so far in the pickle.
    writes: usize,
    /// The number of memo reads so far.
    reads: usize,
    /// The offset in the pickle of the first byte not produced yet. Those bytes end at the current
    /// instruction.
    from: usize,
}

impl Pass {
    /// Before the first instruction.
    fn new() -> Pass
        ensures { result ≡ at_start }
    {
        Pass {
            writes: 0,
            reads: 0,
            from: 0,
        }
    }

    /// The fate of the next instruction that may change. Counts it if it uses the memo.
    #[inline(always)]
    fn fate(&mut self, plan: &Plan, op: Op) -> Fate
        requires writes { self.old.writes < 2 ^ 63 }
        requires reads { self.old.reads < 2 ^ 63 }
        ensures fate { result ≡ fate_in plan.now op self.old.writes self.old.reads }
        ensures writes { self.new.writes ≡ writes_after (memo_use op) self.old.writes }
        ensures reads { self.new.reads ≡ reads_after (memo_use op) self.old.reads }
        ensures from { self.new.from ≡ self.old.from }
        ensures few_writes { self.new.writes ≤ self.old.writes + 1 }
        ensures few_reads { self.new.reads ≤ self.old.reads + 1 }
    {
        match memo_use(op) {
            MemoUse::Stores => {
                let number = number_of(&plan.numbers, self.writes);
                self.writes += 1;
                stored_fate(number, plan.limit)
            }
            MemoUse::StoresNext => {
                let number = number_of(&plan.numbers, self.writes);
                self.writes += 1;
                next_fate(number, plan.limit)
            }
            MemoUse::Fetches => {
                let source = plan.sources.get(self.reads);
                self.reads += 1;
                fetched_fate(&plan.numbers, source)
            }
            MemoUse::Neither => passed_fate(op),
        }
    }

    /// Gives a sink the unchanged bytes before a place, and goes on after it.
    #[inline(always)]
    fn give_before<S: Sink>(
        &mut self,
        place: Place,
        bytes: &[u8],
        sink: &mut S,
    ) -> Result<(), S::Error>
        requires low { self.old.from ≤ place.at }
        requires high { place.at + place.size ≤ length bytes.now }
        ensures form { OnOk result (S.takes sink.old sink.new
            (between self.old.from place.at bytes.now)) }
        ensures from { self.new.from ≡ place.at + place.size }
        ensures writes { self.new.writes ≡ self.old.writes }
        ensures reads { self.new.reads ≡ self.old.reads }
    {
        let here = place.at as usize;
        let from = self.from;
        self.from = here + usize::from(place.size);
        sink.take_between(bytes, from, here)
    }

    /// Gives a sink what is left of the instruction at a place. Unchanged bytes before it are given
    /// only when something else follows them.
    #[inline(always)]
    fn emit<S: Sink>(
        &mut self,
        fate: Fate,
        place: Place,
        bytes: &[u8],
        sink: &mut S,
    ) -> Result<(), S::Error>
        requires low { self.old.from ≤ place.at }
        requires high { place.at + place.size ≤ length bytes.now }
        ensures form { OnOk result (S.takes sink.old sink.new
            (emitted fate place bytes.now self.old.from)) }
        ensures from { OnOk result (self.new.from ≡ from_after fate place self.old.from) }
        ensures writes { self.new.writes ≡ self.old.writes }
        ensures reads { self.new.reads ≡ self.old.reads }
    {
        match fate {
            Fate::Stays => Ok(()),
            Fate::Gets(number) => {
                self.give_before(place, bytes, sink)?;
                give_renumbered(sink, place.op, number)
            }
            _ => self.give_before(place, bytes, sink),
        }
    }

    /// Gives a sink the unchanged bytes before a BINGET and the BINGET with its new number.
    #[inline(always)]
    fn give_with_binget<S: Sink>(
        &mut self,
        number: u32,
        place: Place,
        bytes: &[u8],
        sink: &mut S,
    ) -> Result<(), S::Error>
        requires low { self.old.from ≤ place.at }
        requires high { place.at + place.size ≤ length bytes.now }
        ensures form { OnOk result (S.takes sink.old sink.new
            (between self.old.from place.at bytes.now ++ respelled op.BinGet number)) }
        ensures from { OnOk result (self.new.from ≡ place.at + place.size) }
        ensures writes { self.new.writes ≡ self.old.writes }
        ensures reads { self.new.reads ≡ self.old.reads }
    {
        if number >= 256 {
            self.give_before(place, bytes, sink)?;
            return give_renumbered(sink, Op::BinGet, number);
        }
        let here = place.at as usize;
        let from = self.from;
        self.from = here + usize::from(place.size);
        sink.take_with_two(bytes, from, here, code(Op::BinGet), number as u8)
    }

    /// Does for a BINGET what `give` does, with one jump table less than for other opcodes.
    #[inline(always)]
    fn give_binget<S: Sink>(
        &mut self,
        plan: &Plan,
        place: Place,
        bytes: &[u8],
        sink: &mut S,
    ) -> Result<(), S::Error>
        requires op { place.op ≡ op.BinGet }
        requires reads { self.old.reads < 2 ^ 63 }
        requires low { self.old.from ≤ place.at }
        requires high { place.at + place.size ≤ length bytes.now }
        ensures form { OnOk result (S.takes sink.old sink.new
            (emitted (fate_at plan.now place self.old) place bytes.now self.old.from)) }
        ensures pass { OnOk result (self.new ≡ passed plan.now place self.old) }
    {
        let source = plan.sources.get(self.reads);
        self.reads += 1;
        match fetched_fate(&plan.numbers, source) {
            Fate::Stays => Ok(()),
            Fate::Gets(number) => self.give_with_binget(number, place, bytes, sink),
            _ => self.give_before(place, bytes, sink),
        }
    }

    /// Does for a MEMOIZE what `give` does, without a jump table.
    #[inline(always)]
    fn give_memoize<S: Sink>(
        &mut self,
        plan: &Plan,
        place: Place,
        bytes: &[u8],
        sink: &mut S,
    ) -> Result<(), S::Error>
        requires op { place.op ≡ op.Memoize }
        requires writes { self.old.writes < 2 ^ 63 }
        requires low { self.old.from ≤ place.at }
        requires high { place.at + place.size ≤ length bytes.now }
        ensures form { OnOk result (S.takes sink.old sink.new
            (emitted (fate_at plan.now place self.old) place bytes.now self.old.from)) }
        ensures pass { OnOk result (self.new ≡ passed plan.now place self.old) }
    {
        let number = number_of(&plan.numbers, self.writes);
        self.writes += 1;
        self.emit(next_fate(number, plan.limit), place, bytes, sink)
    }

    /// Does for a LONG_BINPUT what `give` does, without a jump table.
    #[inline(always)]
    fn give_long_binput<S: Sink>(
        &mut self,
        plan: &Plan,
        place: Place,
        bytes: &[u8],
        sink: &mut S,
    ) -> Result<(), S::Error>
        requires op { place.op ≡ op.LongBinPut }
        requires writes { self.old.writes < 2 ^ 63 }
        requires low { self.old.from ≤ place.at }
        requires high { place.at + place.size ≤ length bytes.now }
        ensures form { OnOk result (S.takes sink.old sink.new
            (emitted (fate_at plan.now place self.old) place bytes.now self.old.from)) }
        ensures pass { OnOk result (self.new ≡ passed plan.now place self.old) }
    {
        let number = number_of(&plan.numbers, self.writes);
        self.writes += 1;
        match stored_fate(number, plan.limit) {
            Fate::Stays => Ok(()),
            Fate::Gets(number) => {
                self.give_before(place, bytes, sink)?;
                give_renumbered(sink, Op::LongBinPut, number)
            }
            _ => self.give_before(place, bytes, sink),
        }
    }

    /// Gives a sink what is left of the instruction at a place, and counts it, with less work for
    /// the most frequent opcodes of long pickles.
    fn give<S: Sink>(
        &mut self,
        plan: &Plan,
        place: Place,
        bytes: &[u8],
        sink: &mut S,
    ) -> Result<(), S::Error>
        requires writes { self.old.writes < 2 ^ 63 }
        requires reads { self.old.reads < 2 ^ 63 }
        requires low { self.old.from ≤ place.at }
        requires high { place.at + place.size ≤ length bytes.now }
        ensures form { OnOk result (S.takes sink.old sink.new
            (emitted (fate_at plan.now place self.old) place bytes.now self.old.from)) }
        ensures pass { OnOk result (self.new ≡ passed plan.now place self.old) }
    {
        if let Op::BinGet = place.op {
            return self.give_binget(plan, place, bytes, sink);
        }
        if let Op::Memoize = place.op {
            return self.give_memoize(plan, place, bytes, sink);
        }
        if let Op::LongBinPut = place.op {
            return self.give_long_binput(plan, place, bytes, sink);
        }
        let fate = self.fate(plan, place.op);
        self.emit(fate, place, bytes, sink)
    }
}

/// Gives a sink the slim form of the pickle that is the first `taken` bytes. `parts` has those up
/// to its last instruction that may change.
#[inline(never)]
pub(crate) fn give_slim<S: Sink>(
    bytes: &[u8],
    parts: &[PackedPart],
    taken: usize,
    plan: &Plan,
    sink: &mut S,
) -> Result<(), S::Error>
    requires within { end_behind 0 parts.now ≤ taken }
    requires there { taken ≤ length bytes.now }
    ensures { OnOk result (S.takes sink.old sink.new
        (produced plan.now bytes.now taken (places_behind 0 parts.now) at_start)) }
{
    let mut pass = Pass::new();
    let mut end = 0;
    for part in parts {
        let place = part.place_behind(end);
        end = place.at + u64::from(place.size);
        // The fate of an instruction that never changes is to stay.
        pass.give(plan, place, bytes, sink)?;
    }
    sink.take(&bytes[pass.from..taken])
}

/// The offset of the first write that is read and whose number would be the limit, if there is one.
#[inline(never)]
pub(crate) fn first_past(parts: &[PackedPart], plan: &Plan) -> Option<u64>
    requires { end_behind 0 parts.now < 2 ^ 64 }
    ensures { result ≡ first_past plan.now (places_behind 0 parts.now) 0 0 }
{
    let mut pass = Pass::new();
    let mut end = 0;
    for part in parts {
        let place = part.place_behind(end);
        end = place.at + u64::from(place.size);
        if is_plain(place.op) {
            continue;
        }
        if let Fate::IsPast = pass.fate(plan, place.op) {
            return Some(place.at);
        }
    }
    None
}
