//! The current instruction, the bytes taken for it, and the most that were ever held.

ghost use Rattle.std.specs.Prelude.{◌≡◌, ◌+◌, ◌∷◌, ◌<◌, ◌≤◌, [], ℕ, List, length, max, take};
ghost use Rattle.std.specs.Prelude.{IfErr, IfNone, IfOk, IfSome};
ghost use Rattle.pkread.specs.Rows.{all_bytes, sight};
ghost use Rattle.pkread.specs.Held.{most_held, none_held};
ghost use Rattle.pkread.specs.Private.Progress.{KeepsRest, intake};
ghost use Rattle.pkread.specs.Private.Reads.{ReadsByte, ReadsNone, ReadsSome, TakesAll};
ghost use Rattle.pkread.specs.Private.Reads.{TakesBlock, TakesByte};
ghost use Rattle.pkread.specs.Private.SkippedBytes.{PassedSome};

use crate::source::Source;
use crate::store::{make_room, pull_into, put, put_field};
use pkops::{Limits, Reason};
use std::alloc::Global;
use std::marker::Model;

/// The most bytes that one read asks for.
const BLOCK: usize = 4096;

/// The bytes of the current instruction, how many bytes can still be taken from the source, and the
/// limits on what an instruction holds. At most 2^64 - 1 bytes are taken. The store never shrinks,
/// so a read never has to zero memory first.
#[derive(Debug, Drop)]
pub(crate) struct Gathering {
    store: Vec<u8>,
    held: usize,
    /// The most bytes held at any time when some were dropped.
    peak: usize,
    room: u64,
    limits: Limits,
}

impl Model for Gathering {
    ghost use Rattle.std.specs.Prelude.{◌-◌, ◌≤◌, length, take};
    ghost use Rattle.pkread.specs.Private.Progress.{GatheringView};
    ghost use Rattle.pkread.specs.Rows.{all_bytes};

    ghost Value = { GatheringView };

    ghost view = { λ g. record {
      buffer = record { bytes = take g.held g.store.items; peak = g.peak };
      taken = all_bytes - g.room;
      limits = g.limits;
    } };

    ghost invariant = { λ g. g.held ≤ length g.store.items };
}

impl Gathering {
    /// The state before the first byte.
    pub(crate) fn new(alloc: Global, limits: &Limits) -> Gathering
        ensures { result ≡ record { buffer = none_held; taken = 0; limits = limits.now } }
    {
        Gathering {
            store: Vec::new(alloc),
            held: 0,
            peak: 0,
            room: u64::MAX,
            limits: *limits,
        }
    }

    pub(crate) fn taken(&self) -> u64
        ensures { result ≡ self.now.taken }
    {
        u64::MAX - self.room
    }

    /// How many bytes can still be taken.
    pub(crate) fn room(&self) -> u64
        ensures { self.now.taken + result ≡ all_bytes }
    {
        self.room
    }

    pub(crate) fn limits(&self) -> &Limits
        ensures { result.now ≡ self.now.limits }
    {
        &self.limits
    }

    /// The most bytes ever held.
    pub(crate) fn most(&self) -> usize
        ensures { result ≡ most_held self.now.buffer }
    {
        self.peak.max(self.held)
    }

    /// The bytes held.
    pub(crate) fn bytes(&self) -> &[u8]
        ensures { result.now ≡ self.now.buffer.bytes }
    {
        &self.store[..self.held]
    }

    /// The first byte held, if any.
    pub(crate) fn first(&self) -> Option<u8>
        ensures none { IfNone result (self.now.buffer.bytes ≡ []) }
        ensures some { IfSome result (λ byte.
            (rest : List ℕ) × (self.now.buffer.bytes ≡ byte ∷ rest)) }
    {
        if self.held == 0 {
            return None;
        }
        Some(self.store[0])
    }

    /// Drops all bytes and keeps their memory.
    pub(crate) fn clear(&mut self)
        ensures { self.new ≡ record self.old {
          buffer = record { bytes = []; peak = most_held self.old.buffer };
        } }
    {
        self.note_most();
        self.held = 0;
    }

    /// Keeps the first `count` bytes and drops the rest.
    pub(crate) fn cut(&mut self, count: usize)
        requires { count ≤ length self.old.buffer.bytes }
        ensures { self.new ≡ record self.old {
          buffer = record {
            bytes = take count self.old.buffer.bytes;
            peak = most_held self.old.buffer;
          };
        } }
    {
        self.note_most();
        self.held = count;
    }

    /// Updates the peak before bytes are dropped. The peak rarely rises, so the write is out of
    /// line.
    fn note_most(&mut self)
        ensures { self.new ≡ record self.old {
          buffer = record {
            bytes = self.old.buffer.bytes;
            peak = most_held self.old.buffer;
          };
        } }
    {
        if self.held > self.peak {
            self.note_most_slowly();
        }
    }

    fn note_most_slowly(&mut self)
        ensures { self.new ≡ record self.old {
          buffer = record {
            bytes = self.old.buffer.bytes;
            peak = length self.old.buffer.bytes;
          };
        } }
    {
        self.peak = self.held;
    }

    /// Counts bytes as taken: those of an instruction that is lent from where it lies, as if it
    /// were held, or the one that was read ahead.
    pub(crate) fn count_lent(&mut self, count: usize)
        requires { self.old.taken + count ≤ all_bytes }
        ensures { self.new ≡ record self.old { taken = self.old.taken + count } }
    {
        self.room -= count as u64;
    }

    /// Takes one byte. Refuses with `TooLarge` once 2^64 - 1 bytes were taken.
    pub(crate) fn take_byte<R: Source>(&mut self, source: &mut R) -> Result<u8, Reason>
        ensures keeps { KeepsRest self.old self.new }
        ensures takes { TakesByte result
            (intake R.left R.failures source.old self.old)
            (intake R.left R.failures source.new self.new) }
    {
        let room = self.room;
        if room == 0 {
            return Err(Reason::TooLarge);
        }
        let byte = self.read_byte(source)?;
        self.room = room - 1;
        Ok(byte)
    }

    /// Reads one byte and holds it, but does not count it as taken. It passes through an array of
    /// one, because the compiler turns a copy of known length to a known place into a move.
    pub(crate) fn read_byte<R: Source>(&mut self, source: &mut R) -> Result<u8, Reason>
        ensures keeps { KeepsRest self.old self.new }
        ensures taken { self.new.taken ≡ self.old.taken }
        ensures ok { IfOk result (λ byte. ReadsByte byte
            self.old.buffer.bytes (sight R.left R.failures source.old)
            self.new.buffer.bytes (sight R.left R.failures source.new)) }
        ensures same { IfErr result (λ _. self.new.buffer.bytes ≡ self.old.buffer.bytes) }
        ensures err { IfErr result (ReadsNone
            (sight R.left R.failures source.old) (sight R.left R.failures source.new)) }
    {
        let held = self.held;
        make_room(&mut self.store, held, 1)?;
        let mut one = [0];
        let count = source.pull(&mut one)?;
        if count == 0 {
            return Err(Reason::Truncated);
        }
        put(&mut self.store, held, one[0]);
        self.held = held + 1;
        Ok(one[0])
    }

    /// Makes one read of at most N bytes and holds them, as `read_byte` does.
    #[inline(always)]
    fn read_field<R: Source, const N: usize>(&mut self, source: &mut R) -> Result<usize, Reason>
        requires some { 0 < N }
        requires few { N ≤ 8 }
        ensures keeps { KeepsRest self.old self.new }
        ensures taken { self.new.taken ≡ self.old.taken }
        ensures ok { IfOk result (λ n. ReadsSome N n
            self.old.buffer.bytes (sight R.left R.failures source.old)
            self.new.buffer.bytes (sight R.left R.failures source.new)) }
        ensures same { IfErr result (λ _. self.new.buffer.bytes ≡ self.old.buffer.bytes) }
        ensures err { IfErr result (ReadsNone
            (sight R.left R.failures source.old) (sight R.left R.failures source.new)) }
    {
        let held = self.held;
        make_room(&mut self.store, held, N)?;
        let mut field = [0; N];
        let count = source.pull(&mut field)?;
        if count == 0 {
            return Err(Reason::Truncated);
        }
        put_field(&mut self.store, held, &field);
        self.held = held + count;
        Ok(count)
    }

    /// Makes one read of at most `wanted` bytes and holds them, as `read_byte` does.
    fn read<R: Source>(&mut self, source: &mut R, wanted: usize) -> Result<usize, Reason>
        requires some { 0 < wanted }
        requires few { wanted ≤ 4096 }
        ensures keeps { KeepsRest self.old self.new }
        ensures taken { self.new.taken ≡ self.old.taken }
        ensures ok { IfOk result (λ n. ReadsSome wanted n
            self.old.buffer.bytes (sight R.left R.failures source.old)
            self.new.buffer.bytes (sight R.left R.failures source.new)) }
        ensures same { IfErr result (λ _. self.new.buffer.bytes ≡ self.old.buffer.bytes) }
        ensures err { IfErr result (ReadsNone
            (sight R.left R.failures source.old) (sight R.left R.failures source.new)) }
    {
        let held = self.held;
        make_room(&mut self.store, held, wanted)?;
        let count = pull_into(source, &mut self.store, held, wanted)?;
        if count == 0 {
            return Err(Reason::Truncated);
        }
        self.held = held + count;
        Ok(count)
    }

    /// Makes one read of at most `left` bytes, and at most a block. Returns how many arrived.
    pub(crate) fn take_block<R: Source>(
        &mut self,
        source: &mut R,
        left: usize,
    ) -> Result<usize, Reason>
        requires { 0 < left }
        ensures keeps { KeepsRest self.old self.new }
        ensures takes { TakesBlock left result
            (intake R.left R.failures source.old self.old)
            (intake R.left R.failures source.new self.new) }
    {
        let room = self.room;
        if room == 0 {
            return Err(Reason::TooLarge);
        }
        let wanted = left.min(BLOCK).min(room as usize);
        let n = self.read(source, wanted)?;
        self.room = room - n as u64;
        Ok(n)
    }

    /// Passes over at most `left` bytes, as far as the source can. Returns how many.
    pub(crate) fn pass<R: Source>(&mut self, source: &mut R, left: usize) -> usize
        ensures buffer { self.new.buffer ≡ self.old.buffer }
        ensures limits { self.new.limits ≡ self.old.limits }
        ensures passed { PassedSome left result
            (intake R.left R.failures source.old self.old)
            (intake R.left R.failures source.new self.new) }
    {
        let passed = source.pass(left.min(self.room as usize));
        self.room -= passed as u64;
        passed
    }

    /// Takes a field of N bytes, usually in one read.
    #[inline(always)]
    pub(crate) fn take_field<R: Source, const N: usize>(
        &mut self,
        source: &mut R,
    ) -> Result<(), Reason>
        requires some { 0 < N }
        requires few { N ≤ 8 }
        ensures keeps { KeepsRest self.old self.new }
        ensures takes { TakesAll N result
            (intake R.left R.failures source.old self.old)
            (intake R.left R.failures source.new self.new) }
    {
        let room = self.room;
        if room < N as u64 {
            return self.take_rest(source, N);
        }
        let n = self.read_field::<R, N>(source)?;
        self.room = room - n as u64;
        if n == N {
            return Ok(());
        }
        self.take_rest(source, N - n)
    }

    /// Takes a payload of `count` bytes. A payload of at most a block usually arrives in one read.
    #[inline(always)]
    pub(crate) fn take_payload<R: Source>(
        &mut self,
        source: &mut R,
        count: usize,
    ) -> Result<(), Reason>
        ensures keeps { KeepsRest self.old self.new }
        ensures takes { TakesAll count result
            (intake R.left R.failures source.old self.old)
            (intake R.left R.failures source.new self.new) }
    {
        if count == 0 {
            return Ok(());
        }
        let n = self.take_block(source, count)?;
        if n == count {
            return Ok(());
        }
        self.take_rest(source, count - n)
    }

    /// Takes `count` bytes. Short reads and payloads above a block are rare, so the loop is out of
    /// line.
    fn take_rest<R: Source>(&mut self, source: &mut R, count: usize) -> Result<(), Reason>
        ensures keeps { KeepsRest self.old self.new }
        ensures takes { TakesAll count result
            (intake R.left R.failures source.old self.old)
            (intake R.left R.failures source.new self.new) }
    {
        self.take_rest_slowly(source, count)?;
        Ok(())
    }

    #[inline(never)]
    fn take_rest_slowly<R: Source>(&mut self, source: &mut R, count: usize) -> Result<(), Reason>
        ensures keeps { KeepsRest self.old self.new }
        ensures takes { TakesAll count result
            (intake R.left R.failures source.old self.old)
            (intake R.left R.failures source.new self.new) }
    {
        let mut left = count;
        'blocks: loop {
            if left == 0 {
                return Ok(());
            }
            left -= self.take_block(source, left)?;
        }
    }
}
