//! The bytes that were read ahead.

ghost use Rattle.std.specs.Prelude.{◌≡◌, ◌≤◌, ◌++◌, [], IfOk, IfErr, length, take};
ghost use Rattle.std.specs.Io.KnownBytes.{Consumes, IsAtEnd};
ghost use Rattle.pkread.specs.Pull.{AreAllBytes};

use std::alloc::{AllocError, Global};
use std::io;
use std::io::Read;
use std::marker::Model;

/// How many bytes are requested from a reader at a time.
pub const SIZE: usize = 65_536;

/// The bytes that were read ahead.
#[derive(Drop)]
pub struct Block {
    bytes: Vec<u8>,
    start: usize,
    end: usize,
}

impl Model for Block {
    ghost use Rattle.std.specs.Prelude.{◌≤◌, ◌<◌, ℕ, List, length, slice_range};

    ghost Value = { List ℕ };

    ghost view = { λ b. slice_range b.bytes.items b.start b.end };

    ghost invariant = { λ b. (b.start ≤ b.end)
        × (b.end ≤ length b.bytes.items)
        × (0 < length b.bytes.items) };
}

/// How many bytes these are. The numbers in a slice are known to be bytes where it is passed.
fn count_of(bytes: &[u8]) -> usize
    ensures count { result ≡ length bytes.now }
    ensures fit { AreAllBytes bytes.now }
{
    bytes.len()
}

impl Block {
    /// An empty block.
    pub fn new(alloc: Global) -> Result<Block, AllocError>
        ensures { IfOk result (λ b. b ≡ []) }
    {
        let mut bytes = Vec::with_capacity(alloc, SIZE)?;
        bytes.resize(SIZE, 0)?;
        Ok(Block {
            bytes,
            start: 0,
            end: 0,
        })
    }

    /// How many bytes are left.
    pub fn len(&self) -> usize
        ensures { result ≡ length self.now }
    {
        self.end - self.start
    }

    /// The bytes that are left.
    pub fn bytes(&self) -> &[u8]
        ensures { result.now ≡ self.now }
    {
        &self.bytes[self.start..self.end]
    }

    /// Drops the first `count` bytes.
    pub fn skip(&mut self, count: usize)
        requires { count ≤ length self.old }
        ensures { self.old ≡ take count self.old ++ self.new }
    {
        self.start += count;
    }

    /// Drops all bytes, and returns their number.
    pub fn clear(&mut self) -> usize
        ensures none { self.new ≡ [] }
        ensures count { result ≡ length self.old }
        ensures fit { AreAllBytes self.old }
    {
        let count = count_of(self.bytes());
        self.start = self.end;
        count
    }

    /// Moves the first bytes out of the block.
    pub fn fill(&mut self, to: &mut [u8])
        requires { length to.old ≤ length self.old }
        ensures bytes { self.old ≡ to.new ++ self.new }
        ensures length { length to.new ≡ length to.old }
    {
        let (start, end) = (self.start, self.start + to.len());
        to.copy_from_slice(&self.bytes[start..end]);
        self.start = end;
    }

    /// Reads once into the block, which must be empty.
    pub fn read<R: Read>(&mut self, reader: &mut R) -> io::Result<()>
        requires { self.old ≡ [] }
        ensures bytes { IfOk result (λ _.
            Consumes (R.remaining reader.old) (R.remaining reader.new) self.new) }
        ensures end { IfOk result (λ _. self.new ≡ [] → IsAtEnd (R.remaining reader.new)) }
        ensures none { IfErr result (λ _. self.new ≡ []) }
    {
        self.start = 0;
        self.end = 0;
        self.end = reader.read(&mut self.bytes)?;
        Ok(())
    }
}
