//! A reader as a source of bytes, read in blocks.

ghost use Rattle.std.specs.Prelude.{◌≡◌, IfOk, length};
ghost use Rattle.pkread.specs.Pull.{Counted, Pulled};
ghost use Rattle.pktool.specs.Blocks.{failed_reads, unpulled};

use crate::block::{Block, SIZE};
use crate::passing::PassOver;
use pkread::{ReadFailed, Source};
use std::alloc::{AllocError, Global};
use std::io::Read;

/// A source over a reader, which it reads one block at a time. A pull of a few bytes is usually a
/// copy out of the block, and is inlined into its caller.
#[derive(Drop)]
pub struct Blocks<R> {
    reader: R,
    block: Block,
    failures: u64,
}

impl<R: Read + Drop> Blocks<R> {
    /// A source over a reader. Nothing has been read yet.
    pub fn new(alloc: Global, reader: R) -> Result<Blocks<R>, AllocError>
        ensures left { IfOk result (λ b. unpulled R.remaining b ≡ R.remaining reader) }
        ensures failures { IfOk result (λ b. failed_reads b ≡ 0) }
    {
        Ok(Blocks {
            reader,
            block: Block::new(alloc)?,
            failures: 0,
        })
    }
}

impl<R: Read> Blocks<R> {
    /// Pulls bytes from the block, reading the next one if it is empty.
    #[inline(never)]
    fn pull_some(&mut self, to: &mut [u8]) -> Result<usize, ReadFailed>
        ensures bytes { Pulled
            (unpulled R.remaining self.old) (unpulled R.remaining self.new) result to.new }
        ensures count { Counted (failed_reads self.old) (failed_reads self.new) result }
    {
        if self.block.len() == 0 {
            let Ok(()) = self.block.read(&mut self.reader) else {
                self.failures = self.failures.wrapping_add(1);
                return Err(ReadFailed);
            };
        }
        let count = to.len().min(self.block.len());
        self.block.fill(&mut to[..count]);
        Ok(count)
    }
}

impl<R: PassOver> Source for Blocks<R> {
    ghost left = { unpulled R.remaining };

    ghost failures = { failed_reads };

    ghost at_hand = { λ b. length b.block };

    #[inline(always)]
    fn pull(&mut self, to: &mut [u8]) -> Result<usize, ReadFailed> {
        if to.len() <= self.block.len() {
            self.block.fill(to);
            return Ok(to.len());
        }
        // Unwrapped and wrapped again: otherwise LLVM merges both answers and tests the result
        // twice.
        Ok(self.pull_some(to)?)
    }

    fn ahead(&self) -> &[u8] {
        self.block.bytes()
    }

    fn advance(&mut self, count: usize) {
        self.block.skip(count);
    }

    /// Passes over what is in the block too. Less than a block after it is cheaper to read.
    fn pass(&mut self, wanted: usize) -> usize {
        let held = self.block.len();
        if wanted.saturating_sub(held) < SIZE {
            return 0;
        }
        let behind = self.reader.pass_over(wanted - held);
        self.block.clear() + behind
    }
}
