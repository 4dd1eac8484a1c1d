//! For each memo read of a pickle, the write that it reads.

ghost use Rattle.std.specs.Prelude.{◌≡◌, ◌++◌, ◌∷◌, [], IfOk, None, OnOk, Some, slice_index_or};
ghost use Rattle.pkopt.specs.Private.Passes.{AreKept, KeepsMore};
ghost use Rattle.pkopt.specs.Private.Sourced.{in_bytes};

use crate::entry::Entry;
use crate::numbers::reach;
use std::alloc::{AllocError, Global};
use std::marker::Model;

/// For each read, in order, the write that it reads. Most long pickles read early writes alone, so
/// the first sources take a byte each.
#[derive(Drop)]
pub(crate) struct Sources {
    /// Those before the first that doesn't fit into a byte.
    early: Vec<u8>,
    /// The others.
    late: Vec<Entry>,
}

impl Model for Sources {
    ghost use Rattle.std.specs.Prelude.{◌++◌};
    ghost use Rattle.pkopt.specs.Private.Sourced.{Sourced, in_bytes};

    ghost Value = { Sourced };

    ghost view = { λ s. record { items = in_bytes s.early.items ++ s.late.items } };
}

impl Sources {
    /// Before the first read. Allocates nothing.
    pub(crate) fn new(alloc: Global) -> Sources
        ensures { result.items ≡ [] }
    {
        Sources {
            early: Vec::new(alloc),
            late: Vec::new(alloc),
        }
    }

    /// Adds the source of the next read.
    #[inline(always)]
    pub(crate) fn push(&mut self, source: Option<u32>) -> Result<(), AllocError>
        ensures { OnOk result (self.new.items ≡ self.old.items ++ source ∷ []) }
    {
        if let Some(write) = source
            && write < 256
        {
            return push_to(&mut self.early, &mut self.late, write as u8);
        }
        push_late(&mut self.late, source)
    }

    /// The write that a read reads, if there is one.
    #[inline(always)]
    pub(crate) fn get(&self, read: usize) -> Option<u32>
        ensures { result ≡ slice_index_or self.now.items read None }
    {
        if read < self.early.len() {
            return Some(u32::from(self.early[read]));
        }
        late_at(&self.late, read - self.early.len())
    }

    /// For each write up to the last one that some read reads, whether one does. In most long
    /// pickles only early writes are read, so the list is short.
    pub(crate) fn kept_writes(&self, alloc: Global) -> Result<Vec<bool>, AllocError>
        ensures { IfOk result (λ kept. AreKept self.now.items kept.items) }
    {
        let mut kept = Vec::new(alloc);
        keep_early(&mut kept, &self.early)?;
        keep_late(&mut kept, &self.late)?;
        Ok(kept)
    }
}

/// Adds a write to those that fit into a byte, or to the others.
#[inline(always)]
fn push_to(early: &mut Vec<u8>, late: &mut Vec<Entry>, write: u8) -> Result<(), AllocError>
    ensures { OnOk result (in_bytes early.new.items ++ late.new.items
        ≡ (in_bytes early.old.items ++ late.old.items) ++ Some write ∷ []) }
{
    if !late.is_empty() {
        return push_late(late, Some(u32::from(write)));
    }
    early.push(write)?;
    Ok(())
}

/// Adds a source that doesn't fit into a byte, or that comes later.
#[inline(never)]
fn push_late(late: &mut Vec<Entry>, source: Option<u32>) -> Result<(), AllocError>
    ensures { OnOk result (late.new.items ≡ late.old.items ++ source ∷ []) }
{
    let source = Entry::new(source)?;
    late.push(source)?;
    Ok(())
}

/// The write at a place in the list, if there is one.
#[inline(always)]
fn late_at(late: &[Entry], place: usize) -> Option<u32>
    ensures { result ≡ slice_index_or late.now place None }
{
    if place < late.len() {
        late[place].number()
    } else {
        None
    }
}

/// Marks these writes as read.
fn keep_early(kept: &mut Vec<bool>, early: &[u8]) -> Result<(), AllocError>
    ensures { OnOk result (KeepsMore kept.old.items kept.new.items (in_bytes early.now)) }
{
    if early.is_empty() {
        return Ok(());
    }
    reach(kept, usize::from(u8::MAX))?;
    for write in early {
        kept[usize::from(*write)] = true;
    }
    Ok(())
}

/// Marks these writes as read, where there are any.
fn keep_late(kept: &mut Vec<bool>, late: &[Entry]) -> Result<(), AllocError>
    ensures { OnOk result (KeepsMore kept.old.items kept.new.items late.now) }
{
    for source in late {
        if let Some(write) = source.number() {
            reach(kept, write as usize)?;
            kept[write as usize] = true;
        }
    }
    Ok(())
}
