//! New numbers for the memo writes that stay.

ghost use Rattle.std.specs.Prelude.{◌≡◌, ◌<◌, ◌≤◌, IfOk, List, OnOk, Option, false, length, min};
ghost use Rattle.std.specs.Prelude.{slice_index_or, suc, ℕ};
ghost use Rattle.pkopt.specs.Private.Passes.{AreKept, AreNumbers};

use crate::entry::Entry;
use crate::sources::Sources;
use std::alloc::{AllocError, Global};

/// Lengthens a list up to this write.
fn reach_slowly(kept: &mut Vec<bool>, write: usize) -> Result<(), AllocError>
    ensures there { OnOk result (write < length kept.new.items) }
    ensures same { (w : ℕ) → slice_index_or kept.new.items w false
        ≡ slice_index_or kept.old.items w false }
{
    'unread: while kept.len() <= write {
        kept.push(false)?;
    }
    Ok(())
}

/// Makes sure that a list has this write.
#[inline(always)]
pub(crate) fn reach(kept: &mut Vec<bool>, write: usize) -> Result<(), AllocError>
    ensures there { OnOk result (write < length kept.new.items) }
    ensures same { (w : ℕ) → slice_index_or kept.new.items w false
        ≡ slice_index_or kept.old.items w false }
{
    if write < kept.len() {
        return Ok(());
    }
    reach_slowly(kept, write)
}

/// The number after this one, at most the limit.
fn number_after(next: u32, limit: u32) -> u32
    requires { next ≤ limit }
    ensures { result ≡ min (suc next) limit }
{
    if next < limit { next + 1 } else { next }
}

/// Numbers the writes that stay. Once the numbers reach the limit, all further writes get the
/// limit.
fn numbered(alloc: Global, kept: &[bool], limit: u32) -> Result<Vec<Entry>, AllocError>
    ensures { IfOk result (λ numbers. (vs : List (Option ℕ)) →
        AreKept vs kept.now → AreNumbers vs limit numbers.items) }
{
    let none = Entry::new(None)?;
    let mut numbers = vec![in alloc; none; kept.len()]?;
    let mut next: u32 = 0;
    for write in 0..kept.len() {
        if !kept[write] {
            continue;
        }
        numbers[write] = Entry::new(Some(next))?;
        next = number_after(next, limit);
    }
    Ok(numbers)
}

/// For each write that some read reads, its new number, or the limit if the number is greater. The
/// writes past the end of the list are not read.
pub(crate) fn new_numbers(
    alloc: Global,
    sources: &Sources,
    limit: u32,
) -> Result<Vec<Entry>, AllocError>
    ensures { IfOk result (λ numbers. AreNumbers sources.now.items limit numbers.items) }
{
    let kept = sources.kept_writes(alloc)?;
    numbered(alloc, &kept, limit)
}
