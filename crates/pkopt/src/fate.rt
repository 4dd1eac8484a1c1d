//! What happens to each instruction in the slim form.

ghost use Rattle.std.specs.Prelude.{◌≡◌, None, slice_index_or};
ghost use Rattle.pkopt.specs.Private.Fates.{fetched_fate, kept_fate};
ghost use Rattle.pkopt.specs.Private.Fates.{next_fate, passed_fate, stored_fate};

use crate::entry::Entry;
use crate::sources::Sources;
use pkops::Op;

/// What happens to an instruction.
#[derive(Clone, Copy)]
pub(crate) enum Fate {
    /// It is dropped.
    Goes,
    /// It stays as it is.
    Stays,
    /// It stays, with this memo number.
    Gets(u32),
    /// It is a write that is read, and its number would be the limit.
    IsPast,
}

/// What is known about the memo instructions of a pickle.
pub(crate) struct Plan {
    /// For each read, the write that it reads.
    pub sources: Sources,
    /// For each write that is read, its new number. Those past the end of the list are not read.
    pub numbers: Vec<Entry>,
    /// The limit on the memo: no write may have it as its number.
    pub limit: u32,
}

impl Drop for Plan {
    fn drop(self) {
        let Plan {
            sources: _sources,
            numbers: _numbers,
            limit: _limit,
        } = self;
    }
}

/// The new number of a write, if it stays.
#[inline(always)]
pub(crate) fn number_of(numbers: &[Entry], write: usize) -> Option<u32>
    ensures { result ≡ slice_index_or numbers.now write None }
{
    if write < numbers.len() {
        numbers[write].number()
    } else {
        None
    }
}

/// The fate of a write under a number that the instruction names.
#[inline(always)]
pub(crate) fn stored_fate(number: Option<u32>, limit: u32) -> Fate
    ensures { result ≡ stored_fate limit number }
{
    match number {
        Some(number) => {
            if number == limit {
                Fate::IsPast
            } else {
                Fate::Gets(number)
            }
        }
        None => Fate::Goes,
    }
}

/// The fate of a write under the number of memo entries.
#[inline(always)]
pub(crate) fn next_fate(number: Option<u32>, limit: u32) -> Fate
    ensures { result ≡ next_fate limit number }
{
    match number {
        Some(number) => {
            if number == limit {
                Fate::IsPast
            } else {
                Fate::Stays
            }
        }
        None => Fate::Goes,
    }
}

/// The fate of a read of a write with this new number.
#[inline(always)]
fn kept_fate(number: Option<u32>) -> Fate
    ensures { result ≡ kept_fate number }
{
    match number {
        Some(number) => Fate::Gets(number),
        None => Fate::Goes,
    }
}

/// The fate of a read.
#[inline(always)]
pub(crate) fn fetched_fate(numbers: &[Entry], source: Option<u32>) -> Fate
    ensures { result ≡ fetched_fate numbers.now source }
{
    match source {
        Some(write) => kept_fate(number_of(numbers, write as usize)),
        None => Fate::Stays,
    }
}

/// The fate of an instruction that does not use the memo.
#[inline(always)]
pub(crate) fn passed_fate(op: Op) -> Fate
    ensures { result ≡ passed_fate op }
{
    match op {
        Op::Frame => Fate::Goes,
        _ => Fate::Stays,
    }
}
