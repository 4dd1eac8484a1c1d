//! The table of texts. An import refers to them by number.
ghost use Rattle.std.specs.Prelude.{◌≡◌, [], ◌∷◌, ◌++◌, ◌<◌, ◌≤◌, ◌-◌, length, take, drop, get_or};
ghost use Rattle.std.specs.Prelude.{OnErr, OnOk, false, true};
ghost use Rattle.std.specs.Str.{IsUtf8};

use pkbase::{ByteVec, StackVec};
use std::alloc::{AllocError, Global};
use std::marker::Model;

/// The texts that a pickle makes, in order, one after the other in one buffer. Equal texts are not
/// shared.
#[derive(Debug, Drop)]
pub struct Texts {
    /// The texts in UTF-8.
    bytes: ByteVec,
    /// The offset at which each text ends.
    ends: StackVec<usize>,
}

impl Model for Texts {
    ghost use Rattle.std.specs.Prelude.{ℕ, List};
    ghost use Rattle.pkimport.specs.Private.Joined.{AreJoined, cut};

    ghost Value = { List (List ℕ) };

    ghost view = { λ t. cut 0 t.ends t.bytes };

    ghost invariant = { λ t. AreJoined (cut 0 t.ends t.bytes) t.ends t.bytes };
}

impl Texts {
    /// An empty table. Allocates nothing.
    pub fn new(alloc: Global) -> Texts
        ensures { result ≡ [] }
    {
        Texts {
            bytes: ByteVec::new(alloc),
            ends: StackVec::new(alloc, 0),
        }
    }

    /// Removes all texts, and keeps the memory.
    pub fn clear(&mut self)
        ensures { self.new ≡ [] }
    {
        self.bytes.clear();
        self.ends.clear();
    }

    /// The number of texts.
    pub fn len(&self) -> usize
        ensures { result ≡ length self.now }
    {
        self.ends.len()
    }

    /// The text with a number; empty past the last.
    pub fn get(&self, number: usize) -> &str
        ensures { result.now ≡ get_or self.now number [] }
    {
        if number >= self.ends.len() {
            return "";
        }
        let ends = self.ends.entries();
        let start = start_of(ends, number);
        let end = end_of(ends, number);
        // Only UTF-8 was appended, which the proof shows, so this doesn't validate it again.
        unsafe { str::from_utf8_unchecked(piece(self.bytes.bytes(), start, end)) }
    }

    /// Appends a text, given as UTF-8.
    #[inline(always)]
    pub fn push(&mut self, text: &[u8]) -> Result<(), AllocError>
        requires { IsUtf8 text.now }
        ensures ok { OnOk result (self.new ≡ self.old ++ text.now ∷ []) }
        ensures err { OnErr result (self.new ≡ self.old) }
    {
        let before = self.bytes.len();
        self.bytes.push(text)?;
        let Ok(()) = self.ends.push(self.bytes.len()) else {
            self.bytes.truncate(before);
            return Err(AllocError);
        };
        Ok(())
    }

    /// Appends a short text, given as UTF-8, if there is room for it, and says whether it is
    /// appended.
    #[inline(always)]
    pub fn push_within_capacity(&mut self, text: &[u8]) -> bool
        requires { IsUtf8 text.now }
        ensures pushed { result ≡ true → self.new ≡ self.old ++ text.now ∷ [] }
        ensures kept { result ≡ false → self.new ≡ self.old }
    {
        let before = self.bytes.len();
        if !self.bytes.push_within_capacity(text) {
            return false;
        }
        if !self.ends.push_within_capacity(self.bytes.len()) {
            self.bytes.truncate(before);
            return false;
        }
        true
    }

    /// Appends a copy of a text.
    pub fn put(&mut self, text: &str) -> Result<(), AllocError>
        ensures ok { OnOk result (self.new ≡ self.old ++ text.now ∷ []) }
        ensures err { OnErr result (self.new ≡ self.old) }
    {
        self.push(text.as_bytes())
    }
}

/// The offset at which a text begins.
fn start_of(ends: &[usize], number: usize) -> usize
    requires { number < length ends.now }
    ensures first { number ≡ 0 → result ≡ 0 }
    ensures next { 0 < number → result ≡ get_or ends.now (number - 1) result }
{
    if number == 0 { 0 } else { ends[number - 1] }
}

/// The offset at which a text ends.
fn end_of(ends: &[usize], number: usize) -> usize
    requires { number < length ends.now }
    ensures { result ≡ get_or ends.now number result }
{
    ends[number]
}

/// The bytes from `start` up to `end`.
fn piece(bytes: &[u8], start: usize, end: usize) -> &[u8]
    requires ordered { start ≤ end }
    requires within { end ≤ length bytes.now }
    ensures { result.now ≡ take (end - start) (drop start bytes.now) }
{
    &bytes[start..end]
}
