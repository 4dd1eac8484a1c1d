//! The slim form, as it is made in memory.

ghost use Rattle.std.specs.Prelude.{◌≡◌, ◌≤◌, ◌+◌, ◌++◌, ◌∷◌, ℕ, [], IfOk, OnOk, drop, length};
ghost use Rattle.std.specs.Prelude.{take};
ghost use Rattle.pkopt.specs.Private.Sinks.{appended_more, appended_none};

use crate::sink::Sink;
use std::alloc::{AllocError, Global};
use std::marker::Model;

/// How many bytes are copied in one move, for a piece of at most so many.
const MOVE: usize = 16;

/// The least number of bytes by which a store is lengthened. They are zeroed shortly before they
/// are replaced.
const STEP: usize = 2_048;

/// The bytes of a slim form. The store is longer, so that a short piece is copied in one move
/// together with the bytes after it, which the next piece replaces.
#[derive(Drop)]
pub(crate) struct Made {
    store: Vec<u8>,
    /// The number of bytes in use.
    len: usize,
}

impl Model for Made {
    ghost use Rattle.std.specs.Prelude.{◌≤◌, ℕ, List, length, take};

    ghost Value = { List ℕ };

    ghost view = { λ m. take m.len m.store.items };

    ghost invariant = { λ m. m.len ≤ length m.store.items };
}

impl Made {
    /// Before the first byte, with memory for so many.
    pub(crate) fn with_room(alloc: Global, room: usize) -> Result<Made, AllocError>
        ensures { IfOk result (λ made. made ≡ []) }
    {
        Ok(Made {
            store: Vec::with_capacity(alloc, room.saturating_add(STEP))?,
            len: 0,
        })
    }

    /// The bytes.
    pub(crate) fn bytes(&self) -> &[u8]
        ensures { result.now ≡ self.now }
    {
        &self.store[..self.len]
    }

    /// Takes a piece that isn't copied in one move.
    fn take_slowly(&mut self, piece: &[u8]) -> Result<(), AllocError>
        ensures { OnOk result (self.new ≡ self.old ++ piece.now) }
    {
        self.take(piece)
    }

    /// Takes a piece that isn't copied in one move, and two more bytes.
    fn take_two_slowly(&mut self, piece: &[u8], first: u8, second: u8) -> Result<(), AllocError>
        ensures { OnOk result (self.new ≡ self.old ++ (piece.now ++ first ∷ second ∷ [])) }
    {
        self.take(piece)?;
        self.take(&[first, second])
    }
}

/// Writes a piece to the store at `at`.
#[inline(always)]
fn put(store: &mut Vec<u8>, at: usize, piece: &[u8])
    requires { at + length piece.now ≤ length store.old.items }
    ensures front { take (at + length piece.now) store.new.items
        ≡ take at store.old.items ++ piece.now }
    ensures length { length store.new.items ≡ length store.old.items }
{
    store[at..at + piece.len()].copy_from_slice(piece);
}

/// Writes sixteen bytes to the store at `at`: those at `from`. They pass through a local array,
/// because the compiler turns a copy of known length to a known place into a move.
#[inline(always)]
fn put_move(store: &mut Vec<u8>, at: usize, bytes: &[u8], from: usize)
    requires room { at + 16 ≤ length store.old.items }
    requires there { from + 16 ≤ length bytes.now }
    ensures front { (n : ℕ) → n ≤ 16 → take (at + n) store.new.items
        ≡ take at store.old.items ++ take n (drop from bytes.now) }
    ensures length { length store.new.items ≡ length store.old.items }
{
    let mut moved = [0; MOVE];
    moved.copy_from_slice(&bytes[from..from + MOVE]);
    put(store, at, &moved);
}

/// Makes room for `wanted` bytes after the first `from`.
#[inline(always)]
fn make_room(store: &mut Vec<u8>, from: usize, wanted: usize) -> Result<(), AllocError>
    requires { from ≤ length store.old.items }
    ensures ok { OnOk result (from + wanted ≤ length store.new.items) }
    ensures same { take from store.new.items ≡ take from store.old.items }
    ensures more { from ≤ length store.new.items }
{
    if store.len() - from < wanted {
        return lengthen(store, from, wanted);
    }
    Ok(())
}

/// Lengthens the store by so many bytes, or a few more.
#[inline(never)]
fn lengthen(store: &mut Vec<u8>, from: usize, wanted: usize) -> Result<(), AllocError>
    requires { from ≤ length store.old.items }
    ensures ok { OnOk result (from + wanted ≤ length store.new.items) }
    ensures same { take from store.new.items ≡ take from store.old.items }
    ensures more { from ≤ length store.new.items }
{
    let Some(len) = store.len().checked_add(wanted.max(STEP)) else {
        return Err(AllocError);
    };
    store.resize(len, 0)
}

impl Sink for Made {
    type Error = AllocError;

    ghost takes = { λ x y bytes. y ≡ x ++ bytes };

    #[inline(always)]
    fn take(&mut self, piece: &[u8]) -> Result<(), AllocError> {
        let len = self.len;
        make_room(&mut self.store, len, piece.len())?;
        put(&mut self.store, len, piece);
        self.len = len + piece.len();
        Ok(())
    }

    #[inline(always)]
    fn take_between(&mut self, bytes: &[u8], from: usize, here: usize) -> Result<(), AllocError> {
        let len = self.len;
        let count = here - from;
        if count > MOVE || from + MOVE > bytes.len() || len + MOVE > self.store.len() {
            return self.take_slowly(&bytes[from..here]);
        }
        put_move(&mut self.store, len, bytes, from);
        self.len = len + count;
        Ok(())
    }

    #[inline(always)]
    fn take_with_two(
        &mut self,
        bytes: &[u8],
        from: usize,
        here: usize,
        first: u8,
        second: u8,
    ) -> Result<(), AllocError> {
        let len = self.len;
        let count = here - from;
        if count > MOVE || from + MOVE > bytes.len() || len + MOVE + 2 > self.store.len() {
            return self.take_two_slowly(&bytes[from..here], first, second);
        }
        put_move(&mut self.store, len, bytes, from);
        put(&mut self.store, len + count, &[first, second]);
        self.len = len + count + 2;
        Ok(())
    }

    ghost takes_none = { λ x. appended_none x };

    ghost takes_more = { λ x y z a b f g. appended_more x y z a b f g };
}
