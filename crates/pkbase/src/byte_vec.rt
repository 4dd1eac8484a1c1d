//! Bytes that grow at their end.

ghost use Rattle.std.specs.Prelude.{◌≡◌, ◌≤◌, ◌<◌, ◌+◌, ◌++◌, ◌^◌, [], OnErr, OnOk, false, length};
ghost use Rattle.std.specs.Prelude.{take, true};

use std::alloc::{AllocError, Global};
use std::marker::Model;

/// The least number of unused bytes at the end of a store that was just lengthened. They are zeroed
/// before they are replaced.
const STEP: usize = 512;

/// How many more it has at most, where many are in use.
const MORE: usize = 1_024;

/// The length up to which a piece is copied without a call.
const SHORT: usize = 64;

/// Bytes that grow and shrink at their end. The store never shrinks, and is longer than the bytes
/// in use, so that a short piece is copied without a call.
///
/// ```rust
/// use pkbase::ByteVec;
///
/// let mut bytes = ByteVec::new(alloc);
/// bytes.push(b"pickle")?;
/// bytes.truncate(4);
/// assert_eq!(rt; bytes.bytes(), b"pick".as_slice());
/// ```
#[derive(Debug, Drop)]
pub struct ByteVec {
    store: Vec<u8>,
    /// The number of bytes in use.
    count: usize,
}

impl Model for ByteVec {
    ghost use Rattle.std.specs.Prelude.{◌≤◌, ℕ, List, length, take};

    ghost Value = { List ℕ };

    ghost view = { λ b. take b.count b.store.items };

    ghost invariant = { λ b. b.count ≤ length b.store.items };
}

impl ByteVec {
    /// No bytes. Allocates nothing.
    pub fn new(alloc: Global) -> ByteVec
        ensures { result ≡ [] }
    {
        ByteVec {
            store: Vec::new(alloc),
            count: 0,
        }
    }

    /// The number of bytes.
    #[inline]
    pub fn len(&self) -> usize
        ensures value { result ≡ length self.now }
        ensures small { result < 2 ^ 63 }
    {
        self.count
    }

    /// The bytes.
    #[inline]
    pub fn bytes(&self) -> &[u8]
        ensures { result.now ≡ self.now }
    {
        &self.store[..self.count]
    }

    /// Removes all bytes, and keeps the memory.
    #[inline]
    pub fn clear(&mut self)
        ensures { self.new ≡ [] }
    {
        self.count = 0;
    }

    /// Keeps the first `count` bytes.
    #[inline]
    pub fn truncate(&mut self, count: usize)
        ensures { self.new ≡ take count self.old }
    {
        if count < self.count {
            self.count = count;
        }
    }

    /// Appends a piece.
    ///
    /// # Errors
    ///
    /// An allocation was refused. The bytes are then as they were.
    #[inline(always)]
    pub fn push(&mut self, piece: &[u8]) -> Result<(), AllocError>
        ensures ok { OnOk result (self.new ≡ self.old ++ piece.now) }
        ensures err { OnErr result (self.new ≡ self.old) }
    {
        let count = self.count;
        let end = count + piece.len();
        if end > self.store.len() {
            return self.push_beyond(piece);
        }
        put(&mut self.store[count..end], piece);
        self.count = end;
        Ok(())
    }

    /// Appends a piece of at most `SHORT` bytes if the store has room for it, and says whether it
    /// is appended. It calls nothing, so no register is saved for a call.
    #[inline(always)]
    pub fn push_within_capacity(&mut self, piece: &[u8]) -> bool
        ensures pushed { result ≡ true → self.new ≡ self.old ++ piece.now }
        ensures kept { result ≡ false → self.new ≡ self.old }
    {
        let start = self.count;
        let end = start + piece.len();
        if piece.len() > SHORT || end > self.store.len() {
            return false;
        }
        put(&mut self.store[start..end], piece);
        self.count = end;
        true
    }

    /// `push` of a piece for which the store is too short. A long one is not zeroed first.
    #[cold]
    #[inline(never)]
    fn push_beyond(&mut self, piece: &[u8]) -> Result<(), AllocError>
        ensures ok { OnOk result (self.new ≡ self.old ++ piece.now) }
        ensures err { OnErr result (self.new ≡ self.old) }
    {
        let spare = STEP + self.count.min(MORE);
        self.store.truncate(self.count);
        self.store.reserve(piece.len() + spare)?;
        self.store.extend_from_slice(piece)?;
        let end = self.store.len();
        self.store.resize(end + spare, 0)?;
        self.count = end;
        Ok(())
    }
}

/// Copies a piece to as many bytes. The compiler turns a copy of known length into a move, so a
/// short piece is copied as two of known length, which may overlap.
#[inline(always)]
fn put(to: &mut [u8], piece: &[u8])
    requires { length to.old ≡ length piece.now }
    ensures { to.new ≡ piece.now }
{
    let size = piece.len();
    if size > SHORT {
        return put_slowly(to, piece);
    }
    if size >= 32 {
        return put_ends::<32>(to, piece);
    }
    if size >= 16 {
        return put_ends::<16>(to, piece);
    }
    if size >= 8 {
        return put_ends::<8>(to, piece);
    }
    if size >= 4 {
        return put_ends::<4>(to, piece);
    }
    if size >= 2 {
        return put_ends::<2>(to, piece);
    }
    if size == 1 {
        to[0] = piece[0];
    }
}

/// `put` out of line.
#[inline(never)]
fn put_slowly(to: &mut [u8], piece: &[u8])
    requires { length to.old ≡ length piece.now }
    ensures { to.new ≡ piece.now }
{
    to.copy_from_slice(piece);
}

/// Copies a piece to as many bytes, where its first `N` bytes and its last `N` are all.
#[inline(always)]
fn put_ends<const N: usize>(to: &mut [u8], piece: &[u8])
    requires same { length to.old ≡ length piece.now }
    requires within { N ≤ length piece.now }
    requires all { length piece.now ≤ N + N }
    ensures { to.new ≡ piece.now }
{
    let last = piece.len() - N;
    let mut front = [0; N];
    front.copy_from_slice(&piece[..N]);
    let mut back = [0; N];
    back.copy_from_slice(&piece[last..]);
    to[..N].copy_from_slice(&front);
    to[last..].copy_from_slice(&back);
}
