//! Sources for tests: bytes in pieces, a long run of one byte, and a source that checks requests.

use pkread::{ReadFailed, Source};

/// Bytes in memory. A pull returns at most `most` of them.
#[derive(Drop)]
pub struct Pieces<'a> {
    rest: &'a [u8],
    most: usize,
}

impl<'a> Pieces<'a> {
    pub fn new(bytes: &'a [u8], most: usize) -> Pieces<'a> {
        Pieces { rest: bytes, most }
    }
}

impl Source for Pieces<'_> {
    ghost failures = { λ _. 0 };

    fn pull(&mut self, to: &mut [u8]) -> Result<usize, ReadFailed> {
        let count = to.len().min(self.most).min(self.rest.len());
        to[..count].copy_from_slice(&self.rest[..count]);
        self.rest = &self.rest[count..];
        Ok(count)
    }
}

/// A head, one byte repeated, and a tail.
#[derive(Drop)]
pub struct Filled<'a> {
    head: &'a [u8],
    byte: u8,
    filling: usize,
    tail: &'a [u8],
}

impl<'a> Filled<'a> {
    pub fn new(head: &'a [u8], byte: u8, filling: usize, tail: &'a [u8]) -> Filled<'a> {
        Filled {
            head,
            byte,
            filling,
            tail,
        }
    }
}

impl Source for Filled<'_> {
    ghost failures = { λ _. 0 };

    fn pull(&mut self, to: &mut [u8]) -> Result<usize, ReadFailed> {
        if self.head.is_empty() && self.filling > 0 {
            let count = to.len().min(self.filling);
            to[..count].fill(self.byte);
            self.filling -= count;
            return Ok(count);
        }
        if self.head.is_empty() {
            self.head = self.tail;
            self.tail = &[];
        }
        let count = to.len().min(self.head.len());
        to[..count].copy_from_slice(&self.head[..count]);
        self.head = &self.head[count..];
        Ok(count)
    }

    /// Passes over the repeated byte alone.
    fn pass(&mut self, wanted: usize) -> usize {
        if !self.head.is_empty() {
            return 0;
        }
        let count = wanted.min(self.filling);
        self.filling -= count;
        count
    }
}

/// A source that compares the requests with the expected ones, and passes over nothing.
#[derive(Drop)]
pub struct Watched<'a, R> {
    source: R,
    wanted: &'a [usize],
    other: bool,
}

impl<'a, R: Source> Watched<'a, R> {
    pub fn new(source: R, wanted: &'a [usize]) -> Watched<'a, R> {
        Watched {
            source,
            wanted,
            other: false,
        }
    }

    /// Whether the requests were exactly the expected ones.
    pub fn saw_them(&self) -> bool {
        self.wanted.is_empty() && !self.other
    }
}

impl<R: Source> Source for Watched<'_, R> {
    ghost left = { λ w. R.left w.source };

    ghost failures = { λ w. R.failures w.source };

    fn pull(&mut self, to: &mut [u8]) -> Result<usize, ReadFailed> {
        match self.wanted.split_first() {
            Some((first, rest)) if *first == to.len() => self.wanted = rest,
            _ => self.other = true,
        }
        self.source.pull(to)
    }
}
