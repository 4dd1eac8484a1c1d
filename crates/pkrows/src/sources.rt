//! The same pickle from sources that return it in pieces, fail, end early, or have more after it.

use crate::judging::{Verdict, judge};
use pkcheck::{Allow, Policy};
use pkops::Limits;
use pkread::{Input, Memory, ReadFailed, Reason, Source};
use std::io;
use std::io::Read;
use std::test::Fail;

const LIST: &str = "version = 1\n[imports]\na = [\"b\"]\n";

// Requests one import, and has nine bytes.
const PICKLE: &[u8] = b"\x8c\x01a\x94\x8c\x01b\x93.";

// Returns bytes in pieces. A set bit of `cuts` ends a piece after that byte. One read fails after
// `fails_after` bytes; later reads succeed.
#[derive(Drop)]
struct Pieces<'a> {
    rest: &'a [u8],
    given: u32,
    cuts: u32,
    fails_after: Option<u32>,
}

impl<'a> Pieces<'a> {
    fn new(bytes: &'a [u8], cuts: u32, fails_after: Option<u32>) -> Pieces<'a> {
        Pieces {
            rest: bytes,
            given: 0,
            cuts,
            fails_after,
        }
    }
}

impl Read for Pieces<'_> {
    fn read(&mut self, to: &mut [u8]) -> io::Result<usize> {
        if self.fails_after == Some(self.given) {
            self.fails_after = None;
            return Err(io::Error::from(io::ErrorKind::TimedOut));
        }
        let piece = (self.cuts >> (self.given & 31)).trailing_zeros() as usize + 1;
        let count = piece.min(to.len()).min(self.rest.len());
        to[..count].copy_from_slice(&self.rest[..count]);
        self.rest = &self.rest[count..];
        self.given = self.given.wrapping_add(count as u32);
        Ok(count)
    }
}

fn judge_from<R: Source>(rt: &HostRuntime, source: &mut R) -> Result<Verdict, Fail> {
    let allow = Allow::from_toml(rt.alloc(), LIST)?;
    Ok(judge(rt, &Policy::Listed(&allow), &Limits::STANDARD, source))
}

#[test]
fn every_cutting_gives_one_answer(rt: HostRuntime) -> Result<(), Fail> {
    for cuts in 0..256u32 {
        let mut source = Input::new(Pieces::new(PICKLE, cuts, None));
        assert_eq!(rt; judge_from(&rt, &mut source)?, Verdict::Yes(9, 1), "{cuts}");
    }
    Ok(())
}

// For each length of a prefix, the offset of the first incomplete instruction.
const STARTS: [u64; 9] = [0, 0, 0, 3, 4, 4, 4, 7, 8];

#[test]
fn a_read_that_fails_and_an_early_end(rt: HostRuntime) -> Result<(), Fail> {
    for (given, start) in STARTS.iter().enumerate() {
        let mut failing = Input::new(Pieces::new(PICKLE, u32::MAX, Some(given as u32)));
        assert_eq!(rt;
            judge_from(&rt, &mut failing)?,
            Verdict::No(*start, Reason::Source),
            "{given}"
        );
        let front = PICKLE.get(..given).ok_or("a front")?;
        let mut ending = Memory::new(front);
        assert_eq!(rt;
            judge_from(&rt, &mut ending)?,
            Verdict::No(*start, Reason::Truncated),
            "{given}"
        );
    }
    let mut failing = Input::new(Pieces::new(PICKLE, u32::MAX, Some(9)));
    assert_eq!(rt; judge_from(&rt, &mut failing)?, Verdict::Yes(9, 1));
    Ok(())
}

// An empty source that keeps the default calls.
#[derive(Drop)]
struct Empty;

impl Source for Empty {
    ghost failures = { λ e. 0 };

    fn pull(&mut self, to: &mut [u8]) -> Result<usize, ReadFailed> {
        let _ = to;
        Ok(0)
    }
}

#[test]
fn memory_shows_all_bytes_left(rt: HostRuntime) -> Result<(), Fail> {
    let mut memory = Memory::new(PICKLE);
    assert_eq!(rt; memory.ahead().len(), 9);
    memory.advance(4);
    assert_eq!(rt; memory.ahead(), b"\x8c\x01b\x93.".as_slice());
    memory.advance(5);
    assert_eq!(rt; memory.ahead().len(), 0);
    Ok(())
}

#[test]
fn a_source_with_nothing_at_hand_shows_nothing(rt: HostRuntime) -> Result<(), Fail> {
    let mut empty = Empty;
    empty.advance(0);
    assert_eq!(rt; empty.ahead().len(), 0);
    let mut input = Input::new(PICKLE);
    input.advance(0);
    assert_eq!(rt; input.ahead().len(), 0);
    Ok(())
}

const MORE_BEHIND: &[u8] = b"\x8c\x01a\x94\x8c\x01b\x93.more";

#[test]
fn nothing_past_stop_is_taken(rt: HostRuntime) -> Result<(), Fail> {
    let mut memory = Memory::new(MORE_BEHIND);
    assert_eq!(rt; judge_from(&rt, &mut memory)?, Verdict::Yes(9, 1));
    let mut rest = [0; 8];
    let count = memory.pull(&mut rest);
    assert_eq!(rt; (count, rest), (Ok(4), *b"more\0\0\0\0"));

    let mut pieces = Pieces::new(MORE_BEHIND, u32::MAX, None);
    let verdict = judge_from(&rt, &mut Input::new(&mut pieces))?;
    assert_eq!(rt; (verdict, pieces.given), (Verdict::Yes(9, 1), 9));
    Ok(())
}
