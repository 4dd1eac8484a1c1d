//! What a caller of the crates writes: the calls over a source that has `pull` alone, a match of
//! every policy, and audiences of its own.

ghost use Rattle.std.specs.Prelude.{◌≡◌};

use crate::giving::Pieces;
use pkcheck::{
    Allow, Audience, Extent, Listener, Loading, Memo, OldStrings, Permit, Policy, Terms, check,
    check_all, check_as, check_pickles,
};
use pkops::{Inst, Limits, Op};
use pkread::{Memory, Source};
use std::test::Fail;

const LIST: &str = "version = 1\n[imports]\nm = [\"f\"]\n";

fn has_list(policy: &Policy<'_>) -> bool {
    match policy {
        Policy::Listed(_) => true,
        Policy::AnyImport => false,
    }
}

#[test]
fn calls_take_a_policy(rt: HostRuntime) -> Result<(), Fail> {
    let pickle = b"cm\nf\n.".as_slice();
    let limits = &Limits::STANDARD;
    let allow = Allow::from_toml(rt.alloc(), LIST)?;
    let listed = Policy::Listed(&allow);
    assert!(rt; has_list(&listed));
    assert!(rt; !has_list(&Policy::AnyImport));
    let unknown = OldStrings::Unknown;
    let mut source = Pieces::new(pickle, 1);
    let plain = check(rt.alloc(), &mut source, &listed, limits).ok();
    let mut source = Pieces::new(pickle, 1);
    let set = check_as(rt.alloc(), &mut source, &listed, limits, unknown).ok();
    assert!(rt; plain.is_some());
    assert!(rt; plain == set);
    let mut source = Pieces::new(pickle, 1);
    let row = check_all(rt.alloc(), &mut source, &listed, limits, unknown).ok();
    let mut source = Memory::new(pickle);
    let same = check_all(rt.alloc(), &mut source, &listed, limits, unknown).ok();
    assert!(rt; row.is_some());
    assert!(rt; row == same);
    Ok(())
}

/// Counts what it observes, and stops after so many instructions.
#[derive(Clone, Copy, Debug, PartialEq, Eq)]
struct Tally {
    whole: u32,
    skipped: u32,
    /// The lengths of those skipped.
    length: u64,
    /// The offset and the marks of the last one.
    last: (u64, usize),
    most: u32,
}

impl Tally {
    fn up_to(most: u32) -> Tally {
        Tally {
            whole: 0,
            skipped: 0,
            length: 0,
            last: (0, 0),
            most,
        }
    }

    fn next(&mut self, at: u64, marks: usize) -> Result<(), TooMany> {
        if self.whole.wrapping_add(self.skipped) == self.most {
            return Err(TooMany { at });
        }
        self.last = (at, marks);
        Ok(())
    }
}

#[derive(Clone, Copy, Debug, PartialEq, Eq)]
struct TooMany {
    at: u64,
}

impl Audience for Tally {
    ghost use Rattle.std.specs.Prelude.{false, ⊤};

    type Error = TooMany;

    ghost holding = { false };

    ghost hears = { λ old new told. ⊤ };

    ghost fails = { λ old new told error. ⊤ };

    fn holds() -> bool {
        false
    }

    fn tell(&mut self, at: u64, _inst: &Inst<'_>, marks: usize) -> Result<(), TooMany> {
        self.next(at, marks)?;
        self.whole = self.whole.wrapping_add(1);
        Ok(())
    }

    fn tell_skipped(&mut self, at: u64, _op: Op, length: u64, marks: usize) -> Result<(), TooMany> {
        self.next(at, marks)?;
        self.skipped = self.skipped.wrapping_add(1);
        self.length = self.length.wrapping_add(length);
        Ok(())
    }

    ghost hears_none = { λ x. tt };

    ghost hears_more = { λ x y z rs r a b. tt };
}

/// Counts what it observes, which is each instruction whole.
#[derive(Drop)]
struct Heard {
    whole: u32,
}

impl Listener for Heard {
    ghost use Rattle.std.specs.Prelude.{⊤};

    type Error = TooMany;

    ghost hears = { λ old new heard. ⊤ };

    fn hear(&mut self, _at: u64, _inst: &Inst<'_>, _marks: usize) -> Result<(), TooMany> {
        self.whole = self.whole.wrapping_add(1);
        Ok(())
    }

    ghost hears_none = { λ x. tt };

    ghost hears_more = { λ x y z hs h a b. tt };
}

// A list of two payloads and a number, after a mark; and a second pickle.
const ROW: &[u8] = b"(C\x02abB\x03\0\0\0abcK\x01l.N.";

fn terms(limits: Limits) -> Terms
    ensures { result.limits ≡ limits }
{
    Terms {
        limits,
        loading: Loading {
            memo: Memo::Kept,
            old_strings: OldStrings::Unknown,
        },
        extent: Extent::ToTheEnd,
    }
}

/// What an audience observed, and why it stopped the check.
fn told<R: Source>(rt: &HostRuntime, source: &mut R, most: u32) -> (Tally, Option<TooMany>) {
    let mut tally = Tally::up_to(most);
    let permit = Permit::By(Policy::AnyImport);
    let terms = terms(Limits::STANDARD);
    let answer = check_pickles(rt.alloc(), source, &permit, &terms, &mut tally);
    (tally, answer.err())
}

#[test]
fn payloads_are_skipped_wherever_they_lie(rt: HostRuntime) {
    let all = Tally {
        whole: 6,
        skipped: 2,
        length: 12,
        last: (18, 0),
        most: u32::MAX,
    };
    let mut memory = Memory::new(ROW);
    assert_eq!(rt; told(&rt, &mut memory, u32::MAX), (all, None));
    let mut pieces = Pieces::new(ROW, 1);
    assert_eq!(rt; told(&rt, &mut pieces, u32::MAX), (all, None));
}

#[test]
fn an_audience_stops_the_check(rt: HostRuntime) {
    let three = Tally {
        whole: 1,
        skipped: 2,
        length: 12,
        last: (5, 1),
        most: 3,
    };
    let stopped = (three, Some(TooMany { at: 13 }));
    let mut memory = Memory::new(ROW);
    assert_eq!(rt; told(&rt, &mut memory, 3), stopped);
    assert_eq!(rt; memory.ahead(), b"l.N.".as_slice());
    let mut pieces = Pieces::new(ROW, 1);
    assert_eq!(rt; told(&rt, &mut pieces, 3), stopped);
}

fn listened<R: Source>(rt: &HostRuntime, source: &mut R) -> (u32, bool) {
    let mut heard = Heard { whole: 0 };
    let permit = Permit::By(Policy::AnyImport);
    let terms = terms(Limits::STANDARD.holding_all());
    let answer = check_pickles(rt.alloc(), source, &permit, &terms, &mut heard);
    (heard.whole, answer.is_ok())
}

#[test]
fn a_listener_hears_payloads(rt: HostRuntime) {
    assert_eq!(rt; listened(&rt, &mut Memory::new(ROW)), (8, true));
    assert_eq!(rt; listened(&rt, &mut Pieces::new(ROW, 1)), (8, true));
}
