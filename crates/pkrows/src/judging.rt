//! The verdict of `check`, in a form that a table can hold.

use crate::giving::Pieces;
use pkcheck::{No, OldStrings, Policy, Yes, check, check_as};
use pkops::Limits;
use pkread::{Memory, Reason, Source};
use std::process::Abort;

/// The verdict of `check`.
#[derive(Clone, Copy, Debug, PartialEq, Eq)]
pub enum Verdict {
    /// The number of bytes taken and of imports listed.
    Yes(u64, usize),
    /// The offset and the reason of the refusal.
    No(u64, Reason),
}

/// The verdict on the bytes of a source.
pub fn judge<T: AllocGlobal, R: Source>(
    rt: &T,
    policy: &Policy<'_>,
    limits: &Limits,
    source: &mut R,
) -> Verdict {
    verdict_of(check(rt.alloc(), source, policy, limits))
}

/// Like the verdict above, for a reader that decodes Python 2 strings as `old_strings` says.
pub fn judge_as<T: AllocGlobal, R: Source>(
    rt: &T,
    policy: &Policy<'_>,
    limits: &Limits,
    old_strings: OldStrings,
    source: &mut R,
) -> Verdict {
    verdict_of(check_as(rt.alloc(), source, policy, limits, old_strings))
}

fn verdict_of(answer: Result<Yes, No>) -> Verdict {
    match answer {
        Ok(yes) => Verdict::Yes(yes.taken, yes.imports.len()),
        Err(no) => Verdict::No(no.at, no.reason),
    }
}

/// Compares the verdict on each pickle with the expected one, for sources that return one byte, two
/// bytes, or all that is requested.
pub fn judge_each<T: Abort + AllocGlobal>(
    rt: &T,
    policy: &Policy<'_>,
    limits: &Limits,
    rows: &[(&[u8], Verdict)],
) {
    for (pickle, wanted) in rows {
        // the bytes at hand: the path of the program and of the library
        let mut memory = Memory::new(pickle);
        assert_eq!(rt;
            judge(rt, policy, limits, &mut memory),
            *wanted,
            "{pickle:?}"
        );
        for most in [1, 2, usize::MAX] {
            let mut source = Pieces::new(pickle, most);
            assert_eq!(rt;
                judge(rt, policy, limits, &mut source),
                *wanted,
                "{pickle:?}"
            );
        }
    }
}
