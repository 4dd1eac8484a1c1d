//! Every sequence of one to three opcodes and a STOP, one spelling each: no call reports
//! `OutOfMemory`.

use crate::spellings::spellings;
use pkcheck::{Policy, check};
use pkjson::{ExportError, export};
use pkops::Limits;
use pkopt::optimize;
use pkread::{Memory, Reason};
use std::alloc::{AllocError, Global};
use std::test::Fail;

// Whether `check` under any import, `optimize` or `export` reports `OutOfMemory`.
fn wants_memory(alloc: Global, pickle: &[u8]) -> bool {
    let limits = &Limits::STANDARD;
    let checked = match check(alloc, &mut Memory::new(pickle), &Policy::AnyImport, limits) {
        Ok(_) => false,
        Err(no) => no.reason == Reason::OutOfMemory,
    };
    let optimized = match optimize(alloc, pickle, limits) {
        Ok(_) => false,
        Err(refusal) => refusal.reason == Reason::OutOfMemory,
    };
    let exported = match export(alloc, pickle, limits) {
        Ok(_) => false,
        Err(error) => error == ExportError::OutOfMemory,
    };
    checked || optimized || exported
}

// The spellings in order, and a STOP.
fn pickle_of(alloc: Global, parts: &[&[u8]]) -> Result<Vec<u8>, AllocError> {
    let mut pickle = Vec::new(alloc);
    for part in parts {
        pickle.extend_from_slice(part)?;
    }
    pickle.push(b'.')?;
    Ok(pickle)
}

#[test]
fn no_sequence_wants_memory(rt: HostRuntime) -> Result<(), Fail> {
    let alloc = rt.alloc();
    let spellings = spellings(alloc)?;
    let mut count = 0u32;
    for (_, _, first) in &spellings {
        assert!(rt;
            !wants_memory(alloc, &pickle_of(alloc, &[first])?),
            "{first:?}"
        );
        count = count.wrapping_add(1);
        for (_, _, second) in &spellings {
            let two = pickle_of(alloc, &[first, second])?;
            assert!(rt; !wants_memory(alloc, &two), "{two:?}");
            count = count.wrapping_add(1);
            for (_, _, third) in &spellings {
                let three = pickle_of(alloc, &[first, second, third])?;
                assert!(rt; !wants_memory(alloc, &three), "{three:?}");
                count = count.wrapping_add(1);
            }
        }
    }
    assert_eq!(rt; count, 319_124);
    Ok(())
}
