//! Calls that people make first.

use pkcheck::{Allow, Extent, Loading, Memo, OldStrings, Permit, Policy, Terms, check};
use pkjson::export_text;
use pkload::{Excess, Tolls, check_loading};
use pkops::Limits;
use pkopt::optimize;
use pkread::{Memory, Reason};
use std::process::Abort;
use std::test::Fail;

#[test]
fn an_import_is_checked(rt: HostRuntime) -> Result<(), Fail> {
    let alloc = rt.alloc();
    let list = "version = 1\n[imports]\ncollections = [\"OrderedDict\"]\n";
    let allow = Allow::from_toml(alloc, list)?;
    let policy = Policy::Listed(&allow);
    let mut source = Memory::new(b"ccollections\nOrderedDict\n)R.");
    let yes = check(alloc, &mut source, &policy, &Limits::STANDARD)?;
    assert_eq!(rt; (yes.taken, yes.imports.len()), (28, 1));
    let mut source = Memory::new(b"cos\nsystem\n(Vtouch M\ntR.");
    let Err(no) = check(alloc, &mut source, &policy, &Limits::STANDARD) else {
        panic!(rt; "an import off the list is accepted");
    };
    assert_eq!(rt; (no.at, no.reason), (0, Reason::ImportOffList));
    Ok(())
}

#[test]
fn a_pickle_is_optimized(rt: HostRuntime) -> Result<(), Fail> {
    let alloc = rt.alloc();
    let smaller = optimize(alloc, b"]q\x00Nq\x01ah\x000.", &Limits::STANDARD)?;
    assert_eq!(rt; smaller.as_slice(), b"]q\x00Nah\x000.".as_slice());
    Ok(())
}

#[test]
fn a_pickle_is_exported(rt: HostRuntime) -> Result<(), Fail> {
    let alloc = rt.alloc();
    let text = export_text(alloc, b"}\x8c\x01aK\x01s.", &Limits::STANDARD)?;
    assert_eq!(rt; text.as_slice(), b"{\"a\":1}".as_slice());
    Ok(())
}

/// A dict whose key is a tuple of one object twice, thirty deep: a hash of it takes 15 seconds.
const DOUBLED: &[u8] = b"})\
    2\x862\x862\x862\x862\x862\x862\x862\x862\x862\x862\x862\x862\x862\x862\x86\
    2\x862\x862\x862\x862\x862\x862\x862\x862\x862\x862\x862\x862\x862\x862\x86\
    Ns.";

#[test]
fn costs_are_bounded(rt: HostRuntime) -> Result<(), Fail> {
    let alloc = rt.alloc();
    let terms = Terms {
        limits: Limits::STANDARD,
        loading: Loading {
            memo: Memo::Fresh,
            old_strings: OldStrings::Unknown,
        },
        extent: Extent::OnePickle,
    };
    let permit = Permit::By(Policy::AnyImport);
    let mut source = Memory::new(b"}(K\x01K\x02K\x03K\x04tNs.");
    let billed = check_loading(alloc, &mut source, &permit, &terms, &Tolls::standard())??;
    assert_eq!(rt; (billed.tally.levels, billed.tally.weight), (1, 5));
    let mut source = Memory::new(DOUBLED);
    let Err(costly) = check_loading(alloc, &mut source, &permit, &terms, &Tolls::standard()) else {
        panic!(rt; "a key that takes 15 seconds to hash is accepted");
    };
    assert_eq!(rt; (costly.at, costly.excess), (63, Excess::HeavyKeys));
    Ok(())
}
