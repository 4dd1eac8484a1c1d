//! Verdicts of `check` on worked pickles, under lists, under any import, and under small limits.

use crate::judging::{Verdict, judge_each};
use pkcheck::{Allow, Asked, Import, Policy, check};
use pkops::Limits;
use pkread::{Memory, Reason};
use std::test::Fail;

const NOTHING: &str = "version = 1\n[imports]\n";

const ORDERED_DICT: &str = "version = 1\n[imports]\ncollections = [\"OrderedDict\"]\n";

const ONE_PAIR: &str = "version = 1\n[imports]\na = [\"b\"]\n";

const SAME_NAME: &str = "version = 1\n[imports]\na = [\"a\"]\n";

const ONE_NAME: &str = "version = 1\n[imports]\nm = [\"f\"]\n";

const TWO_NAMES: &str = "version = 1\n[imports]\nm = [\"f\", \"b\"]\n";

const ACCEPTED: [(&[u8], Verdict); 8] = [
    (b"N.", Verdict::Yes(2, 0)),
    (b"(0N.", Verdict::Yes(4, 0)),
    (b"Nq\x05\x94h\x010.", Verdict::Yes(8, 0)),
    (
        b"\x80\x04\x95\x02\x00\x00\x00\x00\x00\x00\x00N.",
        Verdict::Yes(13, 0),
    ),
    (
        b"\x80\x04\x95\x01\x00\x00\x00\x00\x00\x00\x00N.",
        Verdict::Yes(13, 0),
    ),
    (
        b"\x95\x00\x00\x00\x00\x00\x00\x00\x00\x95\x00\x00\x00\x00\x00\x00\x00\x00N.",
        Verdict::Yes(20, 0),
    ),
    (b"S'a'\n.", Verdict::Yes(6, 0)),
    (b"\x97\x98.", Verdict::Yes(3, 0)),
];

const REFUSED: [(&[u8], Verdict); 30] = [
    (b"", Verdict::No(0, Reason::Truncated)),
    (b"N", Verdict::No(1, Reason::Truncated)),
    (
        b"\x80\x06N.",
        Verdict::No(0, Reason::UnsupportedProtocol(6)),
    ),
    (
        b"ccollections\nOrderedDict\n)R.",
        Verdict::No(0, Reason::ImportOffList),
    ),
    (b"(.", Verdict::No(1, Reason::MissingItem)),
    (b"(o.", Verdict::No(1, Reason::MissingItem)),
    (b"NN.", Verdict::No(2, Reason::LeftOver)),
    (b"(N.", Verdict::No(2, Reason::LeftOver)),
    (b"Nq\x05\x94h\x060.", Verdict::No(4, Reason::MissingMemo(6))),
    (
        b"\x80\x04\x95\x03\x00\x00\x00\x00\x00\x00\x00N.",
        Verdict::No(12, Reason::BrokenFrame),
    ),
    (
        b"\x80\x04\x95\x01\x00\x00\x00\x00\x00\x00\x00K\x01.",
        Verdict::No(11, Reason::BrokenFrame),
    ),
    (
        b"\x95\n\x00\x00\x00\x00\x00\x00\x00\x95\x01\x00\x00\x00\x00\x00\x00\x00.",
        Verdict::No(9, Reason::BrokenFrame),
    ),
    (b"(Nd.", Verdict::No(2, Reason::OddItems)),
    (b"Nd.", Verdict::No(1, Reason::MissingMark)),
    (b"T\xff\xff\xff\xff.", Verdict::No(0, Reason::BadArgument)),
    (b"B\x01\x00\x00\x01.", Verdict::No(0, Reason::TooLarge)),
    (b"\xff", Verdict::No(0, Reason::UnknownOpcode(255))),
    (b"\x82\x05.", Verdict::No(0, Reason::ExtensionCode)),
    (b"\x82", Verdict::No(0, Reason::Truncated)),
    (b"c\nf\n.", Verdict::No(0, Reason::BadArgument)),
    (b"}\x8c\x01aa.", Verdict::No(4, Reason::WrongClass)),
    (b"N\x8c\x01b\x93.", Verdict::No(4, Reason::NotText)),
    (b"S'a\n.", Verdict::No(0, Reason::BadArgument)),
    (b"(Ne.", Verdict::No(2, Reason::MissingItem)),
    (b"((Ne.", Verdict::No(3, Reason::MissingItem)),
    (b"1.", Verdict::No(0, Reason::MissingMark)),
    (b"](\x90.", Verdict::No(2, Reason::WrongClass)),
    (b"](Nu.", Verdict::No(3, Reason::OddItems)),
    (b"\x97\x8c\x01b\x93.", Verdict::No(4, Reason::UnknownImport)),
    (b"\x97N\x93.", Verdict::No(2, Reason::NotText)),
];

const WITH_ORDERED_DICT: [(&[u8], Verdict); 2] = [
    (b"ccollections\nOrderedDict\n)R.", Verdict::Yes(28, 1)),
    (b"ccollections\nOrderedDict\n)R.N", Verdict::Yes(28, 1)),
];

const WITH_ONE_PAIR: [(&[u8], Verdict); 2] = [
    (b"\x8c\x01a\x94\x8c\x01b\x93.", Verdict::Yes(9, 1)),
    (b"V\\u0061\n\x8c\x01b\x93.", Verdict::Yes(13, 1)),
];

const WITH_SAME_NAME: [(&[u8], Verdict); 1] = [(b"\x8c\x01a2\x93.", Verdict::Yes(6, 1))];

const WITH_ONE_NAME: [(&[u8], Verdict); 3] = [
    (b"(im\nf\n.", Verdict::Yes(7, 1)),
    (b"cm\nf\n)}\x92.", Verdict::Yes(9, 1)),
    (b"(cm\nf\no.", Verdict::Yes(8, 1)),
];

const WITH_TWO_NAMES: [(&[u8], Verdict); 1] = [(
    b"cm\nf\n)R\x8c\x01b\x93.",
    Verdict::No(10, Reason::UnknownImport),
)];

#[test]
fn under_a_list(rt: HostRuntime) -> Result<(), Fail> {
    let tables: [(&str, &[(&[u8], Verdict)]); 7] = [
        (NOTHING, &ACCEPTED),
        (NOTHING, &REFUSED),
        (ORDERED_DICT, &WITH_ORDERED_DICT),
        (ONE_PAIR, &WITH_ONE_PAIR),
        (SAME_NAME, &WITH_SAME_NAME),
        (ONE_NAME, &WITH_ONE_NAME),
        (TWO_NAMES, &WITH_TWO_NAMES),
    ];
    for (list, rows) in tables {
        let allow = Allow::from_toml(rt.alloc(), list)?;
        judge_each(&rt, &Policy::Listed(&allow), &Limits::STANDARD, rows);
    }
    Ok(())
}

const WITH_ANY_IMPORT: [(&[u8], Verdict); 5] = [
    (b"cm\nf\n)R\x8c\x01b\x93.", Verdict::Yes(12, 2)),
    (b"ccollections\nOrderedDict\n)R.", Verdict::Yes(28, 1)),
    (b"\x97\x8c\x01b\x93.", Verdict::Yes(6, 1)),
    (b"\x97N\x93.", Verdict::No(2, Reason::NotText)),
    (b"N.", Verdict::Yes(2, 0)),
];

#[test]
fn under_any_import(rt: HostRuntime) {
    judge_each(&rt, &Policy::AnyImport, &Limits::STANDARD, &WITH_ANY_IMPORT);
}

const OVER_ONE_OBJECT: [(&[u8], Verdict); 2] = [
    (b"NN.", Verdict::No(1, Reason::TooLarge)),
    (b"N.", Verdict::Yes(2, 0)),
];

const OVER_ONE_ENTRY: [(&[u8], Verdict); 3] = [
    (b"N\x94N\x94.", Verdict::No(3, Reason::TooLarge)),
    (b"Nq\x00q\x00.", Verdict::Yes(6, 0)),
    (b"Nq\x01\x94.", Verdict::Yes(5, 0)),
];

#[test]
fn under_small_limits(rt: HostRuntime) -> Result<(), Fail> {
    let stack = Limits::new(16_777_216, 1, 1_000_000, 100, 1_000_000).ok_or("a stack of one")?;
    let memo = Limits::new(16_777_216, 1_000_000, 1, 100, 1_000_000).ok_or("a memo of one")?;
    judge_each(&rt, &Policy::AnyImport, &stack, &OVER_ONE_OBJECT);
    judge_each(&rt, &Policy::AnyImport, &memo, &OVER_ONE_ENTRY);
    Ok(())
}

#[test]
fn imports_are_listed_in_order(rt: HostRuntime) -> Result<(), Fail> {
    let mut source = Memory::new(b"cm\nf\n)R\x8c\x01b\x93.");
    let Ok(yes) = check(
        rt.alloc(),
        &mut source,
        &Policy::AnyImport,
        &Limits::STANDARD,
    ) else {
        return Err(Fail::from("a yes"));
    };
    let pair = Import::Pair {
        module: "m",
        name: "f",
    };
    assert_eq!(rt; yes.imports.get(0), Some(pair));
    assert_eq!(rt; yes.imports.get(1), Some(Import::Unknown));
    assert_eq!(rt; yes.imports.get(2), None);
    Ok(())
}

#[test]
fn the_refused_pair_is_named(rt: HostRuntime) -> Result<(), Fail> {
    let allow = Allow::from_toml(rt.alloc(), NOTHING)?;
    let mut source = Memory::new(b"ccollections\nOrderedDict\n)R.");
    let Err(no) = check(
        rt.alloc(),
        &mut source,
        &Policy::Listed(&allow),
        &Limits::STANDARD,
    ) else {
        return Err(Fail::from("a no"));
    };
    let Some(Asked::Pair { module, name }) = &no.pair else {
        return Err(Fail::from("a pair"));
    };
    assert_eq!(rt;
        (module.as_str(), name.as_str()),
        ("collections", "OrderedDict")
    );
    Ok(())
}
