//! Each opcode: accepted where its needs are met, and refused for each need that isn't.

use crate::judging::{Verdict, judge_each};
use pkcheck::{Allow, Policy};
use pkops::Limits;
use pkread::Reason;
use std::test::Fail;

const LIST: &str = "version = 1\n[imports]\nm = [\"f\"]\n";

const LITERALS: [(&[u8], Verdict); 27] = [
    // INT
    (b"I1\n.", Verdict::Yes(4, 0)),
    // BININT
    (b"J\x00\x00\x00\x00.", Verdict::Yes(6, 0)),
    // BININT1
    (b"K\x01.", Verdict::Yes(3, 0)),
    // BININT2
    (b"M\x01\x00.", Verdict::Yes(4, 0)),
    // LONG
    (b"L1L\n.", Verdict::Yes(5, 0)),
    // LONG1
    (b"\x8a\x01\x01.", Verdict::Yes(4, 0)),
    // LONG4
    (b"\x8b\x01\x00\x00\x00\x01.", Verdict::Yes(7, 0)),
    // STRING
    (b"S'a'\n.", Verdict::Yes(6, 0)),
    // BINSTRING
    (b"T\x01\x00\x00\x00a.", Verdict::Yes(7, 0)),
    // SHORT_BINSTRING
    (b"U\x01a.", Verdict::Yes(4, 0)),
    // BINBYTES
    (b"B\x01\x00\x00\x00a.", Verdict::Yes(7, 0)),
    // SHORT_BINBYTES
    (b"C\x01a.", Verdict::Yes(4, 0)),
    // BINBYTES8
    (
        b"\x8e\x01\x00\x00\x00\x00\x00\x00\x00a.",
        Verdict::Yes(11, 0),
    ),
    // BYTEARRAY8
    (
        b"\x96\x01\x00\x00\x00\x00\x00\x00\x00a.",
        Verdict::Yes(11, 0),
    ),
    // NEXT_BUFFER
    (b"\x97.", Verdict::Yes(2, 0)),
    // READONLY_BUFFER
    (b"\x97\x98.", Verdict::Yes(3, 0)),
    (b"\x98", Verdict::No(0, Reason::MissingItem)),
    (b"N(\x98", Verdict::No(2, Reason::MissingItem)),
    // NONE
    (b"N.", Verdict::Yes(2, 0)),
    // NEWTRUE
    (b"\x88.", Verdict::Yes(2, 0)),
    // NEWFALSE
    (b"\x89.", Verdict::Yes(2, 0)),
    // UNICODE
    (b"Va\n.", Verdict::Yes(4, 0)),
    // SHORT_BINUNICODE
    (b"\x8c\x01a.", Verdict::Yes(4, 0)),
    // BINUNICODE
    (b"X\x01\x00\x00\x00a.", Verdict::Yes(7, 0)),
    // BINUNICODE8
    (
        b"\x8d\x01\x00\x00\x00\x00\x00\x00\x00a.",
        Verdict::Yes(11, 0),
    ),
    // FLOAT
    (b"F1.5\n.", Verdict::Yes(6, 0)),
    // BINFLOAT
    (b"G?\xf8\x00\x00\x00\x00\x00\x00.", Verdict::Yes(10, 0)),
];

const LISTS_AND_TUPLES: [(&[u8], Verdict); 24] = [
    // EMPTY_LIST
    (b"].", Verdict::Yes(2, 0)),
    // APPEND
    (b"]Na.", Verdict::Yes(4, 0)),
    (b"Na", Verdict::No(1, Reason::MissingItem)),
    (b"](Na", Verdict::No(3, Reason::MissingItem)),
    (b"}Na", Verdict::No(2, Reason::WrongClass)),
    // APPENDS
    (b"](Ne.", Verdict::Yes(5, 0)),
    (b"]e", Verdict::No(1, Reason::MissingMark)),
    (b"(e", Verdict::No(1, Reason::MissingItem)),
    (b"((e", Verdict::No(2, Reason::MissingItem)),
    (b"}(e", Verdict::No(2, Reason::WrongClass)),
    // LIST
    (b"(Nl.", Verdict::Yes(4, 0)),
    (b"Nl", Verdict::No(1, Reason::MissingMark)),
    // EMPTY_TUPLE
    (b").", Verdict::Yes(2, 0)),
    // TUPLE
    (b"(Nt.", Verdict::Yes(4, 0)),
    (b"Nt", Verdict::No(1, Reason::MissingMark)),
    // TUPLE1
    (b"N\x85.", Verdict::Yes(3, 0)),
    (b"\x85", Verdict::No(0, Reason::MissingItem)),
    (b"N(\x85", Verdict::No(2, Reason::MissingItem)),
    // TUPLE2
    (b"NN\x86.", Verdict::Yes(4, 0)),
    (b"N\x86", Verdict::No(1, Reason::MissingItem)),
    (b"N(N\x86", Verdict::No(3, Reason::MissingItem)),
    // TUPLE3
    (b"NNN\x87.", Verdict::Yes(5, 0)),
    (b"NN\x87", Verdict::No(2, Reason::MissingItem)),
    (b"N(NN\x87", Verdict::No(4, Reason::MissingItem)),
];

const DICTS_AND_SETS: [(&[u8], Verdict); 20] = [
    // EMPTY_DICT
    (b"}.", Verdict::Yes(2, 0)),
    // DICT
    (b"(NNd.", Verdict::Yes(5, 0)),
    (b"NNd", Verdict::No(2, Reason::MissingMark)),
    (b"(Nd", Verdict::No(2, Reason::OddItems)),
    // SETITEM
    (b"}NNs.", Verdict::Yes(5, 0)),
    (b"NNs", Verdict::No(2, Reason::MissingItem)),
    (b"}(NNs", Verdict::No(4, Reason::MissingItem)),
    (b"]NNs", Verdict::No(3, Reason::WrongClass)),
    // SETITEMS
    (b"}(NNu.", Verdict::Yes(6, 0)),
    (b"}NNu", Verdict::No(3, Reason::MissingMark)),
    (b"(NNu", Verdict::No(3, Reason::MissingItem)),
    (b"}(Nu", Verdict::No(3, Reason::OddItems)),
    (b"](NNu", Verdict::No(4, Reason::WrongClass)),
    // EMPTY_SET
    (b"\x8f.", Verdict::Yes(2, 0)),
    // ADDITEMS
    (b"\x8f(N\x90.", Verdict::Yes(5, 0)),
    (b"\x8fN\x90", Verdict::No(2, Reason::MissingMark)),
    (b"(N\x90", Verdict::No(2, Reason::MissingItem)),
    (b"](N\x90", Verdict::No(3, Reason::WrongClass)),
    // FROZENSET
    (b"(N\x91.", Verdict::Yes(4, 0)),
    (b"N\x91", Verdict::No(1, Reason::MissingMark)),
];

const STACK_AND_MEMO: [(&[u8], Verdict); 27] = [
    // POP
    (b"NN0.", Verdict::Yes(4, 0)),
    (b"(0N.", Verdict::Yes(4, 0)),
    (b"0", Verdict::No(0, Reason::MissingItem)),
    // DUP
    (b"N20.", Verdict::Yes(4, 0)),
    (b"2", Verdict::No(0, Reason::MissingItem)),
    (b"N(2", Verdict::No(2, Reason::MissingItem)),
    // MARK
    (b"((10N.", Verdict::Yes(6, 0)),
    // POP_MARK
    (b"N(N1.", Verdict::Yes(5, 0)),
    (b"N1", Verdict::No(1, Reason::MissingMark)),
    // GET
    (b"Np0\n0g0\n.", Verdict::Yes(9, 0)),
    (b"g7\n", Verdict::No(0, Reason::MissingMemo(7))),
    // BINGET
    (b"Nq\x000h\x00.", Verdict::Yes(7, 0)),
    (b"h\x07", Verdict::No(0, Reason::MissingMemo(7))),
    // LONG_BINGET
    (
        b"Nr\x00\x00\x00\x000j\x00\x00\x00\x00.",
        Verdict::Yes(13, 0),
    ),
    (b"j\x07\x00\x00\x00", Verdict::No(0, Reason::MissingMemo(7))),
    // PUT
    (b"Np0\n.", Verdict::Yes(5, 0)),
    (b"p0\n", Verdict::No(0, Reason::MissingItem)),
    (b"N(p0\n", Verdict::No(2, Reason::MissingItem)),
    // BINPUT
    (b"Nq\x00.", Verdict::Yes(4, 0)),
    (b"q\x00", Verdict::No(0, Reason::MissingItem)),
    (b"N(q\x00", Verdict::No(2, Reason::MissingItem)),
    // LONG_BINPUT
    (b"Nr\x00\x00\x00\x00.", Verdict::Yes(7, 0)),
    (b"r\x00\x00\x00\x00", Verdict::No(0, Reason::MissingItem)),
    // MEMOIZE
    (b"N\x94.", Verdict::Yes(3, 0)),
    (b"Nq\x05\x94h\x010.", Verdict::Yes(8, 0)),
    (b"\x94", Verdict::No(0, Reason::MissingItem)),
    (b"N(\x94", Verdict::No(2, Reason::MissingItem)),
];

const IMPORTS_AND_CALLS: [(&[u8], Verdict); 30] = [
    // EXT1
    (b"\x82\x05", Verdict::No(0, Reason::ExtensionCode)),
    // EXT2
    (b"\x83\x05\x00", Verdict::No(0, Reason::ExtensionCode)),
    // EXT4
    (
        b"\x84\x05\x00\x00\x00",
        Verdict::No(0, Reason::ExtensionCode),
    ),
    // GLOBAL
    (b"cm\nf\n.", Verdict::Yes(6, 1)),
    (b"Ncm\ng\n", Verdict::No(1, Reason::ImportOffList)),
    (b"cg\nf\n", Verdict::No(0, Reason::ImportOffList)),
    // STACK_GLOBAL
    (b"\x8c\x01m\x8c\x01f\x93.", Verdict::Yes(8, 1)),
    (b"\x93", Verdict::No(0, Reason::MissingItem)),
    (b"\x8c\x01m\x93", Verdict::No(3, Reason::MissingItem)),
    (b"N\x8c\x01f\x93", Verdict::No(4, Reason::NotText)),
    (b"\x8c\x01mN\x93", Verdict::No(4, Reason::NotText)),
    (b"\x97\x8c\x01f\x93", Verdict::No(4, Reason::UnknownImport)),
    (b"\x8c\x01m\x97\x93", Verdict::No(4, Reason::UnknownImport)),
    (
        b"\x8c\x01m\x8c\x01g\x93",
        Verdict::No(6, Reason::ImportOffList),
    ),
    // REDUCE
    (b"cm\nf\n)R.", Verdict::Yes(8, 1)),
    (b"NR", Verdict::No(1, Reason::MissingItem)),
    (b"N(NR", Verdict::No(3, Reason::MissingItem)),
    // BUILD
    (b"NNb.", Verdict::Yes(4, 0)),
    (b"Nb", Verdict::No(1, Reason::MissingItem)),
    (b"N(Nb", Verdict::No(3, Reason::MissingItem)),
    // INST
    (b"(im\nf\n.", Verdict::Yes(7, 1)),
    (b"im\nf\n", Verdict::No(0, Reason::MissingMark)),
    (b"(im\ng\n", Verdict::No(1, Reason::ImportOffList)),
    // OBJ
    (b"(cm\nf\no.", Verdict::Yes(8, 1)),
    (b"No", Verdict::No(1, Reason::MissingMark)),
    (b"(o", Verdict::No(1, Reason::MissingItem)),
    // NEWOBJ
    (b"cm\nf\n)\x81.", Verdict::Yes(8, 1)),
    (b"N\x81", Verdict::No(1, Reason::MissingItem)),
    // NEWOBJ_EX
    (b"cm\nf\n)}\x92.", Verdict::Yes(9, 1)),
    (b"NN\x92", Verdict::No(2, Reason::MissingItem)),
];

const THE_PICKLE: [(&[u8], Verdict); 15] = [
    // PROTO
    (b"\x80\x05N.", Verdict::Yes(4, 0)),
    (b"N\x80\x00.", Verdict::Yes(4, 0)),
    (b"\x80\x06", Verdict::No(0, Reason::UnsupportedProtocol(6))),
    // STOP
    (b".", Verdict::No(0, Reason::MissingItem)),
    (b"N(.", Verdict::No(2, Reason::MissingItem)),
    (b"NN.", Verdict::No(2, Reason::LeftOver)),
    (b"(N.", Verdict::No(2, Reason::LeftOver)),
    // FRAME
    (
        b"\x95\x02\x00\x00\x00\x00\x00\x00\x00N.",
        Verdict::Yes(11, 0),
    ),
    (
        b"\x95\x00\x00\x00\x00\x00\x00\x00\x00N.",
        Verdict::Yes(11, 0),
    ),
    (
        b"\x95\x01\x00\x00\x00\x00\x00\x00\x00K\x01",
        Verdict::No(9, Reason::BrokenFrame),
    ),
    (
        b"\x95\n\x00\x00\x00\x00\x00\x00\x00\x95\x01\x00\x00\x00\x00\x00\x00\x00",
        Verdict::No(9, Reason::BrokenFrame),
    ),
    (
        b"\x95\x03\x00\x00\x00\x00\x00\x00\x00N.",
        Verdict::No(10, Reason::BrokenFrame),
    ),
    // PERSID
    (b"Pp\n.", Verdict::Yes(4, 0)),
    // BINPERSID
    (b"NQ.", Verdict::Yes(3, 0)),
    (b"Q", Verdict::No(0, Reason::MissingItem)),
];

#[test]
fn each_opcode(rt: HostRuntime) -> Result<(), Fail> {
    let allow = Allow::from_toml(rt.alloc(), LIST)?;
    let tables: [&[(&[u8], Verdict)]; 6] = [
        &LITERALS,
        &LISTS_AND_TUPLES,
        &DICTS_AND_SETS,
        &STACK_AND_MEMO,
        &IMPORTS_AND_CALLS,
        &THE_PICKLE,
    ];
    for rows in tables {
        judge_each(&rt, &Policy::Listed(&allow), &Limits::STANDARD, rows);
    }
    Ok(())
}
