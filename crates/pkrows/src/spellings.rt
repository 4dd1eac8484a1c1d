//! One spelling of each opcode, read and written. CPython's `pickletools` reads each as one
//! instruction of that name and length.

use pkops::{Inst, Limits, Op, Scan, assemble, op_of_byte, row, scan, write_inst};
use pkread::genops;
use std::alloc::{AllocError, Global};
use std::test::Fail;

/// An opcode, its name and a spelling of it.
pub type Spelling = (Op, &'static str, &'static [u8]);

const VALUES: [Spelling; 25] = [
    (Op::Int, "INT", b"I12\n"),
    (Op::BinInt, "BININT", b"J\xff\xff\xff\xff"),
    (Op::BinInt1, "BININT1", b"K\x07"),
    (Op::BinInt2, "BININT2", b"M\x01\x02"),
    (Op::Long, "LONG", b"L12L\n"),
    (Op::Long1, "LONG1", b"\x8a\x01\xff"),
    (Op::Long4, "LONG4", b"\x8b\x01\x00\x00\x00\xff"),
    (Op::String, "STRING", b"S'a'\n"),
    (Op::BinString, "BINSTRING", b"T\x01\x00\x00\x00a"),
    (Op::ShortBinString, "SHORT_BINSTRING", b"U\x01a"),
    (Op::BinBytes, "BINBYTES", b"B\x01\x00\x00\x00a"),
    (Op::ShortBinBytes, "SHORT_BINBYTES", b"C\x01a"),
    (
        Op::BinBytes8,
        "BINBYTES8",
        b"\x8e\x01\x00\x00\x00\x00\x00\x00\x00a",
    ),
    (
        Op::ByteArray8,
        "BYTEARRAY8",
        b"\x96\x01\x00\x00\x00\x00\x00\x00\x00a",
    ),
    (Op::NextBuffer, "NEXT_BUFFER", b"\x97"),
    (Op::ReadonlyBuffer, "READONLY_BUFFER", b"\x98"),
    (Op::None, "NONE", b"N"),
    (Op::NewTrue, "NEWTRUE", b"\x88"),
    (Op::NewFalse, "NEWFALSE", b"\x89"),
    (Op::Unicode, "UNICODE", b"Va\n"),
    (Op::ShortBinUnicode, "SHORT_BINUNICODE", b"\x8c\x01a"),
    (Op::BinUnicode, "BINUNICODE", b"X\x01\x00\x00\x00a"),
    (
        Op::BinUnicode8,
        "BINUNICODE8",
        b"\x8d\x01\x00\x00\x00\x00\x00\x00\x00a",
    ),
    (Op::Float, "FLOAT", b"F1.5\n"),
    (Op::BinFloat, "BINFLOAT", b"G?\xf8\x00\x00\x00\x00\x00\x00"),
];

const CONTAINERS: [Spelling; 16] = [
    (Op::EmptyList, "EMPTY_LIST", b"]"),
    (Op::Append, "APPEND", b"a"),
    (Op::Appends, "APPENDS", b"e"),
    (Op::List, "LIST", b"l"),
    (Op::EmptyTuple, "EMPTY_TUPLE", b")"),
    (Op::Tuple, "TUPLE", b"t"),
    (Op::Tuple1, "TUPLE1", b"\x85"),
    (Op::Tuple2, "TUPLE2", b"\x86"),
    (Op::Tuple3, "TUPLE3", b"\x87"),
    (Op::EmptyDict, "EMPTY_DICT", b"}"),
    (Op::Dict, "DICT", b"d"),
    (Op::SetItem, "SETITEM", b"s"),
    (Op::SetItems, "SETITEMS", b"u"),
    (Op::EmptySet, "EMPTY_SET", b"\x8f"),
    (Op::AddItems, "ADDITEMS", b"\x90"),
    (Op::FrozenSet, "FROZENSET", b"\x91"),
];

const STACK_AND_MEMO: [Spelling; 11] = [
    (Op::Pop, "POP", b"0"),
    (Op::Dup, "DUP", b"2"),
    (Op::Mark, "MARK", b"("),
    (Op::PopMark, "POP_MARK", b"1"),
    (Op::Get, "GET", b"g7\n"),
    (Op::BinGet, "BINGET", b"h\x07"),
    (Op::LongBinGet, "LONG_BINGET", b"j\x07\x00\x00\x00"),
    (Op::Put, "PUT", b"p7\n"),
    (Op::BinPut, "BINPUT", b"q\x07"),
    (Op::LongBinPut, "LONG_BINPUT", b"r\x07\x00\x00\x00"),
    (Op::Memoize, "MEMOIZE", b"\x94"),
];

const IMPORTS_CALLS_AND_THE_PICKLE: [Spelling; 16] = [
    (Op::Ext1, "EXT1", b"\x82\x05"),
    (Op::Ext2, "EXT2", b"\x83\x05\x00"),
    (Op::Ext4, "EXT4", b"\x84\x05\x00\x00\x00"),
    (Op::Global, "GLOBAL", b"cm\nf\n"),
    (Op::StackGlobal, "STACK_GLOBAL", b"\x93"),
    (Op::Reduce, "REDUCE", b"R"),
    (Op::Build, "BUILD", b"b"),
    (Op::Inst, "INST", b"im\nf\n"),
    (Op::Obj, "OBJ", b"o"),
    (Op::NewObj, "NEWOBJ", b"\x81"),
    (Op::NewObjEx, "NEWOBJ_EX", b"\x92"),
    (Op::Proto, "PROTO", b"\x80\x02"),
    (Op::Frame, "FRAME", b"\x95\x01\x00\x00\x00\x00\x00\x00\x00"),
    (Op::PersId, "PERSID", b"Pp\n"),
    (Op::BinPersid, "BINPERSID", b"Q"),
    (Op::Stop, "STOP", b"."),
];

/// A spelling of each opcode. The tests share these tables, so only one proof covers them.
pub fn spellings(alloc: Global) -> Result<Vec<Spelling>, AllocError> {
    let tables: [&[Spelling]; 4] = [
        &VALUES,
        &CONTAINERS,
        &STACK_AND_MEMO,
        &IMPORTS_CALLS_AND_THE_PICKLE,
    ];
    let mut all = Vec::new(alloc);
    for table in tables {
        all.extend_from_slice(table)?;
    }
    Ok(all)
}

#[test]
fn each_front_is_more(rt: HostRuntime) -> Result<(), Fail> {
    for (_, name, bytes) in &spellings(rt.alloc())? {
        for end in 0..bytes.len() {
            let front = scan(&bytes[..end], &Limits::STANDARD);
            assert!(rt; matches!(front, Scan::More), "{end} bytes of {name}");
        }
    }
    Ok(())
}

#[test]
fn the_whole_is_read_and_written_back(rt: HostRuntime) -> Result<(), Fail> {
    for (op, name, bytes) in &spellings(rt.alloc())? {
        let Scan::Whole(inst, length) = scan(bytes, &Limits::STANDARD) else {
            return Err(Fail::from(*name));
        };
        let mut written = Vec::new(rt.alloc());
        write_inst(&inst, &mut written)?;
        let assembled = assemble(rt.alloc(), &[inst])?;
        let sizes = (length, inst.len());
        assert_eq!(rt;
            (inst.op(), sizes, written.as_slice(), assembled.as_slice()),
            (*op, (bytes.len(), bytes.len() as u64), *bytes, *bytes),
            "{name}"
        );
    }
    Ok(())
}

#[test]
fn the_table_names_each(rt: HostRuntime) -> Result<(), Fail> {
    for (op, name, bytes) in &spellings(rt.alloc())? {
        let found = row(*op);
        assert_eq!(rt;
            (found.name, op_of_byte(found.code), bytes.first().copied()),
            (*name, Some(*op), Some(found.code))
        );
    }
    Ok(())
}

// The spellings that a reader admits.
fn admitted(alloc: Global) -> Result<Vec<Spelling>, AllocError> {
    let mut admitted = Vec::new(alloc);
    for spelling in &spellings(alloc)? {
        if !matches!(spelling.0, Op::Ext1 | Op::Ext2 | Op::Ext4) {
            admitted.push(*spelling)?;
        }
    }
    Ok(admitted)
}

#[test]
fn genops_gives_each_at_its_offset(rt: HostRuntime) -> Result<(), Fail> {
    let admitted = admitted(rt.alloc())?;
    let mut all = Vec::new(rt.alloc());
    for (_, _, bytes) in &admitted {
        all.extend_from_slice(bytes)?;
    }
    let mut items = genops(&all, &Limits::STANDARD);
    let mut offset = 0u64;
    for (op, name, bytes) in &admitted {
        let Some(Ok((at, inst))) = items.next() else {
            return Err(Fail::from(*name));
        };
        assert_eq!(rt; (at, inst.op()), (offset, *op), "{name}");
        offset = offset.wrapping_add(bytes.len() as u64);
    }
    assert!(rt; items.next().is_none(), "after STOP");
    Ok(())
}
