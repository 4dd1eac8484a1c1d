//! The opcode table: code, name, kind of argument and least protocol.

ghost use Rattle.std.specs.Prelude.{◌≡◌};
ghost use Rattle.pkops.specs.Table.{row_of, shown_row, code_of, kind_of};
ghost use Rattle.pkops.specs.Spelling.{layout_at};

use crate::layout::Layout;
use crate::op::{Kind, Op, Row};

/// One cell of a row.
macro_rules! cell {
    (code, $code:literal, $name:literal, $kind:ident, $proto:literal) => {
        $code
    };
    (name, $code:literal, $name:literal, $kind:ident, $proto:literal) => {
        $name
    };
    (kind, $code:literal, $name:literal, $kind:ident, $proto:literal) => {
        Kind::$kind
    };
    (proto, $code:literal, $name:literal, $kind:ident, $proto:literal) => {
        $proto
    };
}

/// One column of the table, at an opcode.
macro_rules! column_of {
    ($column:ident, $op:ident) => {
        match $op {
            Op::Int => cell!($column, 0x49, "INT", DecimalnlShort, 0),
            Op::BinInt => cell!($column, 0x4a, "BININT", Int4, 1),
            Op::BinInt1 => cell!($column, 0x4b, "BININT1", Uint1, 1),
            Op::BinInt2 => cell!($column, 0x4d, "BININT2", Uint2, 1),
            Op::Long => cell!($column, 0x4c, "LONG", DecimalnlLong, 0),
            Op::Long1 => cell!($column, 0x8a, "LONG1", Long1, 2),
            Op::Long4 => cell!($column, 0x8b, "LONG4", Long4, 2),
            Op::String => cell!($column, 0x53, "STRING", Stringnl, 0),
            Op::BinString => cell!($column, 0x54, "BINSTRING", String4, 1),
            Op::ShortBinString => cell!($column, 0x55, "SHORT_BINSTRING", String1, 1),
            Op::BinBytes => cell!($column, 0x42, "BINBYTES", Bytes4, 3),
            Op::ShortBinBytes => cell!($column, 0x43, "SHORT_BINBYTES", Bytes1, 3),
            Op::BinBytes8 => cell!($column, 0x8e, "BINBYTES8", Bytes8, 4),
            Op::ByteArray8 => cell!($column, 0x96, "BYTEARRAY8", Bytearray8, 5),
            Op::NextBuffer => cell!($column, 0x97, "NEXT_BUFFER", None, 5),
            Op::ReadonlyBuffer => cell!($column, 0x98, "READONLY_BUFFER", None, 5),
            Op::None => cell!($column, 0x4e, "NONE", None, 0),
            Op::NewTrue => cell!($column, 0x88, "NEWTRUE", None, 2),
            Op::NewFalse => cell!($column, 0x89, "NEWFALSE", None, 2),
            Op::Unicode => cell!($column, 0x56, "UNICODE", Unicodestringnl, 0),
            Op::ShortBinUnicode => cell!($column, 0x8c, "SHORT_BINUNICODE", Unicodestring1, 4),
            Op::BinUnicode => cell!($column, 0x58, "BINUNICODE", Unicodestring4, 1),
            Op::BinUnicode8 => cell!($column, 0x8d, "BINUNICODE8", Unicodestring8, 4),
            Op::Float => cell!($column, 0x46, "FLOAT", Floatnl, 0),
            Op::BinFloat => cell!($column, 0x47, "BINFLOAT", Float8, 1),
            Op::EmptyList => cell!($column, 0x5d, "EMPTY_LIST", None, 1),
            Op::Append => cell!($column, 0x61, "APPEND", None, 0),
            Op::Appends => cell!($column, 0x65, "APPENDS", None, 1),
            Op::List => cell!($column, 0x6c, "LIST", None, 0),
            Op::EmptyTuple => cell!($column, 0x29, "EMPTY_TUPLE", None, 1),
            Op::Tuple => cell!($column, 0x74, "TUPLE", None, 0),
            Op::Tuple1 => cell!($column, 0x85, "TUPLE1", None, 2),
            Op::Tuple2 => cell!($column, 0x86, "TUPLE2", None, 2),
            Op::Tuple3 => cell!($column, 0x87, "TUPLE3", None, 2),
            Op::EmptyDict => cell!($column, 0x7d, "EMPTY_DICT", None, 1),
            Op::Dict => cell!($column, 0x64, "DICT", None, 0),
            Op::SetItem => cell!($column, 0x73, "SETITEM", None, 0),
            Op::SetItems => cell!($column, 0x75, "SETITEMS", None, 1),
            Op::EmptySet => cell!($column, 0x8f, "EMPTY_SET", None, 4),
            Op::AddItems => cell!($column, 0x90, "ADDITEMS", None, 4),
            Op::FrozenSet => cell!($column, 0x91, "FROZENSET", None, 4),
            Op::Pop => cell!($column, 0x30, "POP", None, 0),
            Op::Dup => cell!($column, 0x32, "DUP", None, 0),
            Op::Mark => cell!($column, 0x28, "MARK", None, 0),
            Op::PopMark => cell!($column, 0x31, "POP_MARK", None, 1),
            Op::Get => cell!($column, 0x67, "GET", DecimalnlShort, 0),
            Op::BinGet => cell!($column, 0x68, "BINGET", Uint1, 1),
            Op::LongBinGet => cell!($column, 0x6a, "LONG_BINGET", Uint4, 1),
            Op::Put => cell!($column, 0x70, "PUT", DecimalnlShort, 0),
            Op::BinPut => cell!($column, 0x71, "BINPUT", Uint1, 1),
            Op::LongBinPut => cell!($column, 0x72, "LONG_BINPUT", Uint4, 1),
            Op::Memoize => cell!($column, 0x94, "MEMOIZE", None, 4),
            Op::Ext1 => cell!($column, 0x82, "EXT1", Uint1, 2),
            Op::Ext2 => cell!($column, 0x83, "EXT2", Uint2, 2),
            Op::Ext4 => cell!($column, 0x84, "EXT4", Int4, 2),
            Op::Global => cell!($column, 0x63, "GLOBAL", StringnlNoescapePair, 0),
            Op::StackGlobal => cell!($column, 0x93, "STACK_GLOBAL", None, 4),
            Op::Reduce => cell!($column, 0x52, "REDUCE", None, 0),
            Op::Build => cell!($column, 0x62, "BUILD", None, 0),
            Op::Inst => cell!($column, 0x69, "INST", StringnlNoescapePair, 0),
            Op::Obj => cell!($column, 0x6f, "OBJ", None, 1),
            Op::NewObj => cell!($column, 0x81, "NEWOBJ", None, 2),
            Op::NewObjEx => cell!($column, 0x92, "NEWOBJ_EX", None, 4),
            Op::Proto => cell!($column, 0x80, "PROTO", Uint1, 2),
            Op::Stop => cell!($column, 0x2e, "STOP", None, 0),
            Op::Frame => cell!($column, 0x95, "FRAME", Uint8, 4),
            Op::PersId => cell!($column, 0x50, "PERSID", StringnlNoescape, 0),
            Op::BinPersid => cell!($column, 0x51, "BINPERSID", None, 1),
        }
    };
}

/// The opcode's row in the table of `pickletools`.
pub fn row(op: Op) -> Row
    ensures { shown_row result ≡ row_of op }
{
    Row {
        code: code(op),
        name: name(op),
        kind: kind(op),
        proto: least_protocol(op),
    }
}

/// The layout of the opcode's argument.
#[inline]
pub fn layout_of_op(op: Op) -> Layout
    ensures { result ≡ layout_at op }
{
    kind(op).layout()
}

/// The code byte.
pub fn code(op: Op) -> u8
    ensures { result ≡ code_of op }
{
    column_of!(code, op)
}

/// The kind of the opcode's argument.
#[inline]
pub fn kind(op: Op) -> Kind
    ensures { result ≡ kind_of op }
{
    column_of!(kind, op)
}

/// The name in `pickletools`.
fn name(op: Op) -> &'static str
    ensures { result.now ≡ (row_of op).name }
{
    column_of!(name, op)
}

/// The first protocol with this opcode.
fn least_protocol(op: Op) -> u8
    ensures { result ≡ (row_of op).proto }
{
    column_of!(proto, op)
}
