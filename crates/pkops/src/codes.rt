//! Opcodes by code byte.

ghost use Rattle.std.specs.Prelude.{◌≡◌, ◌≢◌, IfSome, IfNone};
ghost use Rattle.pkops.specs.Table.{code_of};
ghost use Rattle.pkops.specs.declared.op.Op.{Op};

use crate::op::Op;

/// The opcode with this code byte, or `None` if no opcode has it.
pub fn op_of_byte(byte: u8) -> Option<Op>
    ensures found { IfSome result (λ op. code_of op ≡ byte) }
    ensures none { IfNone result ((op : Op) → code_of op ≢ byte) }
{
    OPCODES[usize::from(byte)]
}

/// The entry of the table for an opcode, or for none.
macro_rules! entry {
    (_) => {
        None
    };
    ($name:ident) => {
        Some(Op::$name)
    };
}

/// The table with these entries.
macro_rules! entries {
    ($($name:tt)*) => {
        [$(entry!($name)),*]
    };
}

/// The opcode of each code byte, in order. A table in memory is faster than a match, which LLVM
/// compiles to an indirect jump.
static OPCODES: [Option<Op>; 256] = entries! {
    // 0x00
    _ _ _ _ _ _ _ _ _ _ _ _ _ _ _ _
    // 0x10
    _ _ _ _ _ _ _ _ _ _ _ _ _ _ _ _
    // 0x20
    _ _ _ _ _ _ _ _ Mark EmptyTuple _ _ _ _ Stop _
    // 0x30
    Pop PopMark Dup _ _ _ _ _ _ _ _ _ _ _ _ _
    // 0x40
    _ _ BinBytes ShortBinBytes _ _ Float BinFloat _ Int BinInt BinInt1 Long BinInt2 None _
    // 0x50
    PersId BinPersid Reduce String BinString ShortBinString Unicode _
    BinUnicode _ _ _ _ EmptyList _ _
    // 0x60
    _ Append Build Global Dict Appends _ Get BinGet Inst LongBinGet _ List _ _ Obj
    // 0x70
    Put BinPut LongBinPut SetItem Tuple SetItems _ _ _ _ _ _ _ EmptyDict _ _
    // 0x80
    Proto NewObj Ext1 Ext2 Ext4 Tuple1 Tuple2 Tuple3
    NewTrue NewFalse Long1 Long4 ShortBinUnicode BinUnicode8 BinBytes8 EmptySet
    // 0x90
    AddItems FrozenSet NewObjEx StackGlobal Memoize Frame ByteArray8 NextBuffer
    ReadonlyBuffer _ _ _ _ _ _ _
    // 0xa0
    _ _ _ _ _ _ _ _ _ _ _ _ _ _ _ _
    // 0xb0
    _ _ _ _ _ _ _ _ _ _ _ _ _ _ _ _
    // 0xc0
    _ _ _ _ _ _ _ _ _ _ _ _ _ _ _ _
    // 0xd0
    _ _ _ _ _ _ _ _ _ _ _ _ _ _ _ _
    // 0xe0
    _ _ _ _ _ _ _ _ _ _ _ _ _ _ _ _
    // 0xf0
    _ _ _ _ _ _ _ _ _ _ _ _ _ _ _ _
};
