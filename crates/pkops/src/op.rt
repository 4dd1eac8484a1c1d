//! The opcodes, the kinds of their arguments, and the rows of the opcode table.

/// An opcode, named as in `pickletools`.
#[derive(Clone, Copy, Debug, PartialEq, Eq)]
pub enum Op {
    /// `INT`: an int or a bool, in a line of decimal digits.
    Int,
    /// `BININT`: an int, in four bytes, signed.
    BinInt,
    /// `BININT1`: an int, in one byte, unsigned.
    BinInt1,
    /// `BININT2`: an int, in two bytes, unsigned.
    BinInt2,
    /// `LONG`: an int, in a line of decimal digits.
    Long,
    /// `LONG1`: an int, in up to 255 bytes.
    Long1,
    /// `LONG4`: an int, in up to 2^31 - 1 bytes.
    Long4,
    /// `STRING`: a Python 2 string, in a line with quotes.
    String,
    /// `BINSTRING`: a Python 2 string, of up to 2^31 - 1 bytes.
    BinString,
    /// `SHORT_BINSTRING`: a Python 2 string, of up to 255 bytes.
    ShortBinString,
    /// `BINBYTES`: bytes, up to 2^32 - 1 of them.
    BinBytes,
    /// `SHORT_BINBYTES`: bytes, up to 255 of them.
    ShortBinBytes,
    /// `BINBYTES8`: bytes, after a count of eight bytes.
    BinBytes8,
    /// `BYTEARRAY8`: a bytearray, after a count of eight bytes.
    ByteArray8,
    /// `NEXT_BUFFER`: the next out-of-band buffer (PEP 574).
    NextBuffer,
    /// `READONLY_BUFFER`: makes the buffer on top of the stack read-only (PEP 574).
    ReadonlyBuffer,
    /// `NONE`: None.
    None,
    /// `NEWTRUE`: True.
    NewTrue,
    /// `NEWFALSE`: False.
    NewFalse,
    /// `UNICODE`: text, in a line with escapes.
    Unicode,
    /// `SHORT_BINUNICODE`: text, in up to 255 bytes of UTF-8.
    ShortBinUnicode,
    /// `BINUNICODE`: text, in up to 2^32 - 1 bytes of UTF-8.
    BinUnicode,
    /// `BINUNICODE8`: text, in UTF-8 after a count of eight bytes.
    BinUnicode8,
    /// `FLOAT`: a float, in a line of decimal digits.
    Float,
    /// `BINFLOAT`: a float, in eight bytes.
    BinFloat,
    /// `EMPTY_LIST`: a new list.
    EmptyList,
    /// `APPEND`: appends the top object to the list below it.
    Append,
    /// `APPENDS`: appends the objects above the topmost mark to the list below it.
    Appends,
    /// `LIST`: a new list of the objects above the topmost mark.
    List,
    /// `EMPTY_TUPLE`: the empty tuple.
    EmptyTuple,
    /// `TUPLE`: a tuple of the objects above the topmost mark.
    Tuple,
    /// `TUPLE1`: a tuple of the top object.
    Tuple1,
    /// `TUPLE2`: a tuple of the two top objects.
    Tuple2,
    /// `TUPLE3`: a tuple of the three top objects.
    Tuple3,
    /// `EMPTY_DICT`: a new dict.
    EmptyDict,
    /// `DICT`: a new dict of the keys and values above the topmost mark.
    Dict,
    /// `SETITEM`: sets the key below the top to the top object, in the dict below both.
    SetItem,
    /// `SETITEMS`: sets the keys above the topmost mark to their values, in the dict below it.
    SetItems,
    /// `EMPTY_SET`: a new set.
    EmptySet,
    /// `ADDITEMS`: adds the objects above the topmost mark to the set below it.
    AddItems,
    /// `FROZENSET`: a frozenset of the objects above the topmost mark.
    FrozenSet,
    /// `POP`: removes the top entry of the stack.
    Pop,
    /// `DUP`: pushes the top object again.
    Dup,
    /// `MARK`: a mark.
    Mark,
    /// `POP_MARK`: removes the topmost mark and everything above it.
    PopMark,
    /// `GET`: pushes the memo entry with a number, in a line of decimal digits.
    Get,
    /// `BINGET`: pushes the memo entry with a number of one byte.
    BinGet,
    /// `LONG_BINGET`: pushes the memo entry with a number of four bytes.
    LongBinGet,
    /// `PUT`: stores the top object in the memo under a number, in a line of decimal digits.
    Put,
    /// `BINPUT`: stores the top object in the memo under a number of one byte.
    BinPut,
    /// `LONG_BINPUT`: stores the top object in the memo under a number of four bytes.
    LongBinPut,
    /// `MEMOIZE`: stores the top object in the memo under the number of memo entries.
    Memoize,
    /// `EXT1`: an object from the extension registry (PEP 307), by a code of one byte.
    Ext1,
    /// `EXT2`: an object from the extension registry (PEP 307), by a code of two bytes.
    Ext2,
    /// `EXT4`: an object from the extension registry (PEP 307), by a code of four bytes.
    Ext4,
    /// `GLOBAL`: imports a name from a module, both given as lines.
    Global,
    /// `STACK_GLOBAL`: imports a name from a module, the two top objects.
    StackGlobal,
    /// `REDUCE`: calls the object below the top with the arguments on top.
    Reduce,
    /// `BUILD`: sets the state of the object below the top to the top object.
    Build,
    /// `INST`: an instance of a class named by two lines, made from the objects above the topmost
    /// mark.
    Inst,
    /// `OBJ`: an instance of the class just above the topmost mark, made from the objects above it.
    Obj,
    /// `NEWOBJ`: an instance of the class below the top, made from the arguments on top.
    NewObj,
    /// `NEWOBJ_EX`: an instance of a class, made from arguments and keyword arguments on top.
    NewObjEx,
    /// `PROTO`: the protocol of the pickle.
    Proto,
    /// `STOP`: ends the pickle; the top object is its result.
    Stop,
    /// `FRAME`: begins a frame (PEP 3154), and gives its length in bytes.
    Frame,
    /// `PERSID`: an object outside the pickle, named by a line.
    PersId,
    /// `BINPERSID`: an object outside the pickle, named by the top object.
    BinPersid,
}

/// The kind of an argument, named as its descriptor in `pickletools`.
#[derive(Clone, Copy, Debug, PartialEq, Eq)]
pub enum Kind {
    /// No argument.
    None,
    /// One byte.
    Uint1,
    /// Two bytes, little-endian.
    Uint2,
    /// Four bytes, little-endian, signed.
    Int4,
    /// Four bytes, little-endian.
    Uint4,
    /// Eight bytes, little-endian.
    Uint8,
    /// A float of eight bytes, big-endian.
    Float8,
    /// A line of decimal digits: an int, a bool or a memo number.
    DecimalnlShort,
    /// A line of decimal digits: an int.
    DecimalnlLong,
    /// A line of decimal digits: a float.
    Floatnl,
    /// A line: a string in quotes.
    Stringnl,
    /// A line: the name of an object outside the pickle.
    StringnlNoescape,
    /// A line: text with escapes.
    Unicodestringnl,
    /// Two lines: a module and a name.
    StringnlNoescapePair,
    /// A Python 2 string, after a count of one byte.
    String1,
    /// Bytes, after a count of one byte.
    Bytes1,
    /// An int, after a count of one byte.
    Long1,
    /// UTF-8, after a count of one byte.
    Unicodestring1,
    /// Bytes, after a count of four bytes.
    Bytes4,
    /// UTF-8, after a count of four bytes.
    Unicodestring4,
    /// A Python 2 string, after a signed count of four bytes.
    String4,
    /// An int, after a signed count of four bytes.
    Long4,
    /// Bytes, after a count of eight bytes.
    Bytes8,
    /// A bytearray, after a count of eight bytes.
    Bytearray8,
    /// UTF-8, after a count of eight bytes.
    Unicodestring8,
}

/// A row of the opcode table.
#[derive(Clone, Copy, Debug, PartialEq, Eq)]
pub struct Row {
    /// The byte that begins the instruction.
    pub code: u8,
    /// The name in `pickletools`.
    pub name: &'static str,
    /// The kind of the argument.
    pub kind: Kind,
    /// The first protocol with this opcode.
    pub proto: u8,
}
