//! The parts of an opcode's effect, as in the specification.

/// The classes of objects that opcodes make, except text.
#[derive(Clone, Copy)]
pub enum Class {
    None,
    Bool,
    Int,
    Float,
    Bytes,
    ByteArray,
    List,
    Tuple,
    Dict,
    Set,
    FrozenSet,
}

/// Where the pair of an import comes from.
#[derive(Clone, Copy)]
pub enum Names {
    NoName,
    OfArgument,
    OfOperands,
}

/// The class that a receiver must have.
#[derive(Clone, Copy)]
pub enum Wanted {
    WantsAny,
    WantsList,
    WantsDict,
    WantsSet,
}

/// What an operation leaves on the stack.
#[derive(Clone, Copy)]
pub enum Gives {
    Makes(Class),
    MakesIntOrBool,
    MakesText,
    MayMake(Class),
    Answers,
    Leaves(Wanted),
}
