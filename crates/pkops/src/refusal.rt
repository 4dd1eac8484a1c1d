//! Why a pickle is refused, and where.

ghost use Rattle.std.specs.Prelude.{◌≡◌};
ghost use Rattle.pkops.specs.Printed.{reason_name, number_told};

use std::alloc::{AllocError, AllocFailed};
use std::error::Error;
use std::fmt;

/// Why a pickle is refused. The variants are in the order in which they are checked for one
/// instruction, with two exceptions: `TooLarge` for the stack or the memo is checked last, and
/// `OutOfMemory` may replace any answer of a call that allocates.
#[derive(Clone, Copy, Debug, Drop, PartialEq, Eq)]
pub enum Reason {
    /// A read of the source failed.
    Source,
    /// The source ended inside an instruction or before STOP.
    Truncated,
    /// A byte that is no opcode.
    UnknownOpcode(u8),
    /// A count is negative, or an argument breaks the rule for its contents.
    BadArgument,
    /// A limit was exceeded: on a payload, a line, the stack, the memo or the bytes taken.
    TooLarge,
    /// EXT1, EXT2 or EXT4, which name objects in a registry (PEP 307) outside the pickle.
    ExtensionCode,
    /// A PROTO with this protocol, which is above 5.
    UnsupportedProtocol(u8),
    /// A FRAME inside a frame, an instruction across the end of a frame, or a STOP before the end
    /// of one.
    BrokenFrame,
    /// A mark is needed, but the stack has none.
    MissingMark,
    /// Too few objects are above the topmost mark, no object is directly below that mark, or the
    /// stack is empty.
    MissingItem,
    /// The memo has no entry of this number.
    MissingMemo(u32),
    /// An odd number of objects where keys and values are needed.
    OddItems,
    /// The object that receives items is known to have another class.
    WrongClass,
    /// The module or the name of a STACK_GLOBAL is known not to be a text.
    NotText,
    /// The module or the name of a STACK_GLOBAL is not a known text, and there is an allow list.
    UnknownImport,
    /// The import is not on the list.
    ImportOffList,
    /// Something besides the result is left at STOP.
    LeftOver,
    /// An allocation was refused.
    OutOfMemory,
    /// A Python 2 string has a byte above 7f, and such strings are decoded as ASCII.
    NotAscii,
}

/// A reason is printed by its name, with its number in parentheses if it has one.
impl fmt::Display for Reason {
    ghost use Rattle.std.specs.Prelude.{Some};
    ghost use Rattle.pkops.specs.Printed.{reason_text};

    ghost output = { λ reason. Some (reason_text reason) };

    fn fmt<W: fmt::Write>(&self, f: &mut fmt::Formatter<W>) -> fmt::Result {
        let name = name_of(*self);
        match number_of(*self) {
            Some(number) => write!(f, "{name}({number})"),
            None => f.write_str(name),
        }
    }
}

impl Error for Reason {}

fn name_of(reason: Reason) -> &'static str
    ensures { result.now ≡ reason_name reason }
{
    match reason {
        Reason::Source => "Source",
        Reason::Truncated => "Truncated",
        Reason::UnknownOpcode(_) => "UnknownOpcode",
        Reason::BadArgument => "BadArgument",
        Reason::TooLarge => "TooLarge",
        Reason::ExtensionCode => "ExtensionCode",
        Reason::UnsupportedProtocol(_) => "UnsupportedProtocol",
        Reason::BrokenFrame => "BrokenFrame",
        Reason::MissingMark => "MissingMark",
        Reason::MissingItem => "MissingItem",
        Reason::MissingMemo(_) => "MissingMemo",
        Reason::OddItems => "OddItems",
        Reason::WrongClass => "WrongClass",
        Reason::NotText => "NotText",
        Reason::UnknownImport => "UnknownImport",
        Reason::ImportOffList => "ImportOffList",
        Reason::LeftOver => "LeftOver",
        Reason::OutOfMemory => "OutOfMemory",
        Reason::NotAscii => "NotAscii",
    }
}

fn number_of(reason: Reason) -> Option<u32>
    ensures { result ≡ number_told reason }
{
    match reason {
        Reason::UnknownOpcode(code) => Some(u32::from(code)),
        Reason::UnsupportedProtocol(version) => Some(u32::from(version)),
        Reason::MissingMemo(number) => Some(number),
        _ => None,
    }
}

impl From<AllocError> for Reason {
    ghost use Rattle.std.specs.Prelude.{◌≡◌};
    ghost use Rattle.pkops.specs.declared.refusal.Reason.TheVariants.{OutOfMemory};

    ghost from_gives = { λ _ reason. reason ≡ OutOfMemory };

    fn from(_refused: AllocError) -> Reason {
        Reason::OutOfMemory
    }
}

impl<T: Drop> From<AllocFailed<T>> for Reason {
    ghost use Rattle.std.specs.Prelude.{◌≡◌};
    ghost use Rattle.pkops.specs.declared.refusal.Reason.TheVariants.{OutOfMemory};

    ghost from_gives = { λ _ reason. reason ≡ OutOfMemory };

    fn from(_refused: AllocFailed<T>) -> Reason {
        Reason::OutOfMemory
    }
}

/// A refusal: an offset and a reason.
#[derive(Clone, Copy, Debug, Drop, PartialEq, Eq)]
pub struct Refusal {
    /// The offset of the first byte of the refused instruction, or of the place where it would
    /// begin, counted from the first byte taken.
    pub at: u64,
    /// Why the instruction is refused.
    pub reason: Reason,
}

/// A refusal is printed as `at P: REASON`.
impl fmt::Display for Refusal {
    ghost use Rattle.std.specs.Prelude.{Some};
    ghost use Rattle.pkops.specs.Printed.{refusal_text};

    ghost output = { λ refusal. Some (refusal_text refusal) };

    fn fmt<W: fmt::Write>(&self, f: &mut fmt::Formatter<W>) -> fmt::Result {
        let Refusal { at, reason } = *self;
        write!(f, "at {at}: {reason}")
    }
}

impl Error for Refusal {}
