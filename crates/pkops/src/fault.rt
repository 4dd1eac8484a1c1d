//! Why bytes begin no instruction.

use std::error::Error;
use std::fmt;

/// Why bytes begin no instruction.
#[derive(Clone, Copy, Debug, PartialEq, Eq)]
pub enum Fault {
    /// The first byte is no opcode's code.
    UnknownOpcode(u8),
    /// A count is negative, or the argument breaks its content rule.
    BadArgument,
    /// A count is above the limit, or a line is longer than its kind allows.
    TooLarge,
}

/// A fault is printed by its name, with the code in parentheses where no opcode has it.
impl fmt::Display for Fault {
    ghost use Rattle.std.specs.Prelude.{Some};
    ghost use Rattle.pkops.specs.Printed.{fault_text};

    ghost output = { λ fault. Some (fault_text fault) };

    fn fmt<W: fmt::Write>(&self, f: &mut fmt::Formatter<W>) -> fmt::Result {
        match *self {
            Fault::UnknownOpcode(code) => write!(f, "UnknownOpcode({code})"),
            Fault::BadArgument => f.write_str("BadArgument"),
            Fault::TooLarge => f.write_str("TooLarge"),
        }
    }
}

impl Error for Fault {}
