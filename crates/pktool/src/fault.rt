//! Why a command ends without an answer.
use pklist::{AllowError, Where};
use std::alloc::AllocError;
use std::io;
use std::io::{ErrorKind, Write};

/// Why a command ends without an answer, with status 2.
#[derive(Debug, Drop)]
pub enum Fault<'a> {
    /// The command line is invalid, as this text says.
    Words(String),
    /// A word of the command line is not UTF-8.
    NotUtf8,
    /// An allocation was refused, for the command line, the output buffer or a part of the answer.
    OutOfMemory,
    /// The file at this path cannot be opened or read.
    Unread(&'a str),
    /// The file LIST is not a list file.
    List(AllowError),
    /// The answer cannot be written.
    Unwritten,
    /// The file at this path cannot be created or written.
    Unmade(&'a str),
}

impl From<AllocError> for Fault<'_> {
    fn from(_error: AllocError) -> Self {
        Fault::OutOfMemory
    }
}

/// The fault for an answer that cannot be written, or has no memory while it is written.
pub fn unwritten<'a>(error: &io::Error) -> Fault<'a> {
    match error.kind() {
        ErrorKind::OutOfMemory => Fault::OutOfMemory,
        _ => Fault::Unwritten,
    }
}

/// Writes the message of a fault, for standard error.
pub fn write_fault<W: Write>(fault: &Fault<'_>, out: &mut W) -> io::Result<()> {
    match fault {
        Fault::Words(text) => out.write_all(text.as_bytes()),
        Fault::NotUtf8 => writeln!(out, "a word of the command line is not UTF-8"),
        Fault::OutOfMemory => writeln!(out, "out of memory"),
        Fault::Unread(name) => writeln!(out, "cannot read {name}"),
        Fault::List(error) => write_list_fault(*error, out),
        Fault::Unwritten => writeln!(out, "cannot write standard output"),
        Fault::Unmade(name) => writeln!(out, "cannot write {name}"),
    }
}

fn write_list_fault<W: Write>(error: AllowError, out: &mut W) -> io::Result<()> {
    match error {
        AllowError::Syntax => writeln!(out, "list: Syntax"),
        AllowError::Shape(part) => {
            let part = name_of(part);
            writeln!(out, "list: Shape({part})")
        }
        AllowError::Version => writeln!(out, "list: Version"),
        AllowError::OutOfMemory => writeln!(out, "list: OutOfMemory"),
    }
}

fn name_of(part: Where) -> &'static str {
    match part {
        Where::Version => "Version",
        Where::TopKey => "TopKey",
        Where::Imports => "Imports",
        Where::Module => "Module",
        Where::Name => "Name",
        Where::Limits => "Limits",
        Where::LimitKey => "LimitKey",
        Where::Limit => "Limit",
        Where::Rules => "Rules",
        Where::RuleKey => "RuleKey",
        Where::Rule => "Rule",
        Where::Substitutes => "Substitutes",
        Where::Substitute => "Substitute",
    }
}
