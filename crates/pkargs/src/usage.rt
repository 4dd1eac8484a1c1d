//! Why a command line has no job.
ghost use Rattle.std.specs.Prelude.{◌≡◌};
ghost use Rattle.clap.specs.Words.{kind_of};
ghost use Rattle.clap.specs.declared.error.kind.ErrorKind.TheVariants as kind;

use clap::error::ErrorKind;
use std::alloc::Global;

/// Why a command line has no job.
#[derive(Debug, Drop)]
pub enum Usage {
    /// It asks for the help or the version, which is this text.
    Asked(String),
    /// It is invalid, as this text says.
    Invalid(String),
    /// An allocation was refused.
    OutOfMemory,
}

/// What an error or message of `clap` tells the user.
pub fn usage_of(alloc: Global, error: &clap::Error) -> Usage
    ensures { kind_of error.now ≡ kind.OutOfMemory → result ≡ Usage.OutOfMemory }
{
    let Ok(text) = format!(in alloc; "{error}") else {
        return Usage::OutOfMemory;
    };
    match error.kind() {
        ErrorKind::OutOfMemory => Usage::OutOfMemory,
        ErrorKind::DisplayHelp | ErrorKind::DisplayVersion => Usage::Asked(text),
        _ => Usage::Invalid(text),
    }
}
