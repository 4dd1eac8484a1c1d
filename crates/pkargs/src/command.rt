//! The job that a command line asks for.
ghost use Rattle.std.specs.Prelude.{◌≡◌, ◌⊎◌, IfErr, IfOk, map};
ghost use Rattle.clap.specs.Words.{kind_of};
ghost use Rattle.clap.specs.declared.error.kind.ErrorKind.TheVariants as kind;
ghost use Rattle.pkargs.specs.Command.{AsksForJob, AsksForNone};
ghost use Rattle.pkargs.specs.declared.usage.Usage.TheVariants.{OutOfMemory};

use crate::building::program;
use crate::job::Job;
use crate::matched::job_of;
use crate::usage::{Usage, usage_of};
use clap::error::ErrorKind;
use std::alloc::{AllocError, Global};

/// The job in a command line, whose first word is the program's name.
///
/// # Errors
///
/// `Asked` if the command line asks for the help or the version; `Invalid` if it has no job;
/// `OutOfMemory` if an allocation was refused. A command line that has a job is refused only if
/// memory runs out.
pub fn command_of(alloc: Global, words: &[&str]) -> Result<Job, Usage>
    ensures job { IfOk result (AsksForJob (map (λ word. word.now) words.now)) }
    ensures none { IfErr result (λ usage. (usage ≡ OutOfMemory)
        ⊎ AsksForNone (map (λ word. word.now) words.now)) }
{
    match parsed(alloc, words) {
        Ok(job) => Ok(job),
        Err(error) => Err(usage_of(alloc, &error)),
    }
}

/// The job in a command line, or the error or message of `clap`.
fn parsed(alloc: Global, words: &[&str]) -> Result<Job, clap::Error>
    ensures job { IfOk result (AsksForJob (map (λ word. word.now) words.now)) }
    ensures none { IfErr result (λ error. (kind_of error ≡ kind.OutOfMemory)
        ⊎ AsksForNone (map (λ word. word.now) words.now)) }
{
    let matches = program(alloc)?.try_get_matches_from(words)?;
    match job_of(alloc, &matches)? {
        Some(job) => Ok(job),
        None => Err(no_row(alloc)?),
    }
}

/// The error for `--one-unpickler` without `--all`: of the words that clap accepts, only these are
/// no job.
fn no_row(alloc: Global) -> Result<clap::Error, AllocError> {
    let kind = ErrorKind::MissingRequiredArgument;
    program(alloc)?.error(kind, "--one-unpickler requires --all")
}
