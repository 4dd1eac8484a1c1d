//! The command line, as `clap` gets it.
ghost use Rattle.std.specs.Prelude.{◌≡◌, IfOk, IsOkAnd, false};
ghost use Rattle.clap.specs.Words.{AddsArg, AddsSubcommand, app_of, rule_of};
ghost use Rattle.pkargs.specs.Command.{IsCheck, IsLocal, IsOldRule, IsProgram, all_rule};
ghost use Rattle.pkargs.specs.Command.{allow_rule, bare_app, bill_rule, file_app, file_rule};
ghost use Rattle.pkargs.specs.Command.{one_rule, optimize_app, out_rule};

use crate::help::{CHECKED, IMPORTS, JSON, LINES, OPTIMIZED, STATUSES, VERSION};
use clap::{Arg, ArgAction, Command};
use std::alloc::{AllocError, Global};

/// How Python 2 strings may be decoded, the default first.
static OLD_WORDS: [&str; 3] = ["unknown", "ascii", "bytes"];

/// The command line of the program: one subcommand, which is required.
pub fn program<'a>(alloc: Global) -> Result<Command<'a>, AllocError>
    ensures { IfOk result (λ command. IsProgram (app_of command)) }
{
    let dis = file_command(alloc, "dis", "Lists the instructions of a pickle", LINES);
    let imports = file_command(alloc, "imports", "Lists the imports of a pickle", IMPORTS);
    let json = file_command(alloc, "json", "Converts a plain pickle to JSON", JSON);
    let program = with_subcommand(Ok(bare_program(alloc)), dis);
    let program = with_subcommand(program, check_command(alloc));
    let program = with_subcommand(program, imports);
    let program = with_subcommand(program, optimize_command(alloc));
    with_subcommand(program, json)
}

/// A command with one more subcommand. Errors are passed in, since each `?` in a chain of such
/// calls would be proved with all that is dropped there.
fn with_subcommand<'a>(
    command: Result<Command<'a>, AllocError>,
    more: Result<Command<'a>, AllocError>,
) -> Result<Command<'a>, AllocError>
    ensures { IfOk result (λ whole.
        IsOkAnd command.entry (λ old. IsOkAnd more.entry (λ sub. AddsSubcommand old sub whole))) }
{
    command?.subcommand(more?)
}

/// The program without its subcommands.
fn bare_program<'a>(alloc: Global) -> Command<'a>
    ensures { app_of result ≡ bare_app }
{
    Command::new(alloc, "pktool")
        .about("Shows which names a pickle would import, without loading it")
        .version(VERSION)
        .after_help(STATUSES)
        .subcommand_required(true)
        .disable_help_subcommand(true)
}

/// A subcommand `NAME FILE`, with the text of its help.
fn file_command<'a>(
    alloc: Global,
    name: &'a str,
    about: &'a str,
    lines: &'a str,
) -> Result<Command<'a>, AllocError>
    ensures { IfOk result (IsLocal (file_app name.entry.now)) }
{
    Command::new(alloc, name)
        .about(about)
        .after_help(lines)
        .arg(file_argument(alloc))
}

/// `check --allow LIST [--old-strings OBJECT] [--all [--one-unpickler]] [--bill] FILE`.
fn check_command<'a>(alloc: Global) -> Result<Command<'a>, AllocError>
    ensures { IfOk result IsCheck }
{
    let command = Command::new(alloc, "check")
        .about("Checks that a pickle is well formed and imports only listed names")
        .after_help(CHECKED)
        .arg(allow_option(alloc));
    let command = with_argument(command, old_option(alloc));
    let command = with_argument(command, all_flag(alloc));
    let command = with_argument(command, one_flag(alloc));
    let command = with_argument(command, bill_flag(alloc));
    with_argument(command, file_argument(alloc))
}

/// A command with one more argument.
fn with_argument<'a>(
    command: Result<Command<'a>, AllocError>,
    arg: Arg<'a>,
) -> Result<Command<'a>, AllocError>
    ensures { IfOk result (λ whole. IsOkAnd command.entry (λ old. AddsArg old arg.entry whole)) }
{
    command?.arg(arg)
}

/// `--allow LIST`.
fn allow_option<'a>(alloc: Global) -> Arg<'a>
    ensures rule { rule_of result ≡ allow_rule }
    ensures local { result.global ≡ false }
{
    Arg::new(alloc, "LIST")
        .long("allow")
        .help("The TOML file that lists the permitted imports")
        .required(true)
}

/// `--old-strings OBJECT`.
fn old_option<'a>(alloc: Global) -> Arg<'a>
    ensures rule { IsOldRule (rule_of result) }
    ensures local { result.global ≡ false }
{
    Arg::new(alloc, "OBJECT")
        .long("old-strings")
        .help("How the loader decodes Python 2 strings: in any way, as ASCII text, or as bytes")
        .value_parser(OLD_WORDS.as_slice())
        .default_value("unknown")
}

/// `--all`.
fn all_flag<'a>(alloc: Global) -> Arg<'a>
    ensures rule { rule_of result ≡ all_rule }
    ensures local { result.global ≡ false }
{
    Arg::new(alloc, "all")
        .long("all")
        .help("Checks every pickle in FILE, up to its end")
        .action(ArgAction::SetTrue)
}

/// `--one-unpickler`, which requires `--all`.
fn one_flag<'a>(alloc: Global) -> Arg<'a>
    ensures rule { rule_of result ≡ one_rule }
    ensures local { result.global ≡ false }
{
    Arg::new(alloc, "one-unpickler")
        .long("one-unpickler")
        .help("With --all, for a loader that reads them with one Unpickler, which keeps its memo")
        .action(ArgAction::SetTrue)
}

/// `--bill`.
fn bill_flag<'a>(alloc: Global) -> Arg<'a>
    ensures rule { rule_of result ≡ bill_rule }
    ensures local { result.global ≡ false }
{
    Arg::new(alloc, "bill")
        .long("bill")
        .help("Reports what loading costs: the weight of the keys, and memory")
        .action(ArgAction::SetTrue)
}

/// `FILE`.
fn file_argument<'a>(alloc: Global) -> Arg<'a>
    ensures rule { rule_of result ≡ file_rule }
    ensures local { result.global ≡ false }
{
    Arg::new(alloc, "FILE").help("The pickle").required(true)
}

/// `optimize FILE OUT`.
fn optimize_command<'a>(alloc: Global) -> Result<Command<'a>, AllocError>
    ensures { IfOk result (IsLocal optimize_app) }
{
    let command = Command::new(alloc, "optimize")
        .about("Rewrites a pickle in fewer bytes")
        .after_help(OPTIMIZED)
        .arg(file_argument(alloc));
    with_argument(command, out_argument(alloc))
}

/// `OUT`.
fn out_argument<'a>(alloc: Global) -> Arg<'a>
    ensures rule { rule_of result ≡ out_rule }
    ensures local { result.global ≡ false }
{
    Arg::new(alloc, "OUT")
        .help("Where to write the optimized pickle")
        .required(true)
}
