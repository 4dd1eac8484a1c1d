//! The job in what `clap` matched.
ghost use Rattle.std.specs.Prelude.{◌≡◌, Bool, IfNone, IfOk, IfSome, List, Some, codes};
ghost use Rattle.std.specs.Prelude.{option_map, string_bytes};
ghost use Rattle.clap.specs.Words.{Row, first_of, found_of, rows_of, subcommand_rows_of};
ghost use Rattle.pkargs.specs.Command.{AreForNone, Carries, IsForNone, IsJob, all_text};
ghost use Rattle.pkargs.specs.Command.{flag_text, name_of, old_word, one_text};
ghost use Rattle.pkargs.specs.declared.job.Pickles.{Pickles as SpecPickles};
ghost use Rattle.pkmachine.specs.declared.OldStrings.{OldStrings as SpecStrings};

use crate::job::{Job, Pickles};
use clap::ArgMatches;
use pkmachine::{Memo, OldStrings};
use std::alloc::{AllocError, Global};

/// The job of the subcommand that was found.
pub fn job_of(alloc: Global, matches: &ArgMatches) -> Result<Option<Job>, AllocError>
    ensures job { IfOk result (λ found. IfSome found (IsJob (subcommand_rows_of matches.now))) }
    ensures none { IfOk result (λ found.
        IfNone found (IsForNone (subcommand_rows_of matches.now))) }
{
    if let Some(values) = values_in(matches, "dis") {
        return dis_job(alloc, values);
    }
    if let Some(values) = values_in(matches, "check") {
        return check_job(alloc, values);
    }
    if let Some(values) = values_in(matches, "imports") {
        return imports_job(alloc, values);
    }
    if let Some(values) = values_in(matches, "optimize") {
        return optimize_job(alloc, values);
    }
    if let Some(values) = values_in(matches, "json") {
        return json_job(alloc, values);
    }
    Ok(None)
}

/// The matches of a subcommand, if that is the one found.
fn values_in<'m, 'a>(matches: &'m ArgMatches<'a>, name: &str) -> Option<&'m ArgMatches<'a>>
    ensures some { IfSome result (λ values.
        subcommand_rows_of matches.now ≡ Some (name.now, rows_of (found_of values.now))) }
    ensures none { IfNone result ((rows : List Row)
        → subcommand_rows_of matches.now ≡ Some (name.now, rows) → ⊥) }
{
    matches.subcommand_matches(name)
}

/// The job of `dis`, if its value is there.
fn dis_job(alloc: Global, values: &ArgMatches) -> Result<Option<Job>, AllocError>
    ensures name { IfOk result (λ found. IfSome found (λ job. name_of job ≡ codes "dis")) }
    ensures values { IfOk result (λ found. IfSome found (Carries (rows_of (found_of values.now)))) }
    ensures none { IfOk result (λ found.
        IfNone found (AreForNone (codes "dis") (rows_of (found_of values.now)))) }
{
    let Some(file) = value_of(alloc, values, "FILE")? else {
        return Ok(None);
    };
    Ok(Some(Job::Dis { file }))
}

/// The job of `imports`, if its value is there.
fn imports_job(alloc: Global, values: &ArgMatches) -> Result<Option<Job>, AllocError>
    ensures name { IfOk result (λ found. IfSome found (λ job. name_of job ≡ codes "imports")) }
    ensures values { IfOk result (λ found. IfSome found (Carries (rows_of (found_of values.now)))) }
    ensures none { IfOk result (λ found.
        IfNone found (AreForNone (codes "imports") (rows_of (found_of values.now)))) }
{
    let Some(file) = value_of(alloc, values, "FILE")? else {
        return Ok(None);
    };
    Ok(Some(Job::Imports { file }))
}

/// The job of `optimize`, if its values are there.
fn optimize_job(alloc: Global, values: &ArgMatches) -> Result<Option<Job>, AllocError>
    ensures name { IfOk result (λ found. IfSome found (λ job. name_of job ≡ codes "optimize")) }
    ensures values { IfOk result (λ found. IfSome found (Carries (rows_of (found_of values.now)))) }
    ensures none { IfOk result (λ found.
        IfNone found (AreForNone (codes "optimize") (rows_of (found_of values.now)))) }
{
    let Some(file) = value_of(alloc, values, "FILE")? else {
        return Ok(None);
    };
    let Some(out) = value_of(alloc, values, "OUT")? else {
        return Ok(None);
    };
    Ok(Some(Job::Optimize { file, out }))
}

/// The job of `json`, if its value is there.
fn json_job(alloc: Global, values: &ArgMatches) -> Result<Option<Job>, AllocError>
    ensures name { IfOk result (λ found. IfSome found (λ job. name_of job ≡ codes "json")) }
    ensures values { IfOk result (λ found. IfSome found (Carries (rows_of (found_of values.now)))) }
    ensures none { IfOk result (λ found.
        IfNone found (AreForNone (codes "json") (rows_of (found_of values.now)))) }
{
    let Some(file) = value_of(alloc, values, "FILE")? else {
        return Ok(None);
    };
    Ok(Some(Job::Json { file }))
}

/// The job of `check`, if its values are there.
fn check_job(alloc: Global, values: &ArgMatches) -> Result<Option<Job>, AllocError>
    ensures name { IfOk result (λ found. IfSome found (λ job. name_of job ≡ codes "check")) }
    ensures values { IfOk result (λ found. IfSome found (Carries (rows_of (found_of values.now)))) }
    ensures none { IfOk result (λ found.
        IfNone found (AreForNone (codes "check") (rows_of (found_of values.now)))) }
{
    let Some(allow) = value_of(alloc, values, "LIST")? else {
        return Ok(None);
    };
    let Some(old) = old_of(values) else {
        return Ok(None);
    };
    let Some(pickles) = pickles_of(values) else {
        return Ok(None);
    };
    let Some(bill) = flag_of(values, "bill") else {
        return Ok(None);
    };
    let Some(file) = value_of(alloc, values, "FILE")? else {
        return Ok(None);
    };
    Ok(Some(Job::Check {
        allow,
        old,
        pickles,
        bill,
        file,
    }))
}

/// How Python 2 strings are decoded.
fn old_of(values: &ArgMatches) -> Option<OldStrings>
    ensures some { IfSome result (λ old.
        first_of (codes "OBJECT") (rows_of (found_of values.now)) ≡ Some (old_word old)) }
    ensures none { (old : SpecStrings) → IfNone result
        (first_of (codes "OBJECT") (rows_of (found_of values.now)) ≡ Some (old_word old) → ⊥) }
{
    old_named(text_of(values, "OBJECT")?)
}

fn old_named(word: &str) -> Option<OldStrings>
    ensures some { IfSome result (λ old. word.now ≡ old_word old) }
    ensures none { (old : SpecStrings) → IfNone result (word.now ≡ old_word old → ⊥) }
{
    if word == "unknown" {
        return Some(OldStrings::Unknown);
    }
    if word == "ascii" {
        return Some(OldStrings::Ascii);
    }
    if word == "bytes" {
        return Some(OldStrings::Bytes);
    }
    None
}

/// Which pickles are checked.
fn pickles_of(values: &ArgMatches) -> Option<Pickles>
    ensures all { IfSome result (λ pickles.
        first_of (codes "all") (rows_of (found_of values.now)) ≡ Some (all_text pickles)) }
    ensures one { IfSome result (λ pickles.
        first_of (codes "one-unpickler") (rows_of (found_of values.now))
        ≡ Some (one_text pickles)) }
    ensures none { (pickles : SpecPickles) → IfNone result
        (first_of (codes "all") (rows_of (found_of values.now)) ≡ Some (all_text pickles)
        → first_of (codes "one-unpickler") (rows_of (found_of values.now))
        ≡ Some (one_text pickles) → ⊥) }
{
    let all = flag_of(values, "all")?;
    let one = flag_of(values, "one-unpickler")?;
    match (all, one) {
        (false, false) => Some(Pickles::First),
        (true, false) => Some(Pickles::Row(Memo::Fresh)),
        (true, true) => Some(Pickles::Row(Memo::Kept)),
        // one Unpickler for a single pickle is no choice
        (false, true) => None,
    }
}

/// The value of a flag.
fn flag_of(values: &ArgMatches, id: &str) -> Option<bool>
    ensures some { IfSome result (λ flag.
        first_of id.now (rows_of (found_of values.now)) ≡ Some (flag_text flag)) }
    ensures none { (flag : Bool) → IfNone result
        (first_of id.now (rows_of (found_of values.now)) ≡ Some (flag_text flag) → ⊥) }
{
    flag_named(text_of(values, id)?)
}

fn flag_named(text: &str) -> Option<bool>
    ensures some { IfSome result (λ flag. text.now ≡ flag_text flag) }
    ensures none { (flag : Bool) → IfNone result (text.now ≡ flag_text flag → ⊥) }
{
    if text == "true" {
        return Some(true);
    }
    if text == "false" {
        return Some(false);
    }
    None
}

/// A copy of the value of an argument.
fn value_of(alloc: Global, values: &ArgMatches, id: &str) -> Result<Option<String>, AllocError>
    ensures { IfOk result (λ found.
        option_map string_bytes found ≡ first_of id.now (rows_of (found_of values.now))) }
{
    match text_of(values, id) {
        Some(text) => Ok(Some(String::from_str(alloc, text)?)),
        None => Ok(None),
    }
}

/// The value of an argument, given or default.
fn text_of<'a>(values: &ArgMatches<'a>, id: &str) -> Option<&'a str>
    ensures { option_map (λ text. text.now) result
        ≡ first_of id.now (rows_of (found_of values.now)) }
{
    values.get_str(id)
}
