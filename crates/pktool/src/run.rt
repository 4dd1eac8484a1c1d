//! Runs a whole command over the files and streams of the host.
ghost use Rattle.std.specs.Prelude.{◌≡◌, ◌<◌, ◌≤◌, IfOk, map};
ghost use Rattle.std.specs.Io.Buffered.{writer_contents, writer_inner};
ghost use Rattle.std.specs.Io.KnownBytes.{Appends, Keeps};
ghost use Rattle.pkops.specs.Printed.{refusal_text};
ghost use Rattle.pkprint.specs.Verdict.{no_line};
ghost use Rattle.pktool.specs.Answers.{AreImports, IsAnswer, IsAnswerTo, IsCheck, IsExport};
ghost use Rattle.pktool.specs.Answers.{IsListing, IsOptimization, IsShown};
ghost use Rattle.pktool.specs.Ends.{HasAnswer, Reports, Stays, Writes};

use crate::checking::{Words, check_source};
use crate::exporting::json_to;
use crate::fault::{Fault, unwritten, write_fault};
use crate::files::{open_source, read_list, read_rest};
use crate::host::{Host, NewFile};
use crate::optimizing::{Unoptimized, optimize_to};
use pkargs::{Job, Usage, command_of};
use pkops::{Limits, Reason, Refusal};
use pkprint::{Outcome, dis_to, imports_to, write_no};
use std::alloc::Global;
use std::io::{BufWriter, Write};

/// The answer is a yes, or help that was requested.
const DONE: u8 = 0;
/// The answer is a no.
const REFUSED: u8 = 1;
/// There is no answer: the command line, the list or a file is at fault.
const FAULT: u8 = 2;

/// An allocation for the content of a file was refused.
const NO_MEMORY: Refusal = Refusal {
    at: 0,
    reason: Reason::OutOfMemory,
};

/// Runs a command line, whose first word is the program's name, and returns the status: 0 for a yes
/// or for help that was requested, 1 for a no, 2 for a fault.
///
/// The answer goes to `out`, which is flushed, and faults go to `err`. With the status 0 or 1 the
/// writer behind `out` has what `out` held before and then the answer. Faults are detected in this
/// order: the command line, the list, the file that is read, the answer, the file that is written.
/// Failing to write the answer is a fault, also if `out` is a closed pipe. Failing to write to
/// `err` changes nothing.
pub fn run<H: Host, O: Write + Drop, E: Write>(
    host: &H,
    alloc: Global,
    words: &[&str],
    out: &mut BufWriter<O>,
    err: &mut E,
) -> u8
    ensures status { result ≤ 2 }
    ensures answered { result < 2
        → Reports (writer_contents O.contents out.old) (O.contents (writer_inner out.new))
        (IsAnswer (H.content host.now) (H.puts host.now) (map (λ word. word.now) words.now))
        result }
{
    match command_of(alloc, words) {
        Ok(job) => status_of(done(host, alloc, &job, out), out, err),
        Err(usage) => status_of(shown(usage, out), out, err),
    }
}

/// Runs a job over the files of the host.
fn done<'a, H: Host, O: Write>(
    host: &H,
    alloc: Global,
    job: &'a Job,
    out: &mut O,
) -> Result<Outcome, Fault<'a>>
    ensures { IfOk result (Writes (O.contents out.old) (O.contents out.new)
        (IsAnswerTo (H.content host.now) (H.puts host.now) job.now)) }
{
    match job {
        Job::Dis { file } => dis_file(host, alloc, file.as_str(), out),
        Job::Imports { file } => imports_file(host, alloc, file.as_str(), out),
        Job::Check {
            allow,
            old,
            pickles,
            bill,
            file,
        } => {
            let words = Words {
                old: *old,
                pickles: *pickles,
                bill: *bill,
            };
            check_file(host, alloc, allow.as_str(), file.as_str(), &words, out)
        }
        Job::Json { file } => json_file(host, alloc, file.as_str(), out),
        Job::Optimize { file, out: to } => {
            optimize_file(host, alloc, file.as_str(), to.as_str(), out)
        }
    }
}

/// `check --allow LIST [--old-strings OBJECT] [--all [--one-unpickler]] [--bill] FILE`, under the
/// limits of the list.
fn check_file<'a, H: Host, O: Write>(
    host: &H,
    alloc: Global,
    allow: &'a str,
    file: &'a str,
    words: &Words,
    out: &mut O,
) -> Result<Outcome, Fault<'a>>
    ensures { IfOk result (Writes (O.contents out.old) (O.contents out.new)
        (IsCheck (H.content host.now allow.now) words.now.old words.now.pickles words.now.bill
        (H.content host.now file.now))) }
{
    let list = read_list(host, alloc, allow)?;
    let Ok(mut source) = open_source(host, alloc, file) else {
        return Err(Fault::Unread(file));
    };
    match check_source(alloc, &mut source, &list, words, out) {
        Ok(outcome) => Ok(outcome),
        Err(error) => Err(unwritten(&error)),
    }
}

/// `dis FILE`.
fn dis_file<'a, H: Host, O: Write>(
    host: &H,
    alloc: Global,
    file: &'a str,
    out: &mut O,
) -> Result<Outcome, Fault<'a>>
    ensures { IfOk result (Writes (O.contents out.old) (O.contents out.new)
        (IsListing (H.content host.now file.now))) }
{
    let Ok(mut source) = open_source(host, alloc, file) else {
        return Err(Fault::Unread(file));
    };
    match dis_to(alloc, &mut source, &Limits::STANDARD, out) {
        Ok(outcome) => Ok(outcome),
        Err(error) => Err(unwritten(&error)),
    }
}

/// `imports FILE`.
fn imports_file<'a, H: Host, O: Write>(
    host: &H,
    alloc: Global,
    file: &'a str,
    out: &mut O,
) -> Result<Outcome, Fault<'a>>
    ensures { IfOk result (Writes (O.contents out.old) (O.contents out.new)
        (AreImports (H.content host.now file.now))) }
{
    let Ok(mut source) = open_source(host, alloc, file) else {
        return Err(Fault::Unread(file));
    };
    match imports_to(alloc, &mut source, &Limits::STANDARD, out) {
        Ok(outcome) => Ok(outcome),
        Err(error) => Err(unwritten(&error)),
    }
}

/// `json FILE`.
fn json_file<'a, H: Host, O: Write>(
    host: &H,
    alloc: Global,
    file: &'a str,
    out: &mut O,
) -> Result<Outcome, Fault<'a>>
    ensures { IfOk result (Writes (O.contents out.old) (O.contents out.new)
        (IsExport (H.content host.now file.now))) }
{
    let Ok(mut source) = open_source(host, alloc, file) else {
        return Err(Fault::Unread(file));
    };
    match json_to(alloc, &mut source, &Limits::STANDARD, out) {
        Ok(outcome) => exported(outcome, file),
        Err(error) => Err(unwritten(&error)),
    }
}

/// The outcome of an export with an answer. Without one, the file could not be read.
fn exported<'a>(outcome: Outcome, file: &'a str) -> Result<Outcome, Fault<'a>>
    ensures { IfOk result (λ same. (same ≡ outcome) × HasAnswer outcome) }
{
    match outcome {
        Outcome::Done => Ok(Outcome::Done),
        Outcome::Refused => Ok(Outcome::Refused),
        Outcome::Unread => Err(Fault::Unread(file)),
    }
}

/// `optimize FILE OUT`.
fn optimize_file<'a, H: Host, O: Write>(
    host: &H,
    alloc: Global,
    file: &'a str,
    to: &'a str,
    out: &mut O,
) -> Result<Outcome, Fault<'a>>
    ensures { IfOk result (Writes (O.contents out.old) (O.contents out.new)
        (IsOptimization (H.content host.now file.now) (H.puts host.now to.now))) }
{
    let Ok(mut input) = host.open(file) else {
        return Err(Fault::Unread(file));
    };
    let Some(bytes) = read_rest(alloc, &mut input, file)? else {
        return refused(NO_MEMORY, out);
    };
    let mut place = NewFile::new(host, alloc, to, &input);
    match optimize_to(alloc, bytes.as_slice(), &Limits::STANDARD, &mut place, out) {
        Ok(outcome) => Ok(outcome),
        Err(Unoptimized::Unmade) => Err(Fault::Unmade(to)),
        Err(Unoptimized::Unwritten(error)) => Err(unwritten(&error)),
    }
}

/// Reports a refusal.
fn refused<'a, O: Write>(refusal: Refusal, out: &mut O) -> Result<Outcome, Fault<'a>>
    ensures { IfOk result (λ outcome. (outcome ≡ Outcome.Refused)
        × Appends (O.contents out.old) (O.contents out.new) (no_line (refusal_text refusal))) }
{
    match write_no(&refusal, out) {
        Ok(()) => Ok(Outcome::Refused),
        Err(error) => Err(unwritten(&error)),
    }
}

/// Shows the text that was requested; any other usage is a fault.
fn shown<'a, O: Write>(usage: Usage, out: &mut O) -> Result<Outcome, Fault<'a>>
    ensures { IfOk result (Writes (O.contents out.old) (O.contents out.new) (IsShown usage)) }
{
    match usage {
        Usage::Asked(text) => match out.write_all(text.as_bytes()) {
            Ok(()) => Ok(Outcome::Done),
            Err(error) => Err(unwritten(&error)),
        },
        Usage::Invalid(text) => Err(Fault::Words(text)),
        Usage::OutOfMemory => Err(Fault::OutOfMemory),
    }
}

/// The status of a command that ended. Flushes its answer, or reports its fault.
fn status_of<O: Write + Drop, E: Write>(
    ended: Result<Outcome, Fault<'_>>,
    out: &mut BufWriter<O>,
    err: &mut E,
) -> u8
    ensures status { result ≤ 2 }
    ensures stays { result < 2 → Stays ended.entry
        (writer_contents O.contents out.old) (O.contents (writer_inner out.new)) result }
{
    match flushed(ended, out) {
        Ok(Outcome::Done) => DONE,
        Ok(Outcome::Refused) => REFUSED,
        Ok(Outcome::Unread) => FAULT,
        Err(fault) => {
            let _ = write_fault(&fault, err);
            FAULT
        }
    }
}

/// Flushes an answer, which counts only then.
fn flushed<'a, O: Write + Drop>(
    ended: Result<Outcome, Fault<'a>>,
    out: &mut BufWriter<O>,
) -> Result<Outcome, Fault<'a>>
    ensures { IfOk result (λ outcome. (ended.entry ≡ Ok outcome)
        × Keeps (writer_contents O.contents out.old) (O.contents (writer_inner out.new))) }
{
    let outcome = ended?;
    match out.flush() {
        Ok(()) => Ok(outcome),
        Err(error) => Err(unwritten(&error)),
    }
}
