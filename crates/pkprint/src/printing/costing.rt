//! The lines of a check that also bounds what loading costs.
ghost use Rattle.std.specs.Prelude.{IfSome, OnOk};
ghost use Rattle.std.specs.Io.KnownBytes.{Appends};
ghost use Rattle.pkprint.specs.Costs.{accepted_line, bill_line, costing_lines, refused_line};
ghost use Rattle.pkprint.specs.Costs.{yes_lines};

use crate::printing::verdict::{write_no, write_yes, write_yes_all};
use pkcheck::{Extent, RefusedPickle, YesAll};
use pkload::{Costly, Tally, YesWithBill};
use std::fmt::Display;
use std::io;
use std::io::Write;

/// Writes the lines of an answer, with the bill of a yes if it is asked for.
pub fn write_costing<W: Write>(
    answer: &Result<Result<YesWithBill, RefusedPickle>, Costly>,
    extent: Extent,
    bill: bool,
    out: &mut W,
) -> io::Result<()>
    ensures { OnOk result (Appends (W.contents out.old) (W.contents out.new)
        (costing_lines extent bill answer.now)) }
{
    match answer {
        Ok(Ok(yes)) => write_billed(yes, extent, bill, out),
        Ok(Err(refused)) => write_refused(extent, refused.pickle, &refused.no, out),
        Err(costly) => write_refused(extent, costly.pickle, costly, out),
    }
}

fn write_billed<W: Write>(
    yes: &YesWithBill,
    extent: Extent,
    bill: bool,
    out: &mut W,
) -> io::Result<()>
    ensures { OnOk result (Appends (W.contents out.old) (W.contents out.new)
        (yes_lines extent bill yes.now)) }
{
    write_accepted(&yes.yes, extent, out)?;
    if bill {
        write_bill(&yes.tally, yes.memory, out)
    } else {
        Ok(())
    }
}

/// Writes the line of a yes about one pickle, or about a row.
fn write_accepted<W: Write>(yes: &YesAll, extent: Extent, out: &mut W) -> io::Result<()>
    ensures { OnOk result (Appends (W.contents out.old) (W.contents out.new)
        (accepted_line extent yes.now)) }
{
    match extent {
        Extent::OnePickle => write_yes(yes.taken, yes.imports.len(), out),
        Extent::ToTheEnd => write_yes_all(yes, out),
    }
}

fn write_bill<W: Write>(tally: &Tally, memory: u64, out: &mut W) -> io::Result<()>
    ensures { OnOk result (Appends (W.contents out.old) (W.contents out.new)
        (bill_line tally.now memory)) }
{
    let Tally {
        levels,
        weight,
        work,
        clash,
        ..
    } = *tally;
    writeln!(
        out,
        "bill: levels {levels}, weight {weight}, work {work}, clash {clash}, memory {memory}"
    )
}

/// Writes the line of a refusal of one pickle, or of the pickle of a row that has this number.
fn write_refused<D: Display, W: Write>(
    extent: Extent,
    pickle: u64,
    refusal: &D,
    out: &mut W,
) -> io::Result<()>
    ensures { IfSome (D.output refusal.now) (λ text.
        OnOk result (Appends (W.contents out.old) (W.contents out.new)
        (refused_line extent pickle text))) }
{
    match extent {
        Extent::OnePickle => write_no(refusal, out),
        Extent::ToTheEnd => writeln!(out, "no in pickle {pickle} {refusal}"),
    }
}
