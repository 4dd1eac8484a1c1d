//! Optimizes a pickle.
//!
//! A listener records 4 bytes for each memo instruction and FRAME; what lies between two of them is
//! copied in one piece. If there is no memory for a record, the pickle is checked again without a
//! listener, since a refusal of the check comes before `OutOfMemory`.

ghost use Rattle.std.specs.Prelude.{◌≡◌, ◌<◌, ◌≤◌, ◌^◌, ◌⊎◌, IfErr, IfNone, IfOk, IfSome, OnOk};
ghost use Rattle.std.specs.Prelude.{List, None, Some, []};
ghost use Rattle.pkops.specs.Spelling.{Instruction};
ghost use Rattle.pkops.specs.declared.Reason.TheVariants as reason;
ghost use Rattle.pkopt.specs.Answer.{IsNotOptimized, Optimizes, Checks, FailsCheck, TakesAsChecked};
ghost use Rattle.pkopt.specs.Private.Fates.{IsPlanFor};
ghost use Rattle.pkopt.specs.Private.Places.{end_behind, places_behind};
ghost use Rattle.pkopt.specs.Private.Produced.{first_past};
ghost use Rattle.pkopt.specs.Private.TracedCheck.{IsTraced};
ghost use Rattle.pkopt.specs.Writers.{sources as sources_of};

use crate::fate::Plan;
use crate::numbers::new_numbers;
use crate::packed::PackedPart;
use crate::slim::first_past;
use crate::sources::Sources;
use crate::trace::Trace;
use crate::writing::{Form, Parts};
use pkcheck::laws::same_ends;
use pkcheck::{Policy, check, check_heard};
use pkops::{Limits, Reason, Refusal};
use pkread::Memory;
use pkread::laws::framed;
use std::alloc::{AllocError, Global};

/// The refusal after a refused allocation outside the check.
fn lacks_memory() -> Refusal
    ensures at { result.at ≡ 0 }
    ensures reason { result.reason ≡ reason.OutOfMemory }
{
    Refusal {
        at: 0,
        reason: Reason::OutOfMemory,
    }
}

/// Plans what happens to the memo instructions of a pickle.
fn plan_of(alloc: Global, sources: Sources, limits: &Limits) -> Result<Plan, AllocError>
    ensures plan { IfOk result (λ plan. (p : List Instruction) → sources.items ≡ sources_of [] p →
        IsPlanFor p plan) }
    ensures limit { IfOk result (λ plan. plan.limit ≡ limits.now.memo) }
    ensures small { IfOk result (λ plan. plan.limit < 2 ^ 32) }
{
    let limit = limits.memo() as u32;
    let numbers = new_numbers(alloc, &sources, limit)?;
    Ok(Plan {
        sources,
        numbers,
        limit,
    })
}

/// Checks the pickle at the front of the bytes, permitting every import. It holds all payloads,
/// under one limit.
fn checked(alloc: Global, bytes: &[u8], limits: &Limits) -> Result<(), Refusal>
    ensures ok { OnOk result (Checks limits.now bytes.now) }
    ensures err { IfErr result (λ refusal. FailsCheck limits.now bytes.now refusal) }
{
    let mut source = Memory::new(bytes);
    match check(
        alloc,
        &mut source,
        &Policy::AnyImport,
        &limits.holding_all(),
    ) {
        Ok(_) => Ok(()),
        Err(no) => Err(Refusal {
            at: no.at,
            reason: no.reason,
        }),
    }
}

/// An accepted pickle, with what the second pass needs to know about its memo and its frames.
#[derive(Drop)]
struct Traced {
    /// Its length in bytes.
    taken: u64,
    trace: Trace,
}

/// Checks the pickle while recording its instructions. If an allocation for the recording is
/// refused, checks again without it.
fn heard_check(alloc: Global, bytes: &[u8], limits: &Limits) -> Result<Traced, Refusal>
    ensures ok { IfOk result (IsTraced limits.now bytes.now) }
    ensures taken { IfOk result (λ x. TakesAsChecked limits.now bytes.now x.taken) }
    ensures err { IfErr result (λ refusal. IsNotOptimized limits.now bytes.now refusal) }
{
    let mut source = Memory::new(bytes);
    let mut trace = Trace::new(alloc);
    let heard = check_heard(alloc, &mut source, &Policy::AnyImport, limits, &mut trace);
    let Ok(answer) = heard else {
        checked(alloc, bytes, limits)?;
        return Err(lacks_memory());
    };
    match answer {
        Ok(yes) => Ok(Traced {
            taken: yes.taken,
            trace,
        }),
        Err(no) => Err(Refusal {
            at: no.at,
            reason: no.reason,
        }),
    }
}

/// The offset of the first write that is read and whose number would be the limit, if there is one.
/// Numbers are less than the number of writes.
fn past_limit(parts: &[PackedPart], plan: &Plan, writes: u32) -> Option<u64>
    requires { end_behind 0 parts.now < 2 ^ 64 }
    ensures some { IfSome result (λ at.
        first_past plan.now (places_behind 0 parts.now) 0 0 ≡ Some at) }
    ensures none { IfNone result ((writes ≤ plan.now.limit)
        ⊎ (first_past plan.now (places_behind 0 parts.now) 0 0 ≡ None)) }
{
    if writes <= plan.limit {
        return None;
    }
    first_past(parts, plan)
}

/// The optimized form, as `optimize` returns it. Nothing of it is written yet, and the only errors
/// after this are those of the writer.
///
/// ```rust
/// use pkops::Limits;
/// use pkopt::optimized_form;
///
/// let form = optimized_form(alloc, b"]q\x00Nq\x01ah\x000.", &Limits::STANDARD)?;
/// assert_eq!(rt; (form.taken(), form.len()), (11, 9));
/// let mut out = Vec::new(alloc);
/// form.write_to(&mut out)?;
/// assert_eq!(rt; out.as_slice(), b"]q\x00Nah\x000.".as_slice());
/// ```
///
/// # Errors
///
/// Those of `optimize`.
pub fn optimized_form<'a>(
    alloc: Global,
    bytes: &'a [u8],
    limits: &Limits,
) -> Result<Form<'a>, Refusal>
    ensures ok { IfOk result (λ form. Optimizes limits.now bytes.now form.bytes) }
    ensures taken { IfOk result (λ form. TakesAsChecked limits.now bytes.now form.taken) }
    ensures err { IfErr result (λ refusal. IsNotOptimized limits.now bytes.now refusal) }
{
    let Traced { taken, trace } = heard_check(alloc, bytes, limits)?;
    framed();
    same_ends();
    let Trace {
        memo,
        sources,
        parts: list,
        writes,
        end,
        framed,
    } = trace;
    drop(memo);
    let Ok(plan) = plan_of(alloc, sources, limits) else {
        return Err(lacks_memory());
    };
    if let Some(at) = past_limit(&list, &plan, writes) {
        return Err(Refusal {
            at,
            reason: Reason::TooLarge,
        });
    }
    // The parts end at the end of an instruction.
    if end > taken {
        return Err(lacks_memory());
    }
    let parts = Parts { list, framed };
    let Ok(form) = Form::new(alloc, bytes, taken as usize, parts, plan) else {
        return Err(lacks_memory());
    };
    Ok(form)
}

/// Optimizes the pickle at the front of the bytes: drops memo writes that nothing reads, renumbers
/// the others from 0, and uses one frame if the pickle had any. Bytes after STOP are ignored.
///
/// The pickle is checked first, as by `check` with every import permitted and with `counted` as the
/// limit on all payloads. Every run of the result is a run of the pickle, whatever operations
/// answer: it does the same things in the same order, with the same operands and results, and ends
/// the same way.
///
/// ```rust
/// use pkops::Limits;
/// use pkopt::optimize;
///
/// let smaller = optimize(alloc, b"]q\x00Nq\x01ah\x000.", &Limits::STANDARD)?;
/// assert_eq!(rt; smaller.as_slice(), b"]q\x00Nah\x000.".as_slice());
/// ```
///
/// # Errors
///
/// The refusal of the check; `TooLarge` at the write whose new number would be the limit on the
/// memo; or `OutOfMemory` at 0, if an allocation outside the check was refused.
pub fn optimize(alloc: Global, bytes: &[u8], limits: &Limits) -> Result<Vec<u8>, Refusal>
    ensures ok { IfOk result (λ out. Optimizes limits.now bytes.now out.items) }
    ensures err { IfErr result (λ refusal. IsNotOptimized limits.now bytes.now refusal) }
{
    let form = match optimized_form(alloc, bytes, limits) {
        Ok(form) => form,
        Err(refusal) => return Err(refusal),
    };
    let Ok(mut out) = Vec::with_capacity(alloc, form.len() as usize) else {
        return Err(lacks_memory());
    };
    let Ok(()) = form.write_to(&mut out) else {
        return Err(lacks_memory());
    };
    Ok(out)
}
