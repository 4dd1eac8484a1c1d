//! Exports a plain pickle.

ghost use Rattle.std.specs.Prelude.{◌≡◌, ◌<◌, ◌≤◌, length, replicate, IfOk, IfErr, OnErr, OnOk};
ghost use Rattle.serde_json.specs.View.{view};
ghost use Rattle.pkjson.specs.Export.{IsValueOf, IsTextOf, IsNotExported, IsAccepted};
ghost use Rattle.pkjson.specs.Export.{AppendsText};
ghost use Rattle.pkjson.specs.Private.Arena.{holds};
ghost use Rattle.pkjson.specs.Private.Seen.{kept_all};
ghost use Rattle.pkjson.specs.Private.Settled.{AreGivenBelow};
ghost use Rattle.pkjson.specs.Private.Nodes.{heap, size, IsClosed, AreOrdered};
ghost use Rattle.pkjson.specs.Private.Result.{HasValue, IsValue, IsText, IsTooLarge};
ghost use Rattle.pkjson.specs.Private.Result.{IsAnswered, TellsRefusal};
ghost use Rattle.pkjson.specs.Private.Replayed.{Replays};
ghost use Rattle.pkjson.specs.Private.Weighs.{no_weight};

use crate::build::build;
use crate::error::ExportError;
use crate::judge::{Weight, weigh};
use crate::objects::Object;
use crate::pieces::{Weighed, write_one, write_value};
use crate::replay::replay;
use crate::settle::settle;
use crate::settled::Settled;
use crate::writing::{Part, text_of};
use pkcheck::{Policy, check};
use pkops::{Limits, Reason, Refusal};
use pkread::Memory;
use serde_json::Value;
use std::alloc::{AllocError, Global};
use std::io;
use std::io::Write;

/// The value of the plain pickle at the front of the bytes. Lists and tuples become arrays; dicts
/// become objects with members in the byte order of their keys. Nothing is executed, and bytes
/// after the pickle's STOP are ignored.
///
/// A list or dict with several references is copied at each of them, in its final state. The last
/// value of a key wins. The value contains no float, so its `to_string` is the text of
/// `export_text`.
///
/// ```rust
/// use pkjson::export;
/// use pkops::Limits;
///
/// let value = export(alloc, b"]K\x01a.", &Limits::STANDARD)?;
/// let text = value.to_string(alloc)?;
/// assert_eq!(rt; text.as_str(), "[1]");
/// ```
///
/// # Errors
///
/// The first of these that applies: `Check`, if the pickle is not accepted; `NotPlain`, `Key` or
/// `Number`, for the first instruction that is not plain data, even if its object is dropped later;
/// `TooDeep`, if the result nests deeper than the limit or contains itself; `TooMany`, if it has
/// more values than the limit. `OutOfMemory` may replace any answer if an allocation was refused.
pub fn export(alloc: Global, bytes: &[u8], limits: &Limits) -> Result<Value, ExportError>
    ensures value { IfOk result (λ value. IsValueOf limits.now bytes.now (view value)) }
    ensures error { IfErr result (IsNotExported limits.now bytes.now) }
{
    let (objects, place) = replayed(alloc, bytes, limits)?;
    settled_value(alloc, &objects, place, limits)
}

/// The JSON text of the value that `export` returns, in UTF-8 and without spaces. It is written
/// without building that value, which needs several times the memory.
///
/// ```rust
/// use pkjson::export_text;
/// use pkops::Limits;
///
/// let text = export_text(alloc, b"}\x8c\x01aK\x01s.", &Limits::STANDARD)?;
/// assert_eq!(rt; text.as_slice(), b"{\"a\":1}".as_slice());
/// ```
///
/// # Errors
///
/// Those of `export`.
pub fn export_text(alloc: Global, bytes: &[u8], limits: &Limits) -> Result<Vec<u8>, ExportError>
    ensures text { IfOk result (λ text. IsTextOf limits.now bytes.now text.items) }
    ensures error { IfErr result (IsNotExported limits.now bytes.now) }
{
    let (objects, place) = replayed(alloc, bytes, limits)?;
    settled_text(alloc, &objects, place, limits)
}

/// Writes the text that `export_text` returns, in pieces: a text of many pieces is never held
/// whole. A refusal is known before anything is written, also for want of memory where the text is
/// one piece.
///
/// ```rust
/// use pkjson::{ExportError, export_to};
/// use pkops::{Limits, Op};
///
/// let mut out = Vec::new(alloc);
/// export_to(alloc, b"}\x8c\x01aK\x01s.", &Limits::STANDARD, &mut out)??;
/// assert_eq!(rt; out.as_slice(), b"{\"a\":1}".as_slice());
/// let Err(error) = export_to(alloc, b"c__main__\nf\n.", &Limits::STANDARD, &mut out)? else {
///     panic!(rt; "an import is plain data");
/// };
/// assert_eq!(rt; error, ExportError::NotPlain(0, Op::Global));
/// ```
///
/// # Errors
///
/// The writer's, or that there is no memory for one of many pieces; how much was written is then
/// unspecified. Inside, those of `export`.
pub fn export_to<W: Write>(
    alloc: Global,
    bytes: &[u8],
    limits: &Limits,
    out: &mut W,
) -> io::Result<Result<(), ExportError>>
    ensures text { IfOk result (λ answer. OnOk answer
        (AppendsText limits.now bytes.now (W.contents out.old) (W.contents out.new))) }
    ensures error { IfOk result (λ answer. IfErr answer (IsNotExported limits.now bytes.now)) }
    ensures unwritten { IfOk result (λ answer.
        OnErr answer (W.contents out.new ≡ W.contents out.old)) }
{
    match replayed(alloc, bytes, limits) {
        Ok((objects, place)) => settled_to(alloc, &objects, place, limits, out),
        Err(error) => Ok(Err(error)),
    }
}

/// The objects of an accepted plain pickle in their final state, and the number of its result.
fn replayed<'a>(
    alloc: Global,
    bytes: &'a [u8],
    limits: &Limits,
) -> Result<(Vec<Object<'a>>, usize), ExportError>
    ensures ok { IfOk result (λ r. Replays limits.now bytes.now (kept_all r.0.items) r.1) }
    ensures err { IfErr result (IsNotExported limits.now bytes.now) }
{
    accept(alloc, bytes, limits)?;
    replay(alloc, bytes, limits)
}

/// The value of an object in its final state, within the limits.
fn settled_value(
    alloc: Global,
    objects: &[Object<'_>],
    place: usize,
    limits: &Limits,
) -> Result<Value, ExportError>
    requires within { place < length objects.now }
    requires closed { AreGivenBelow (length objects.now) (kept_all objects.now) }
    ensures ok { IfOk result (λ w. IsValue
        (holds (kept_all objects.now)) limits.now.depth limits.now.values place (view w)) }
    ensures err { IfErr result (IsTooLarge
        (holds (kept_all objects.now)) limits.now.depth limits.now.values place) }
{
    let Ok(nodes) = settle(alloc, objects) else {
        return Err(ExportError::OutOfMemory);
    };
    value_of(alloc, &nodes, place, deepest(limits), most(limits))
}

/// The text of the value of an object in its final state, within the limits.
fn settled_text(
    alloc: Global,
    objects: &[Object<'_>],
    place: usize,
    limits: &Limits,
) -> Result<Vec<u8>, ExportError>
    requires within { place < length objects.now }
    requires closed { AreGivenBelow (length objects.now) (kept_all objects.now) }
    ensures ok { IfOk result (λ text. IsText
        (holds (kept_all objects.now)) limits.now.depth limits.now.values place text.items) }
    ensures err { IfErr result (IsTooLarge
        (holds (kept_all objects.now)) limits.now.depth limits.now.values place) }
{
    let Ok(nodes) = settle(alloc, objects) else {
        return Err(ExportError::OutOfMemory);
    };
    written(alloc, &nodes, place, deepest(limits), most(limits))
}

/// Writes the text of the value of an object in its final state, within the limits.
fn settled_to<W: Write>(
    alloc: Global,
    objects: &[Object<'_>],
    place: usize,
    limits: &Limits,
    out: &mut W,
) -> io::Result<Result<(), ExportError>>
    requires within { place < length objects.now }
    requires closed { AreGivenBelow (length objects.now) (kept_all objects.now) }
    ensures { IfOk result (IsAnswered (holds (kept_all objects.now)) limits.now place
        (W.contents out.old) (W.contents out.new)) }
{
    let Ok(nodes) = settle(alloc, objects) else {
        return Ok(Err(ExportError::OutOfMemory));
    };
    written_to(alloc, &nodes, place, limits, out)
}

/// The limit on depth.
fn deepest(limits: &Limits) -> u32
    ensures value { result ≡ limits.now.depth }
    ensures small { result ≤ 1_000_000 }
{
    limits.depth() as u32
}

/// The limit on the number of values.
fn most(limits: &Limits) -> u32
    ensures value { result ≡ limits.now.values }
    ensures small { result ≤ 1_000_000 }
{
    limits.values() as u32
}

/// Checks the pickle, permitting every import. It holds all payloads, under one limit.
fn accept(alloc: Global, bytes: &[u8], limits: &Limits) -> Result<(), ExportError>
    ensures ok { IfOk result (λ _. IsAccepted limits.now bytes.now) }
    ensures err { IfErr result (IsNotExported limits.now bytes.now) }
{
    let mut source = Memory::new(bytes);
    match check(
        alloc,
        &mut source,
        &Policy::AnyImport,
        &limits.holding_all(),
    ) {
        Ok(_) => Ok(()),
        Err(no) => Err(refusal_of(no.at, no.reason)),
    }
}

/// The error for a refusal of `check`.
fn refusal_of(at: u64, reason: Reason) -> ExportError
    ensures { TellsRefusal at reason result }
{
    match reason {
        Reason::OutOfMemory => ExportError::OutOfMemory,
        _ => ExportError::Check(Refusal { at, reason }),
    }
}

/// A missing weight for each of `count` objects.
fn no_weights(alloc: Global, count: usize) -> Result<Vec<Weight>, AllocError>
    ensures { IfOk result (λ v. v.items ≡ replicate count no_weight) }
{
    let mut weights = Vec::with_capacity(alloc, count)?;
    for _place in 0..count {
        weights.push(Weight {
            depth: 0,
            count: 0,
            size: 0,
        })?;
    }
    Ok(weights)
}

/// The weights of an object and of what it refers to, if it has a value within the limits.
fn judged(
    alloc: Global,
    nodes: &Settled<'_, '_>,
    place: usize,
    deepest: u32,
    most: u32,
) -> Result<Vec<Weight>, ExportError>
    requires closed { IsClosed nodes.now }
    requires place { place < size nodes.now }
    requires deepest { deepest ≤ 1_000_000 }
    requires most { most ≤ 1_000_000 }
    ensures ok { OnOk result (HasValue (heap nodes.now) deepest most place) }
    ensures err { IfErr result (IsTooLarge (heap nodes.now) deepest most place) }
{
    let Ok(mut done) = no_weights(alloc, nodes.len()) else {
        return Err(ExportError::OutOfMemory);
    };
    let Some(weight) = weigh(nodes, &mut done, place, deepest, most + 1) else {
        return Err(ExportError::TooDeep);
    };
    if weight.count > most {
        return Err(ExportError::TooMany);
    }
    Ok(done)
}

/// The value of an object, within the limits.
fn value_of(
    alloc: Global,
    nodes: &Settled<'_, '_>,
    place: usize,
    deepest: u32,
    most: u32,
) -> Result<Value, ExportError>
    requires closed { IsClosed nodes.now }
    requires ordered { AreOrdered nodes.now }
    requires place { place < size nodes.now }
    requires deepest { deepest ≤ 1_000_000 }
    requires most { most ≤ 1_000_000 }
    ensures ok { IfOk result (λ w. IsValue (heap nodes.now) deepest most place (view w)) }
    ensures err { IfErr result (IsTooLarge (heap nodes.now) deepest most place) }
{
    judged(alloc, nodes, place, deepest, most)?;
    match build(alloc, nodes, place, deepest) {
        Ok(value) => Ok(value),
        Err(_) => Err(ExportError::OutOfMemory),
    }
}

/// The text of the value of an object, within the limits.
fn written(
    alloc: Global,
    nodes: &Settled<'_, '_>,
    place: usize,
    deepest: u32,
    most: u32,
) -> Result<Vec<u8>, ExportError>
    requires closed { IsClosed nodes.now }
    requires place { place < size nodes.now }
    requires deepest { deepest ≤ 1_000_000 }
    requires most { most ≤ 1_000_000 }
    ensures ok { IfOk result (λ text. IsText (heap nodes.now) deepest most place text.items) }
    ensures err { IfErr result (IsTooLarge (heap nodes.now) deepest most place) }
{
    judged(alloc, nodes, place, deepest, most)?;
    match text_of(alloc, nodes, Part::Object(place), deepest) {
        Ok(text) => Ok(text),
        Err(_) => Err(ExportError::OutOfMemory),
    }
}

/// Writes the text of the value of an object, within the limits.
fn written_to<W: Write>(
    alloc: Global,
    nodes: &Settled<'_, '_>,
    place: usize,
    limits: &Limits,
    out: &mut W,
) -> io::Result<Result<(), ExportError>>
    requires closed { IsClosed nodes.now }
    requires place { place < size nodes.now }
    ensures { IfOk result (IsAnswered (heap nodes.now) limits.now place
        (W.contents out.old) (W.contents out.new)) }
{
    let levels = deepest(limits);
    match judged(alloc, nodes, place, levels, most(limits)) {
        Ok(weights) => {
            let weighed = Weighed {
                alloc,
                nodes,
                weights: weights.as_slice(),
            };
            if weighed.is_one_piece(place) {
                return write_one(&weighed, place, levels, out);
            }
            write_value(&weighed, place, levels, out)?;
            Ok(Ok(()))
        }
        Err(error) => Ok(Err(error)),
    }
}
