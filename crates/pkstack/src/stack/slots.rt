//! The entries of the stack. The last one is on top.
ghost use Rattle.pkstack.specs.Faults.{IsLack};
ghost use Rattle.pkstack.specs.Places.{IsFew};
ghost use Rattle.pkstack.specs.Shape.{Breach, NoMark, NoItem, operands, reason_of_breach, slice};
ghost use Rattle.pkstack.specs.Shape.{items, top};
ghost use Rattle.pkstack.specs.Private.Slots.{bars, breach_of, shown, values_of, AllObjects};
ghost use Rattle.pkstack.specs.Private.Slots.{taken_from, FirstObject, IsCut, StartsWell};
ghost use Rattle.std.specs.Prelude.{ℕ, ◌≡◌, [], ◌∷◌, ◌<◌, ◌≤◌, ◌+◌, ◌-◌, length, take, drop};
ghost use Rattle.std.specs.Prelude.{IfOk};
ghost use Rattle.pkstack.specs.declared.cells.Slot.TheVariants as slot;
ghost use Rattle.std.specs.Prelude.{◌++◌, IfErr, IfSome, MatchOption, OnErr, OnOk};

use crate::cells::{Cell, Packed, Slot};
use crate::takes::{SliceRule, Takes};
use pkbase::StackVec;
use pkops::Reason;
use std::alloc::AllocError;

/// Where the operands of an operation begin.
#[derive(Clone, Copy)]
pub struct OperandsStart {
    /// The number of entries below the operands.
    pub place: usize,
    /// The number of marks among the entries below.
    pub marks: usize,
}

/// What is known about the topmost entry; `None` if it is a mark or there is none.
pub fn top<V: Copy + Drop, C: Cell<V>>(slots: &[Packed<V, C>]) -> Option<V>
    ensures { MatchOption result (top (shown slots.now [])
        ≡ Err NoItem) (λ v. top (shown slots.now []) ≡ Ok (v, drop 1 (shown slots.now []))) }
{
    if slots.is_empty() {
        return None;
    }
    let Slot::Object(value) = slots[slots.len() - 1].slot() else {
        return None;
    };
    Some(value)
}

/// Pushes an object.
pub fn put_on_top<V: Copy + Drop, C: Cell<V>>(
    slots: &mut StackVec<Packed<V, C>>,
    value: V,
) -> Result<(), AllocError>
    ensures ok { OnOk result (slots.new ≡ slots.old ++ slot.Object value ∷ []) }
    ensures err { OnErr result (slots.new ≡ slots.old) }
{
    slots.push(Packed::object(value))
}

/// The place of the topmost mark.
pub fn mark_place<V: Copy + Drop, C: Cell<V>>(
    stack: &[Packed<V, C>],
    places: &[usize],
) -> Option<usize>
    requires { places.now ≡ bars 0 stack.now }
    ensures value { MatchOption result (slice (shown stack.now []) []
        ≡ Err NoMark) (λ n. (n < length stack.now) × (slice (shown stack.now []) []
        ≡ Ok (taken_from n stack.now))) }
    ensures count { IfSome result (λ n. length (values_of (drop n stack.now)) + (n + 1)
        ≡ length stack.now) }
    ensures marks { IfSome result (λ n. length (bars 0 (take n stack.now)) + 1
        ≡ length places.now) }
{
    match places.last() {
        Some(place) => Some(*place),
        None => None,
    }
}

/// The number of objects above the topmost mark, or on the whole stack if it has no mark.
pub fn objects_on_top<V: Copy + Drop, C: Cell<V>>(stack: &[Packed<V, C>], places: &[usize]) -> usize
    requires { places.now ≡ bars 0 stack.now }
    ensures within { result ≤ length stack.now }
    ensures objects { AllObjects (drop (length stack.now - result) stack.now) }
    ensures others { (count : ℕ) → result < count
        → items count (shown stack.now []) [] ≡ Err NoItem }
{
    match places.last() {
        Some(place) => stack.len() - *place - 1,
        None => stack.len(),
    }
}

/// The place where the topmost `count` objects begin, if no mark is among them. It compares the
/// place of the topmost mark instead of looking at the entries.
pub fn objects_place<V: Copy + Drop, C: Cell<V>>(
    stack: &[Packed<V, C>],
    places: &[usize],
    count: usize,
) -> Option<usize>
    requires { places.now ≡ bars 0 stack.now }
    ensures well { IfSome result (λ n. StartsWell (Takes.Objects count) (drop n stack.now)) }
    ensures value { MatchOption result (items count (shown stack.now []) []
        ≡ Err NoItem) (λ n. (n ≤ length stack.now) × (items count (shown stack.now []) []
        ≡ Ok (taken_from n stack.now))) }
    ensures marks { IfSome result (λ n. length (bars 0 (take n stack.now)) ≡ length places.now) }
{
    if objects_on_top(stack, places) < count {
        return None;
    }
    Some(stack.len() - count)
}

/// The place of the topmost entry, if it is an object.
fn one_object<V: Copy + Drop, C: Cell<V>>(slots: &[Packed<V, C>]) -> Option<usize>
    ensures { MatchOption result (items 1 (shown slots.now []) [] ≡ Err NoItem)
        (λ n. (n + 1 ≡ length slots.now) × AllObjects (drop n slots.now)) }
{
    if slots.is_empty() {
        return None;
    }
    let Slot::Object(_) = slots[slots.len() - 1].slot() else {
        return None;
    };
    Some(slots.len() - 1)
}

/// The place of the lower one of the topmost two entries, if both are objects.
fn two_objects<V: Copy + Drop, C: Cell<V>>(slots: &[Packed<V, C>]) -> Option<usize>
    ensures { MatchOption result (items 2 (shown slots.now []) [] ≡ Err NoItem)
        (λ n. (n + 2 ≡ length slots.now) × AllObjects (drop n slots.now)) }
{
    if slots.len() < 2 {
        return None;
    }
    let Some(place) = one_object(slots) else {
        return None;
    };
    let Slot::Object(_) = slots[place - 1].slot() else {
        return None;
    };
    Some(place - 1)
}

/// The place of the lowest one of the topmost three entries, if all are objects.
fn three_objects<V: Copy + Drop, C: Cell<V>>(slots: &[Packed<V, C>]) -> Option<usize>
    ensures { MatchOption result (items 3 (shown slots.now []) [] ≡ Err NoItem)
        (λ n. (n + 3 ≡ length slots.now) × AllObjects (drop n slots.now)) }
{
    if slots.len() < 3 {
        return None;
    }
    let Some(second) = two_objects(slots) else {
        return None;
    };
    let Slot::Object(_) = slots[second - 1].slot() else {
        return None;
    };
    Some(second - 1)
}

/// The place of the lowest one of the topmost `count` entries, if `count` is 1, 2 or 3 and all of
/// them are objects.
pub fn few_objects<V: Copy + Drop, C: Cell<V>>(
    slots: &[Packed<V, C>],
    count: usize,
) -> Option<usize>
    ensures { MatchOption result (IsFew count → items count (shown slots.now []) [] ≡ Err NoItem)
        (λ n. IsFew count × (n + count ≡ length slots.now) × AllObjects (drop n slots.now)) }
{
    match count {
        1 => one_object(slots),
        2 => two_objects(slots),
        3 => three_objects(slots),
        _ => None,
    }
}

/// The number of objects among the entries.
pub fn count_objects<V: Copy + Drop, C: Cell<V>>(slots: &[Packed<V, C>]) -> usize
    ensures { result ≡ length (values_of slots.now) }
{
    let mut count: usize = 0;
    for slot in slots {
        if let Slot::Object(_) = slot.slot() {
            count += 1;
        }
    }
    count
}

/// How many of the places, which rise, are below the place `count`.
pub fn marks_below(places: &[usize], count: usize) -> usize
    ensures { IsCut places.now count result }
{
    let mut left = places.len();
    while left > 0 {
        if places[left - 1] < count {
            return left;
        }
        left -= 1;
    }
    0
}

/// Why a slice of `count` objects breaks the rule; `None` if it does not.
pub fn rule_fault(rule: SliceRule, count: usize) -> Option<Reason>
    ensures { MatchOption result (breach_of rule count ≡ None) (λ r. (b : Breach)
        × (breach_of rule count ≡ Some b) × (r ≡ reason_of_breach b)) }
{
    match rule {
        SliceRule::AnySlice => None,
        SliceRule::EvenSlice => {
            if count % 2 == 0 {
                None
            } else {
                Some(Reason::OddItems)
            }
        }
        SliceRule::FullSlice => {
            if count == 0 {
                Some(Reason::MissingItem)
            } else {
                None
            }
        }
    }
}

/// The place of the topmost mark, if the objects above it obey the rule.
#[inline(always)]
#[tactic(auto, using(crate::proofs::Settled::breaks_by_count))]
pub fn slice_place<V: Copy + Drop, C: Cell<V>>(
    stack: &[Packed<V, C>],
    places: &[usize],
    rule: SliceRule,
) -> Result<usize, Reason>
    requires { places.now ≡ bars 0 stack.now }
    ensures ok { IfOk result (λ n. (n ≤ length stack.now)
        × (operands (Takes.Slice rule) (shown stack.now []) ≡ Ok (taken_from n stack.now))) }
    ensures marks { IfOk result (λ n. length (bars 0 (take n stack.now)) + 1 ≡ length places.now) }
    ensures err { IfErr result (λ r. IsLack (operands (Takes.Slice rule) (shown stack.now [])) r) }
{
    let Some(place) = mark_place(stack, places) else {
        return Err(Reason::MissingMark);
    };
    match rule_fault(rule, stack.len() - place - 1) {
        Some(reason) => Err(reason),
        None => Ok(place),
    }
}

/// The place of the object below the topmost mark, if the objects above the mark obey the rule.
#[inline(always)]
pub fn receiver_place<V: Copy + Drop, C: Cell<V>>(
    stack: &[Packed<V, C>],
    places: &[usize],
    rule: SliceRule,
) -> Result<usize, Reason>
    requires { places.now ≡ bars 0 stack.now }
    ensures well { IfOk result (λ n. FirstObject (drop n stack.now)) }
    ensures ok { IfOk result (λ n. (n ≤ length stack.now)
        × (operands (Takes.SliceAndReceiver rule) (shown stack.now [])
        ≡ Ok (taken_from n stack.now))) }
    ensures marks { IfOk result (λ n. length (bars 0 (take n stack.now)) + 1 ≡ length places.now) }
    ensures err { IfErr result (λ r. IsLack (operands (Takes.SliceAndReceiver rule)
        (shown stack.now [])) r) }
{
    let Some(place) = mark_place(stack, places) else {
        return Err(Reason::MissingMark);
    };
    if place == 0 {
        return Err(Reason::MissingItem);
    }
    let Slot::Object(_) = stack[place - 1].slot() else {
        return Err(Reason::MissingItem);
    };
    match rule_fault(rule, stack.len() - place - 1) {
        Some(reason) => Err(reason),
        None => Ok(place - 1),
    }
}

/// Where the operands of an operation begin. A slice includes its mark, the topmost one.
#[inline(always)]
pub fn place_of<V: Copy + Drop, C: Cell<V>>(
    stack: &[Packed<V, C>],
    places: &[usize],
    takes: Takes,
) -> Result<OperandsStart, Reason>
    requires { places.now ≡ bars 0 stack.now }
    ensures well { IfOk result (λ f. StartsWell takes (drop f.place stack.now)) }
    ensures ok { IfOk result (λ f. (f.place ≤ length stack.now)
        × (operands takes (shown stack.now []) ≡ Ok (taken_from f.place stack.now))) }
    ensures marks { IfOk result (λ f. f.marks ≡ length (bars 0 (take f.place stack.now))) }
    ensures err { IfErr result (λ r. IsLack (operands takes (shown stack.now [])) r) }
{
    match takes {
        Takes::Objects(count) => match objects_place(stack, places, count as usize) {
            Some(place) => Ok(OperandsStart {
                place,
                marks: places.len(),
            }),
            None => Err(Reason::MissingItem),
        },
        Takes::Slice(rule) => match slice_place(stack, places, rule) {
            Ok(place) => Ok(OperandsStart {
                place,
                marks: places.len() - 1,
            }),
            Err(reason) => Err(reason),
        },
        Takes::SliceAndReceiver(rule) => match receiver_place(stack, places, rule) {
            Ok(place) => Ok(OperandsStart {
                place,
                marks: places.len() - 1,
            }),
            Err(reason) => Err(reason),
        },
    }
}
