//! The entries of the stack; the last one is on top.

ghost use Rattle.std.specs.Prelude.{◌≡◌, [], ◌∷◌, ◌++◌, ◌<◌, drop, IfOk};
ghost use Rattle.std.specs.Prelude.{MatchOption, Ok, OnOk};
ghost use Rattle.pkstack.specs.Shape.{items, slice, top};
ghost use Rattle.pkjson.specs.Private.PlainActions.{picked, found_above, IsLacking};
ghost use Rattle.pkjson.specs.Private.Seen.{numbers_of, seen_entries, FindsPlace, FindsObject};

use crate::action::Takes;
use std::alloc::{AllocError, Global};

/// An entry of the stack: a mark, or an object by its number, in 8 bytes.
#[derive(Clone, Copy)]
pub enum Slot {
    Mark,
    Object(u32),
}

/// The place of the topmost mark.
pub fn mark_place(slots: &[Slot]) -> Option<usize>
    ensures { FindsPlace (slice (seen_entries slots.now []) []) slots.now result }
{
    let mut place = slots.len();
    while place > 0 {
        place -= 1;
        if let Slot::Mark = slots[place] {
            return Some(place);
        }
    }
    None
}

/// The place below the topmost `count` objects, if no mark is among them.
pub fn objects_place(slots: &[Slot], count: usize) -> Option<usize>
    ensures { FindsPlace (items count (seen_entries slots.now []) []) slots.now result }
{
    let mut place = slots.len();
    for _k in 0..count {
        if place == 0 {
            return None;
        }
        place -= 1;
        if let Slot::Mark = slots[place] {
            return None;
        }
    }
    Some(place)
}

/// The place where an operation's operands begin.
pub fn place_of(slots: &[Slot], takes: Takes) -> Option<usize>
    ensures { FindsPlace (picked takes (seen_entries slots.now [])) slots.now result }
{
    match takes {
        Takes::Objects(count) => objects_place(slots, count as usize),
        Takes::Slice => mark_place(slots),
    }
}

/// The place and the number of the object below the operands.
pub fn receiver_of(slots: &[Slot], takes: Takes) -> Option<(usize, usize)>
    ensures { FindsObject (found_above takes (seen_entries slots.now [])) slots.now result }
{
    let Some(place) = place_of(slots, takes) else {
        return None;
    };
    if place == 0 {
        return None;
    }
    match slots[place - 1] {
        Slot::Mark => None,
        Slot::Object(number) => Some((place - 1, number as usize)),
    }
}

/// The number of the object on top.
pub fn top(slots: &[Slot]) -> Option<u32>
    ensures { MatchOption result (IsLacking (top (seen_entries slots.now [])))
        (λ n. top (seen_entries slots.now []) ≡ Ok (n, drop 1 (seen_entries slots.now []))) }
{
    let count = slots.len();
    if count == 0 {
        return None;
    }
    match slots[count - 1] {
        Slot::Mark => None,
        Slot::Object(number) => Some(number),
    }
}

/// The numbers of the objects among these entries.
pub fn numbers(alloc: Global, slots: &[Slot]) -> Result<Vec<usize>, AllocError>
    ensures { IfOk result (λ v. v.items ≡ numbers_of slots.now) }
{
    let mut found = Vec::with_capacity(alloc, slots.len())?;
    add_numbers(&mut found, slots)?;
    Ok(found)
}

/// Appends the numbers of the objects among these entries.
pub fn add_numbers(found: &mut Vec<usize>, slots: &[Slot]) -> Result<(), AllocError>
    ensures { OnOk result (found.new.items ≡ found.old.items ++ numbers_of slots.now) }
{
    found.reserve(slots.len())?;
    for slot in slots {
        add_number(found, *slot)?;
    }
    Ok(())
}

/// Appends the number of the object, if the entry is one.
fn add_number(found: &mut Vec<usize>, slot: Slot) -> Result<(), AllocError>
    ensures { OnOk result (found.new.items ≡ found.old.items ++ numbers_of (slot ∷ [])) }
{
    match slot {
        Slot::Object(number) => Ok(found.push(number as usize)?),
        Slot::Mark => Ok(()),
    }
}
