//! The objects of a run, with what each was given.

ghost use Rattle.std.specs.Prelude.{◌≡◌, ◌≤◌, ◌<◌, ◌+◌, [], ◌∷◌, ◌++◌, length, take, drop, IfOk};
ghost use Rattle.std.specs.Prelude.{OnOk};
ghost use Rattle.pkstack.specs.Shape.{Item};
ghost use Rattle.pkjson.specs.Contents.{OfItems};
ghost use Rattle.pkjson.specs.Private.Arena.{kept_by, received, more_given};
ghost use Rattle.pkjson.specs.Private.Kinds.{kind_seen};
ghost use Rattle.pkjson.specs.Private.Seen.{kept_of, kept_all, seen_entries, numbers_of};

use crate::kinds::Kind;
use crate::slots::{Slot, add_numbers, numbers};
use std::alloc::{AllocError, Global};

/// An object: a list, tuple or dict with the numbers of the objects it was given, or a scalar with
/// its value.
#[derive(Drop)]
pub enum Object<'a> {
    /// A list or a tuple.
    Items(Vec<usize>),
    /// A list or a tuple made with one item, which needs no memory of its own: a hostile file is
    /// nothing but tuples of one.
    Single(usize),
    /// A dict: alternating keys and values.
    Pairs(Vec<usize>),
    Null,
    Bool(bool),
    Int(i64),
    /// A text that the pickle contains verbatim.
    Lent(&'a str),
    /// A text that the pickle spells with escapes.
    Decoded(String),
}

/// An object of this kind, made from the objects among these entries.
fn object_of<'a>(alloc: Global, kind: Kind<'a>, slots: &[Slot]) -> Result<Object<'a>, AllocError>
    ensures { IfOk result (λ object. kept_of object ≡ record {
      kind = kind_seen kind.entry;
      given = kept_by (kind_seen kind.entry) (numbers_of slots.now);
    }) }
{
    match kind {
        Kind::Items => items_of(alloc, slots),
        Kind::Pairs => Ok(Object::Pairs(numbers(alloc, slots)?)),
        Kind::Null => Ok(Object::Null),
        Kind::Bool(truth) => Ok(Object::Bool(truth)),
        Kind::Int(number) => Ok(Object::Int(number)),
        Kind::Lent(text) => Ok(Object::Lent(text)),
        Kind::Decoded(text) => Ok(Object::Decoded(text)),
    }
}

/// A list or a tuple of the objects among these entries.
fn items_of<'a>(alloc: Global, slots: &[Slot]) -> Result<Object<'a>, AllocError>
    ensures { IfOk result (λ object. kept_of object ≡ record {
      kind = OfItems;
      given = numbers_of slots.now;
    }) }
{
    if let [Slot::Object(number)] = slots {
        return Ok(Object::Single(*number as usize));
    }
    Ok(Object::Items(numbers(alloc, slots)?))
}

/// Replaces all entries from a place on with a new object made from them. Numbers have 32 bits, and
/// more objects than that are refused: they need over 128 GiB.
#[tactic(auto, using(crate::proofs::Entries::shown_append, crate::proofs::Entries::kept_append))]
pub fn make<'a>(
    alloc: Global,
    stack: &mut Vec<Slot>,
    objects: &mut Vec<Object<'a>>,
    place: usize,
    kind: Kind<'a>,
) -> Result<(), AllocError>
    requires { place ≤ length stack.old.items }
    ensures stack { OnOk result (seen_entries stack.new.items []
        ≡ Item (length objects.old.items) ∷ seen_entries (take place stack.old.items) []) }
    ensures objects { OnOk result (kept_all objects.new.items ≡ kept_all objects.old.items
        ++ record {
          kind = kind_seen kind.entry;
          given = kept_by (kind_seen kind.entry) (numbers_of (drop place stack.old.items));
        } ∷ []) }
{
    let Ok(number) = u32::try_from(objects.len()) else {
        return Err(AllocError);
    };
    let object = object_of(alloc, kind, &stack[place..])?;
    objects.push(object)?;
    stack.truncate(place);
    stack.push(Slot::Object(number))?;
    Ok(())
}

/// This number and those of the objects among these entries.
fn numbers_after(alloc: Global, first: usize, slots: &[Slot]) -> Result<Vec<usize>, AllocError>
    ensures { IfOk result (λ v. v.items ≡ first ∷ numbers_of slots.now) }
{
    let mut found = vec![in alloc; first]?;
    add_numbers(&mut found, slots)?;
    Ok(found)
}

/// Gives the objects among these entries to an object.
fn receive(alloc: Global, object: &mut Object<'_>, slots: &[Slot]) -> Result<(), AllocError>
    ensures { OnOk result
        (kept_of object.new ≡ more_given (numbers_of slots.now) (kept_of object.old)) }
{
    match object {
        Object::Items(given) => add_numbers(given, slots),
        Object::Single(first) => {
            let given = numbers_after(alloc, *first, slots)?;
            *object = Object::Items(given);
            Ok(())
        }
        Object::Pairs(given) => add_numbers(given, slots),
        _ => Ok(()),
    }
}

/// Gives an object everything above it on the stack.
pub fn fill(
    alloc: Global,
    stack: &mut Vec<Slot>,
    objects: &mut Vec<Object<'_>>,
    place: usize,
    receiver: usize,
) -> Result<(), AllocError>
    requires place { place < length stack.old.items }
    requires within { receiver < length objects.old.items }
    ensures stack { OnOk result (stack.new.items ≡ take (place + 1) stack.old.items) }
    ensures objects { OnOk result (kept_all objects.new.items
        ≡ received (receiver ∷ numbers_of (drop (place + 1) stack.old.items))
        (kept_all objects.old.items)) }
{
    receive(alloc, &mut objects[receiver], &stack[place + 1..])?;
    stack.truncate(place + 1);
    Ok(())
}
