//! Which objects are texts.

ghost use Rattle.std.specs.Prelude.{◌≡◌, true};
ghost use Rattle.pkjson.specs.Private.Arena.{kind_at, is_text_kind, are_text_kinds};
ghost use Rattle.pkjson.specs.Plain.{every_other};
ghost use Rattle.pkjson.specs.Private.Seen.{kept_all, numbers_of};

use crate::objects::Object;
use crate::slots::Slot;

/// Whether the object with this number is a text.
fn is_text(objects: &[Object<'_>], number: usize) -> bool
    ensures { result ≡ is_text_kind (kind_at (kept_all objects.now) number) }
{
    if number >= objects.len() {
        return false;
    }
    match &objects[number] {
        Object::Lent(_) => true,
        Object::Decoded(_) => true,
        _ => false,
    }
}

/// Whether the first, third, fifth object and so on among these entries are texts.
pub fn keys_are_texts(objects: &[Object<'_>], slots: &[Slot]) -> bool
    ensures { result
        ≡ are_text_kinds (kept_all objects.now) (every_other true (numbers_of slots.now)) }
{
    let mut is_key = true;
    for slot in slots {
        if let Slot::Object(number) = *slot {
            if is_key && !is_text(objects, number as usize) {
                return false;
            }
            is_key = !is_key;
        }
    }
    true
}
