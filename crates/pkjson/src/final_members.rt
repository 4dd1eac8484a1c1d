//! The members of a dict in its final state.

ghost use Rattle.std.specs.Prelude.{◌≡◌, ◌<◌, length, All, IfOk};
ghost use Rattle.pkjson.specs.Private.Arena.{kind_at};
ghost use Rattle.pkjson.specs.Contents.{characters};
ghost use Rattle.pkjson.specs.Private.Ranks.{AreMembers};
ghost use Rattle.pkjson.specs.Private.Seen.{kept_all};

use crate::objects::Object;
use std::alloc::{AllocError, Global};
use std::collections::BTreeMap;

/// The characters of the text at a place.
pub fn text_at<'a>(objects: &'a [Object<'_>], place: usize) -> &'a str
    ensures { result.now ≡ characters (kind_at (kept_all objects.now) place) }
{
    if place >= objects.len() {
        return "";
    }
    match &objects[place] {
        Object::Lent(text) => text,
        Object::Decoded(text) => text.as_str(),
        _ => "",
    }
}

/// The last value of each key, in the byte order of the keys.
fn standing_pairs<'a>(
    alloc: Global,
    objects: &'a [Object<'_>],
    given: &[usize],
) -> Result<BTreeMap<&'a str, usize>, AllocError>
    requires { All (λ x. x < length objects.now) given.now }
    ensures { IfOk result (λ m.
        AreMembers (kept_all objects.now) (length objects.now) given.now m.entries) }
{
    let mut pairs = BTreeMap::new(alloc);
    let mut index = 0;
    while index + 1 < given.len() {
        pairs.insert(text_at(objects, given[index]), given[index + 1])?;
        index += 2;
    }
    Ok(pairs)
}

/// The members of a dict.
pub fn members<'a>(
    alloc: Global,
    objects: &'a [Object<'_>],
    given: &[usize],
) -> Result<Vec<(&'a str, usize)>, AllocError>
    requires { All (λ x. x < length objects.now) given.now }
    ensures { IfOk result (λ v.
        AreMembers (kept_all objects.now) (length objects.now) given.now v.items) }
{
    let pairs = standing_pairs(alloc, objects, given)?;
    let mut members = Vec::with_capacity(alloc, pairs.len())?;
    for (key, value) in pairs.iter() {
        members.push((*key, *value))?;
    }
    Ok(members)
}
