//! Ranks of long keys. A long key is compared only a few times, however often it is set.

ghost use Rattle.std.specs.Prelude.{◌≡◌, ◌<◌, length, All, IfOk, IfSome, Some};
ghost use Rattle.std.specs.Map.{values_of};
ghost use Rattle.pkjson.specs.Private.Arena.{kind_at};
ghost use Rattle.pkjson.specs.Contents.{characters};
ghost use Rattle.pkjson.specs.Private.Ranks.{AreMembers, ArePlaces, AreRanks, StandsIn};
ghost use Rattle.pkjson.specs.Private.Seen.{kept_all};

use crate::final_members::{members, text_at};
use crate::objects::Object;
use std::alloc::{AllocError, Global};
use std::cmp::Ordering;
use std::collections::{BTreeMap, BTreeSet};

/// A text with more bytes is long. Shorter keys are compared byte by byte wherever they are set.
const LONG: usize = 64;

/// The distinct texts of keys in byte order, and for each object the position of its text among
/// them. Both are empty if no dict has a long key.
pub struct Ranks<'a, 'b> {
    pub objects: &'a [Object<'b>],
    pub texts: Vec<(&'a str, usize)>,
    pub places: Vec<Option<u32>>,
}

impl<'a, 'b> Drop for Ranks<'a, 'b> {
    fn drop(self) {
        let Ranks {
            objects: _objects,
            texts: _texts,
            places: _places,
        } = self;
    }
}

/// The ranks of all keys of the dicts that have a long key.
pub fn ranks_of<'a, 'b>(
    alloc: Global,
    objects: &'a [Object<'b>],
) -> Result<Ranks<'a, 'b>, AllocError>
    ensures ranks { IfOk result AreRanks }
    ensures objects { IfOk result (λ r. r.objects.now ≡ objects.now) }
{
    let keys = long_keys(alloc, objects)?;
    let texts = members(alloc, objects, &keys)?;
    let places = places_of(alloc, objects, &texts)?;
    Ok(Ranks {
        objects,
        texts,
        places,
    })
}

/// The keys of the dicts that have a long key, each once, with itself as its value.
fn long_keys(alloc: Global, objects: &[Object<'_>]) -> Result<Vec<usize>, AllocError>
    ensures { IfOk result (λ v. All (λ x. x < length objects.now) v.items) }
{
    let mut marked = BTreeSet::new(alloc);
    for object in objects {
        if let Object::Pairs(given) = object
            && has_long_key(objects, given)
        {
            mark(&mut marked, given)?;
        }
    }
    pairs_of(alloc, &marked, objects.len())
}

/// Whether a dict that was given these has a long key.
fn has_long_key(objects: &[Object<'_>], given: &[usize]) -> bool {
    let mut is_key = true;
    for number in given {
        if is_key && text_at(objects, *number).len() > LONG {
            return true;
        }
        is_key = !is_key;
    }
    false
}

/// Marks the first, third, fifth number and so on.
fn mark(marked: &mut BTreeSet<usize>, given: &[usize]) -> Result<(), AllocError> {
    let mut is_key = true;
    for number in given {
        if is_key {
            marked.insert(*number)?;
        }
        is_key = !is_key;
    }
    Ok(())
}

/// The marked numbers below `count`, each as a pair with itself.
#[tactic(auto, using(crate::proofs::DictKeys::KeyPlaces::all_twice))]
fn pairs_of(alloc: Global, marked: &BTreeSet<usize>, count: usize) -> Result<Vec<usize>, AllocError>
    ensures { IfOk result (λ v. All (λ x. x < count) v.items) }
{
    let mut pairs = Vec::new(alloc);
    if marked.is_empty() {
        return Ok(pairs);
    }
    for number in 0..count {
        if marked.contains(&number) {
            pairs.extend_from_slice(&[number, number])?;
        }
    }
    Ok(pairs)
}

/// For each object the position of its text, if there are ranked texts.
fn places_of(
    alloc: Global,
    objects: &[Object<'_>],
    texts: &[(&str, usize)],
) -> Result<Vec<Option<u32>>, AllocError>
    ensures { IfOk result (λ v. ArePlaces texts.now (kept_all objects.now) v.items) }
{
    if texts.is_empty() {
        return Ok(Vec::new(alloc));
    }
    let mut places = Vec::with_capacity(alloc, objects.len())?;
    for number in 0..objects.len() {
        let place = short(place_of(texts, text_at(objects, number)));
        places.push(place)?;
    }
    Ok(places)
}

/// A position in half the memory, if it fits.
fn short(place: Option<usize>) -> Option<u32>
    ensures { IfSome result (λ p. place ≡ Some p) }
{
    let Some(place) = place else {
        return None;
    };
    match u32::try_from(place) {
        Ok(place) => Some(place),
        Err(_) => None,
    }
}

/// The position of a text in an ascending list, if it is there.
#[tactic(auto, using(crate::proofs::DictKeys::KeyPlaces::same_text))]
fn place_of(texts: &[(&str, usize)], text: &str) -> Option<usize>
    ensures { IfSome result (StandsIn texts.now text.now) }
{
    let mut low = 0;
    let mut high = texts.len();
    while low < high {
        let middle = low + (high - low) / 2;
        match texts[middle].0.cmp(text) {
            Ordering::Less => low = middle + 1,
            Ordering::Equal => return Some(middle),
            Ordering::Greater => high = middle,
        }
    }
    None
}

impl<'a, 'b> Ranks<'a, 'b> {
    /// The members of a dict that was given these.
    pub fn members(
        &self,
        alloc: Global,
        given: &[usize],
    ) -> Result<Vec<(&'a str, usize)>, AllocError>
        requires ranks { AreRanks self.now }
        requires given { All (λ x. x < length self.now.objects.now) given.now }
        ensures { IfOk result (λ v. AreMembers
            (kept_all self.now.objects.now) (length self.now.objects.now) given.now v.items) }
    {
        let Some(pairs) = self.pairs(alloc, given)? else {
            return members(alloc, self.objects, given);
        };
        let mut members = Vec::with_capacity(alloc, pairs.len())?;
        for member in pairs.values() {
            members.push(*member)?;
        }
        Ok(members)
    }

    /// The members by the positions of their keys; `None` if a key has no position.
    fn pairs(
        &self,
        alloc: Global,
        given: &[usize],
    ) -> Result<Option<BTreeMap<u32, (&'a str, usize)>>, AllocError>
        requires ranks { AreRanks self.now }
        requires given { All (λ x. x < length self.now.objects.now) given.now }
        ensures { IfOk result (λ found. IfSome found (λ m. AreMembers
            (kept_all self.now.objects.now) (length self.now.objects.now) given.now
            (values_of m.entries))) }
    {
        let mut pairs = BTreeMap::new(alloc);
        let mut index = 0;
        while index + 1 < given.len() {
            let Some(place) = self.place(given[index]) else {
                return Ok(None);
            };
            let member = (self.texts[place as usize].0, given[index + 1]);
            pairs.insert(place, member)?;
            index += 2;
        }
        Ok(Some(pairs))
    }

    /// The position of an object's text.
    fn place(&self, number: usize) -> Option<u32>
        requires { AreRanks self.now }
        ensures { IfSome result (StandsIn self.now.texts.items
            (characters (kind_at (kept_all self.now.objects.now) number))) }
    {
        if number < self.places.len() {
            self.places[number]
        } else {
            None
        }
    }
}
