//! Objects in their final state, each looked at where it lies.

ghost use Rattle.std.specs.Prelude.{◌≡◌, ◌<◌, slice_get, slice_index};
ghost use Rattle.pkjson.specs.Private.Nodes.{members_in, members_of, node_of, size, IsNode, Shows};

use crate::node::Node;
use crate::objects::Object;
use std::slice;

/// The objects of a run, and the members of those that are dicts.
pub struct Settled<'a, 'b> {
    pub objects: &'a [Object<'b>],
    /// The members of each dict that has some, in the order of the objects.
    pub dicts: Vec<Vec<(&'a str, usize)>>,
    /// For each object, the number of such dicts before it.
    pub places: Vec<u32>,
}

impl<'a, 'b> Drop for Settled<'a, 'b> {
    fn drop(self) {
        let Settled {
            objects: _objects,
            dicts: _dicts,
            places: _places,
        } = self;
    }
}

impl<'a, 'b> Settled<'a, 'b> {
    /// The number of objects.
    pub fn len(&self) -> usize
        ensures { result ≡ size self.now }
    {
        self.objects.len()
    }

    /// What an object holds.
    pub fn node(&self, number: usize) -> Node<'_, 'a>
        requires { number < size self.now }
        ensures { IsNode self.now number result }
    {
        let place = place_at(&self.places, number);
        let objects = self.objects;
        node_of(&objects[number], &self.dicts, place)
    }
}

/// What an object holds; the members of a dict that has some are at this place.
fn node_of<'s, 'a>(
    object: &'s Object<'_>,
    dicts: &'s [Vec<(&'a str, usize)>],
    place: usize,
) -> Node<'s, 'a>
    ensures { Shows (node_of dicts.now place object.now) result }
{
    match object {
        Object::Items(given) => Node::List(given),
        Object::Single(number) => Node::List(slice::from_ref(number)),
        Object::Pairs(given) => Node::Dict(members_of(given, dicts, place)),
        Object::Null => Node::Null,
        Object::Bool(truth) => Node::Bool(*truth),
        Object::Int(value) => Node::Int(*value),
        Object::Lent(text) => Node::Text(text),
        Object::Decoded(text) => Node::Text(text.as_str()),
    }
}

/// The members of a dict that was given these; those of a dict that has some are at this place.
fn members_of<'s, 'a>(
    given: &[usize],
    dicts: &'s [Vec<(&'a str, usize)>],
    place: usize,
) -> &'s [(&'a str, usize)]
    ensures { result.now ≡ members_of given.now dicts.now place }
{
    if given.is_empty() || place >= dicts.len() {
        return &[];
    }
    &dicts[place]
}

/// The place of an object's dict; 0 if none is known.
fn place_at(places: &[u32], number: usize) -> usize
    ensures { result ≡ slice_index places.now number }
{
    if number < places.len() {
        places[number] as usize
    } else {
        0
    }
}
