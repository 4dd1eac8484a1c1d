//! Makes the text of the value that an object unfolds to, or of a part of it, through serde.

ghost use Rattle.std.specs.Prelude.{◌<◌, All, IfOk, OnOk};
ghost use Rattle.pkjson.specs.Private.Nodes.{heap, size, named_members, IsClosed};
ghost use Rattle.pkjson.specs.Private.Fits.{Fits, ItemsFit, MembersFit};
ghost use Rattle.pkjson.specs.Private.Parts.{IsPartBelow, PartFits, IsPartText};
ghost use Rattle.pkjson.specs.Private.Sends.{Sends, SendsArray, SendsObject};

use crate::node::Node;
use crate::settled::Settled;
use serde::{Described, Serialize, Serializer};
use serde_json::Number;
use std::alloc::Global;

/// A part of a value, by its objects.
#[derive(Clone, Copy)]
pub enum Part<'n, 'a> {
    /// The value of this object.
    Object(usize),
    /// An array of the values of these objects.
    Items(&'n [usize]),
    /// An object with these members.
    Members(&'n [(&'a str, usize)]),
}

/// The text of a part, whose objects must have values of at most this depth.
pub fn text_of(
    alloc: Global,
    nodes: &Settled<'_, '_>,
    part: Part<'_, '_>,
    levels: u32,
) -> Result<Vec<u8>, serde_json::Error>
    requires closed { IsClosed nodes.now }
    requires within { IsPartBelow (size nodes.now) part }
    requires fits { PartFits (heap nodes.now) levels part }
    ensures { IfOk result (λ text. IsPartText (heap nodes.now) part.entry text.items) }
{
    let value = Unfolded {
        nodes,
        part,
        levels,
    };
    serde_json::to_vec(alloc, &value)
}

/// A part that serializes as what its objects unfold to, of at most this depth.
#[derive(Drop)]
struct Unfolded<'n, 'a, 'b> {
    nodes: &'n Settled<'a, 'b>,
    part: Part<'n, 'a>,
    levels: u32,
    ghost closed: { ∥ IsClosed nodes.now ∥₁ },
    ghost within: { ∥ IsPartBelow (size nodes.now) part ∥₁ },
    ghost fits: { ∥ PartFits (heap nodes.now) levels part ∥₁ },
}

impl<'n, 'a, 'b> Described for Unfolded<'n, 'a, 'b> {
    ghost use Rattle.pkjson.specs.Private.Nodes.{heap};
    ghost use Rattle.pkjson.specs.Private.Parts.{SendsPart};

    ghost writes = { λ value. SendsPart (heap value.nodes.now) value.part };
}

impl<'n, 'a, 'b> Serialize for Unfolded<'n, 'a, 'b> {
    fn serialize<S: Serializer>(&self, out: &mut S) -> Result<(), S::Error> {
        match self.part {
            Part::Object(place) => send(self.nodes, place, self.levels, out),
            Part::Items(items) => send_items(self.nodes, items, self.levels, out),
            Part::Members(members) => send_members(self.nodes, members, self.levels, out),
        }
    }
}

/// Serializes the value of an object, which must have one of at most this depth.
#[cycle(sending)]
fn send<S: Serializer>(
    nodes: &Settled<'_, '_>,
    place: usize,
    levels: u32,
    out: &mut S,
) -> Result<(), S::Error>
    requires closed { IsClosed nodes.now }
    requires place { place < size nodes.now }
    requires fits { ∥ Fits (heap nodes.now) levels place ∥₁ }
    ensures { OnOk result
        (Sends (heap nodes.now) place (S.written out.old) (S.written out.new)) }
{
    match nodes.node(place) {
        Node::Null => out.unit(),
        Node::Bool(truth) => out.bool(truth),
        Node::Int(number) => Number::from(number).serialize(out),
        Node::Text(text) => out.str(text),
        Node::List(items) => send_items(nodes, items, levels - 1, out),
        Node::Dict(members) => send_members(nodes, members, levels - 1, out),
    }
}

/// Serializes an array of the values of these objects, in order.
#[cycle(sending)]
fn send_items<S: Serializer>(
    nodes: &Settled<'_, '_>,
    items: &[usize],
    levels: u32,
    out: &mut S,
) -> Result<(), S::Error>
    requires closed { IsClosed nodes.now }
    requires places { All (λ x. x < size nodes.now) items.now }
    requires fits { ∥ ItemsFit (heap nodes.now) levels items.now ∥₁ }
    ensures { OnOk result
        (SendsArray (heap nodes.now) items.now (S.written out.old) (S.written out.new)) }
{
    out.begin_seq(Some(items.len()))?;
    for item in items {
        send(nodes, *item, levels, out)?;
    }
    out.end_seq()
}

/// Serializes an object with these keys and values, in order.
#[cycle(sending)]
fn send_members<S: Serializer>(
    nodes: &Settled<'_, '_>,
    members: &[(&str, usize)],
    levels: u32,
    out: &mut S,
) -> Result<(), S::Error>
    requires closed { IsClosed nodes.now }
    requires places { All (λ p. p.1 < size nodes.now) members.now }
    requires fits { ∥ MembersFit (heap nodes.now) levels (named_members members.now) ∥₁ }
    ensures { OnOk result
        (SendsObject (heap nodes.now) (named_members members.now)
        (S.written out.old) (S.written out.new)) }
{
    out.begin_map(Some(members.len()))?;
    for (key, value) in members {
        out.key(key)?;
        send(nodes, *value, levels, out)?;
    }
    out.end_map()
}
