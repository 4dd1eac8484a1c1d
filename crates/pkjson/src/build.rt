//! Builds the value that an object unfolds to.

ghost use Rattle.std.specs.Prelude.{◌<◌, All, IfOk};
ghost use Rattle.serde_json.specs.View.{view, items_view, members_view};
ghost use Rattle.pkjson.specs.Unfolds.{Unfolds, UnfoldItems, UnfoldMembers};
ghost use Rattle.pkjson.specs.Private.Nodes.{heap, size, named_members, IsClosed, Ascending};
ghost use Rattle.pkjson.specs.Private.Nodes.{AreOrdered};
ghost use Rattle.pkjson.specs.Private.Fits.{Fits, ItemsFit, MembersFit};

use crate::node::Node;
use crate::settled::Settled;
use serde_json::{Map, Value};
use std::alloc::{AllocError, Global};

/// The value of an object, which must have one of at most this depth.
#[cycle(building)]
pub fn build(
    alloc: Global,
    nodes: &Settled<'_, '_>,
    place: usize,
    levels: u32,
) -> Result<Value, AllocError>
    requires closed { IsClosed nodes.now }
    requires ordered { AreOrdered nodes.now }
    requires place { place < size nodes.now }
    requires fits { Fits (heap nodes.now) levels place }
    ensures { IfOk result (λ w. Unfolds (heap nodes.now) place (view w)) }
{
    match nodes.node(place) {
        Node::Null => Ok(Value::Null),
        Node::Bool(truth) => Ok(Value::Bool(truth)),
        Node::Int(number) => Ok(Value::from(number)),
        Node::Text(text) => Ok(Value::String(text.to_string(alloc)?)),
        Node::List(items) => Ok(Value::Array(build_items(alloc, nodes, items, levels - 1)?)),
        Node::Dict(members) => Ok(Value::Object(build_members(alloc, nodes, members, levels - 1)?)),
    }
}

/// The values of these objects, in order.
#[cycle(building)]
fn build_items(
    alloc: Global,
    nodes: &Settled<'_, '_>,
    items: &[usize],
    levels: u32,
) -> Result<Vec<Value>, AllocError>
    requires closed { IsClosed nodes.now }
    requires ordered { AreOrdered nodes.now }
    requires places { All (λ x. x < size nodes.now) items.now }
    requires fits { ItemsFit (heap nodes.now) levels items.now }
    ensures { IfOk result (λ v. UnfoldItems (heap nodes.now) items.now (items_view v.items)) }
{
    let mut values = Vec::with_capacity(alloc, items.len())?;
    for item in items {
        let value = build(alloc, nodes, *item, levels)?;
        values.push(value)?;
    }
    Ok(values)
}

/// The members of a dict, in order.
#[cycle(building)]
fn build_members(
    alloc: Global,
    nodes: &Settled<'_, '_>,
    members: &[(&str, usize)],
    levels: u32,
) -> Result<Map<String, Value>, AllocError>
    requires closed { IsClosed nodes.now }
    requires ordered { AreOrdered nodes.now }
    requires places { All (λ p. p.1 < size nodes.now) members.now }
    requires fits { MembersFit (heap nodes.now) levels (named_members members.now) }
    requires ascending { Ascending (named_members members.now) }
    ensures { IfOk result (λ m.
        UnfoldMembers (heap nodes.now) (named_members members.now) (members_view m.entries)) }
{
    let mut built = Map::new(alloc);
    for (key, value) in members {
        let member = build(alloc, nodes, *value, levels)?;
        serde_json::put(&mut built, alloc, key, member)?;
    }
    Ok(built)
}
