//! Finds the depth, the number of values and the size of each object, before any value is built.

ghost use Rattle.std.specs.Prelude.{◌≡◌, ◌<◌, ◌≤◌, ◌+◌, ◌^◌, min, max, length, All, MatchOption};
ghost use Rattle.std.specs.Prelude.{IfSome};
ghost use Rattle.pkjson.specs.Private.Nodes.{heap, size, named_members, IsClosed};
ghost use Rattle.pkjson.specs.Private.Weighs.{Weighs, IsDeeper, ItemsWeigh, AreDeeper};
ghost use Rattle.pkjson.specs.Private.Weighs.{MembersWeigh};
ghost use Rattle.pkjson.specs.Private.Weighs.{MembersDeeper, IsTrusted, IsBounded, HaveRoom};

use crate::node::Node;
use crate::settled::Settled;

/// The greatest size of a text or a key that is distinguished.
const LONG: usize = 1 << 30;

/// The depth of a value, and the number of values in it, which stops at a cap.
#[derive(Clone, Copy)]
pub struct Weight {
    pub depth: u32,
    pub count: u32,
    /// About how many bytes its text has, with a comma and without escapes. It stops at 2^32 - 1.
    pub size: u32,
}

/// The weight of a value without parts, whose text has about this many bytes.
fn scalar(size: usize) -> Weight
    ensures depth { result.depth ≡ 0 }
    ensures count { result.count ≡ 1 }
{
    Weight {
        depth: 0,
        count: 1,
        size: size.min(LONG) as u32,
    }
}

/// The weight of a value with its key.
fn keyed(value: Weight, key: &str) -> Weight
    ensures depth { result.depth ≡ value.depth }
    ensures count { result.count ≡ value.count }
{
    Weight {
        size: value.size.saturating_add(key_size(key)),
        ..value
    }
}

/// About how many bytes a key has in a text.
pub fn key_size(key: &str) -> u32 {
    key.len().min(LONG) as u32 + 3
}

/// The weight of both together.
fn joined(one: Weight, other: Weight, cap: u32) -> Weight
    requires one { one.count ≤ cap }
    requires other { other.count ≤ cap }
    requires room { cap < 2 ^ 31 }
    ensures depth { result.depth ≡ max one.depth other.depth }
    ensures count { result.count ≡ min cap (one.count + other.count) }
{
    Weight {
        depth: one.depth.max(other.depth),
        count: cap.min(one.count + other.count),
        size: one.size.saturating_add(other.size),
    }
}

/// The weight of an object with these parts.
fn raised(inner: Weight, cap: u32) -> Weight
    requires depth { inner.depth < 2 ^ 31 }
    requires count { inner.count ≤ cap }
    requires room { cap < 2 ^ 31 }
    ensures depth { result.depth ≡ inner.depth + 1 }
    ensures count { result.count ≡ min cap (inner.count + 1) }
{
    Weight {
        depth: inner.depth + 1,
        count: cap.min(inner.count + 1),
        size: inner.size.saturating_add(3),
    }
}

/// The object's weight, if its depth is at most this many levels. Each object is weighed once, and
/// `done` keeps the results; a count of 0 means that there is none yet.
#[cycle(judging)]
pub fn weigh(
    nodes: &Settled<'_, '_>,
    done: &mut [Weight],
    place: usize,
    levels: u32,
    cap: u32,
) -> Option<Weight>
    requires closed { IsClosed nodes.now }
    requires place { place < size nodes.now }
    requires same { length done.old ≡ size nodes.now }
    requires trusted { IsTrusted (heap nodes.now) cap done.old }
    requires room { HaveRoom levels cap }
    ensures trusted { IsTrusted (heap nodes.now) cap done.new }
    ensures bounds { IfSome result (IsBounded levels cap) }
    ensures weight { MatchOption result
        (IsDeeper (heap nodes.now) levels place) (Weighs (heap nodes.now) cap place) }
{
    let known = done[place];
    if known.count == 0 {
        return match weigh_node(nodes, done, place, levels, cap) {
            Some(weight) => {
                done[place] = weight;
                Some(weight)
            }
            None => None,
        };
    }
    if known.depth <= levels {
        Some(known)
    } else {
        None
    }
}

/// The weight of an object that isn't in `done`.
#[cycle(judging)]
fn weigh_node(
    nodes: &Settled<'_, '_>,
    done: &mut [Weight],
    place: usize,
    levels: u32,
    cap: u32,
) -> Option<Weight>
    requires closed { IsClosed nodes.now }
    requires place { place < size nodes.now }
    requires same { length done.old ≡ size nodes.now }
    requires trusted { IsTrusted (heap nodes.now) cap done.old }
    requires room { HaveRoom levels cap }
    ensures trusted { IsTrusted (heap nodes.now) cap done.new }
    ensures bounds { IfSome result (IsBounded levels cap) }
    ensures weight { MatchOption result
        (IsDeeper (heap nodes.now) levels place) (Weighs (heap nodes.now) cap place) }
{
    match nodes.node(place) {
        Node::List(items) => {
            if levels == 0 {
                return None;
            }
            match weigh_items(nodes, done, items, levels - 1, cap) {
                Some(inner) => Some(raised(inner, cap)),
                None => None,
            }
        }
        Node::Dict(members) => {
            if levels == 0 {
                return None;
            }
            match weigh_members(nodes, done, members, levels - 1, cap) {
                Some(inner) => Some(raised(inner, cap)),
                None => None,
            }
        }
        Node::Null => Some(scalar(5)),
        Node::Bool(_) => Some(scalar(6)),
        Node::Int(_) => Some(scalar(21)),
        Node::Text(text) => Some(scalar(text.len().saturating_add(3))),
    }
}

/// The greatest depth and the sum of the counts of these objects, if none is too deep.
#[cycle(judging)]
fn weigh_items(
    nodes: &Settled<'_, '_>,
    done: &mut [Weight],
    items: &[usize],
    levels: u32,
    cap: u32,
) -> Option<Weight>
    requires closed { IsClosed nodes.now }
    requires places { All (λ x. x < size nodes.now) items.now }
    requires same { length done.old ≡ size nodes.now }
    requires trusted { IsTrusted (heap nodes.now) cap done.old }
    requires room { HaveRoom levels cap }
    ensures trusted { IsTrusted (heap nodes.now) cap done.new }
    ensures bounds { IfSome result (IsBounded levels cap) }
    ensures weight { MatchOption result
        (AreDeeper (heap nodes.now) levels items.now) (ItemsWeigh (heap nodes.now) cap items.now) }
{
    let mut sum = Weight {
        depth: 0,
        count: 0,
        size: 0,
    };
    for item in items {
        match weigh(nodes, done, *item, levels, cap) {
            Some(weight) => {
                sum = joined(sum, weight, cap);
            }
            None => {
                return None;
            }
        }
    }
    Some(sum)
}

/// The greatest depth and the sum of the counts of the members' values, if none is too deep.
#[cycle(judging)]
fn weigh_members(
    nodes: &Settled<'_, '_>,
    done: &mut [Weight],
    members: &[(&str, usize)],
    levels: u32,
    cap: u32,
) -> Option<Weight>
    requires closed { IsClosed nodes.now }
    requires places { All (λ p. p.1 < size nodes.now) members.now }
    requires same { length done.old ≡ size nodes.now }
    requires trusted { IsTrusted (heap nodes.now) cap done.old }
    requires room { HaveRoom levels cap }
    ensures trusted { IsTrusted (heap nodes.now) cap done.new }
    ensures bounds { IfSome result (IsBounded levels cap) }
    ensures weight { MatchOption result
        (MembersDeeper (heap nodes.now) levels (named_members members.now))
        (MembersWeigh (heap nodes.now) cap (named_members members.now)) }
{
    let mut sum = Weight {
        depth: 0,
        count: 0,
        size: 0,
    };
    for (key, value) in members {
        match weigh(nodes, done, *value, levels, cap) {
            Some(weight) => {
                sum = joined(sum, keyed(weight, key), cap);
            }
            None => {
                return None;
            }
        }
    }
    Some(sum)
}
