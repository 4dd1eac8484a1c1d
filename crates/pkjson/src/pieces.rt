//! Writes the text of a value in pieces, so that it is never held whole.

ghost use Rattle.std.specs.Prelude.{[], ◌∷◌, ◌++◌, ◌<◌, ◌≤◌, ◌-◌, length, slice_range, All, IfOk};
ghost use Rattle.std.specs.Prelude.{OnOk};
ghost use Rattle.std.specs.Io.KnownBytes.{Appends};
ghost use Rattle.serde_json.specs.Written.{comma_if, compact_text};
ghost use Rattle.serde_json.specs.Data.{string};
ghost use Rattle.pkjson.specs.Private.Nodes.{heap, size, named_members, IsClosed};
ghost use Rattle.pkjson.specs.Private.Fits.{Fits, ItemsFit, MembersFit};
ghost use Rattle.pkjson.specs.Private.Parts.{IsPartBelow, PartFits};
ghost use Rattle.pkjson.specs.Private.Pieces.{IsWhole, Writes, WritesItems, WritesMembers};
ghost use Rattle.pkjson.specs.Private.Pieces.{WritesPart};

use crate::error::ExportError;
use crate::judge::{Weight, key_size};
use crate::node::Node;
use crate::settled::Settled;
use crate::writing::{Part, text_of};
use std::alloc::Global;
use std::io;
use std::io::{ErrorKind, Write};

/// About how many bytes a piece has at most, without escapes. A longer text is one piece.
const PIECE: u32 = 65_536;

/// Objects in their final state, and their weights.
#[derive(Drop)]
pub struct Weighed<'n, 'a, 'b> {
    /// Where a piece is made before it is written.
    pub alloc: Global,
    pub nodes: &'n Settled<'a, 'b>,
    pub weights: &'n [Weight],
}

impl<'n, 'a, 'b> Weighed<'n, 'a, 'b> {
    /// About how many bytes the text of an object's value has.
    fn size(&self, place: usize) -> u32 {
        if place < self.weights.len() {
            self.weights[place].size
        } else {
            0
        }
    }

    /// Whether the text of an object's value is one piece: a short one, or one without parts.
    pub fn is_one_piece(&self, place: usize) -> bool
        requires { place < size self.now.nodes.now }
    {
        if self.size(place) <= PIECE {
            return true;
        }
        match self.nodes.node(place) {
            Node::List(_) => false,
            Node::Dict(_) => false,
            _ => true,
        }
    }

    /// Where the piece ends that begins with this item.
    fn items_end(&self, items: &[usize], first: usize) -> usize
        requires { first < length items.now }
        ensures later { first < result }
        ensures within { result ≤ length items.now }
    {
        let mut room = PIECE.saturating_sub(self.size(items[first]));
        let mut end = first + 1;
        while end < items.len() {
            let size = self.size(items[end]);
            if size > room {
                return end;
            }
            room -= size;
            end += 1;
        }
        end
    }

    /// Where the piece ends that begins with this member.
    fn members_end(&self, members: &[(&str, usize)], first: usize) -> usize
        requires { first < length members.now }
        ensures later { first < result }
        ensures within { result ≤ length members.now }
    {
        let mut room = PIECE.saturating_sub(self.member_size(members[first]));
        let mut end = first + 1;
        while end < members.len() {
            let size = self.member_size(members[end]);
            if size > room {
                return end;
            }
            room -= size;
            end += 1;
        }
        end
    }

    /// About how many bytes a member has in a text.
    fn member_size(&self, member: (&str, usize)) -> u32 {
        let (key, value) = member;
        self.size(value).saturating_add(key_size(key))
    }
}

/// Writes the value of an object, which must have one of at most this depth.
///
/// # Errors
///
/// The writer's, or that there is no memory for a piece.
#[cycle(putting)]
pub fn write_value<W: Write>(
    weighed: &Weighed<'_, '_, '_>,
    place: usize,
    levels: u32,
    out: &mut W,
) -> io::Result<()>
    requires closed { IsClosed weighed.now.nodes.now }
    requires place { place < size weighed.now.nodes.now }
    requires fits { Fits (heap weighed.now.nodes.now) levels place }
    ensures { OnOk result (Writes (heap weighed.now.nodes.now) place
        (W.contents out.old) (W.contents out.new)) }
{
    if weighed.size(place) <= PIECE {
        return write_part(weighed, Part::Object(place), levels, out);
    }
    match weighed.nodes.node(place) {
        Node::List(items) => {
            out.write_all(b"[")?;
            write_items(weighed, items, levels - 1, out)?;
            out.write_all(b"]")
        }
        Node::Dict(members) => {
            out.write_all(b"{")?;
            write_members(weighed, members, levels - 1, out)?;
            out.write_all(b"}")
        }
        _ => write_part(weighed, Part::Object(place), levels, out),
    }
}

/// Writes the text of the value of an object, which is made first: without memory for it, nothing
/// is written.
pub fn write_one<W: Write>(
    weighed: &Weighed<'_, '_, '_>,
    place: usize,
    levels: u32,
    out: &mut W,
) -> io::Result<Result<(), ExportError>>
    requires closed { IsClosed weighed.now.nodes.now }
    requires place { place < size weighed.now.nodes.now }
    requires fits { Fits (heap weighed.now.nodes.now) levels place }
    ensures { IfOk result (IsWhole (heap weighed.now.nodes.now) place
        (W.contents out.old) (W.contents out.new)) }
{
    let Ok(text) = text_of(weighed.alloc, weighed.nodes, Part::Object(place), levels) else {
        return Ok(Err(ExportError::OutOfMemory));
    };
    out.write_all(text.as_slice())?;
    Ok(Ok(()))
}

/// Writes the values of these objects, with commas between.
#[cycle(putting)]
fn write_items<W: Write>(
    weighed: &Weighed<'_, '_, '_>,
    items: &[usize],
    levels: u32,
    out: &mut W,
) -> io::Result<()>
    requires closed { IsClosed weighed.now.nodes.now }
    requires places { All (λ x. x < size weighed.now.nodes.now) items.now }
    requires fits { ItemsFit (heap weighed.now.nodes.now) levels items.now }
    ensures { OnOk result (WritesItems (heap weighed.now.nodes.now) items.now
        (W.contents out.old) (W.contents out.new)) }
{
    let mut first = 0;
    while first < items.len() {
        let end = weighed.items_end(items, first);
        write_comma(first > 0, out)?;
        write_some_items(weighed, &items[first..end], levels, out)?;
        first = end;
    }
    Ok(())
}

/// Writes the values of these objects, which are one or make a piece.
#[cycle(putting)]
fn write_some_items<W: Write>(
    weighed: &Weighed<'_, '_, '_>,
    items: &[usize],
    levels: u32,
    out: &mut W,
) -> io::Result<()>
    requires closed { IsClosed weighed.now.nodes.now }
    requires places { All (λ x. x < size weighed.now.nodes.now) items.now }
    requires fits { ItemsFit (heap weighed.now.nodes.now) levels items.now }
    ensures { OnOk result (WritesItems (heap weighed.now.nodes.now) items.now
        (W.contents out.old) (W.contents out.new)) }
{
    if items.len() == 1 {
        return write_value(weighed, items[0], levels, out);
    }
    write_part(weighed, Part::Items(items), levels, out)
}

/// Writes these members, with commas between.
#[cycle(putting)]
fn write_members<W: Write>(
    weighed: &Weighed<'_, '_, '_>,
    members: &[(&str, usize)],
    levels: u32,
    out: &mut W,
) -> io::Result<()>
    requires closed { IsClosed weighed.now.nodes.now }
    requires places { All (λ p. p.1 < size weighed.now.nodes.now) members.now }
    requires fits { MembersFit (heap weighed.now.nodes.now) levels (named_members members.now) }
    ensures { OnOk result (WritesMembers (heap weighed.now.nodes.now) (named_members members.now)
        (W.contents out.old) (W.contents out.new)) }
{
    let mut first = 0;
    while first < members.len() {
        let end = weighed.members_end(members, first);
        write_comma(first > 0, out)?;
        write_some_members(weighed, &members[first..end], levels, out)?;
        first = end;
    }
    Ok(())
}

/// Writes these members, which are one or make a piece.
#[cycle(putting)]
fn write_some_members<W: Write>(
    weighed: &Weighed<'_, '_, '_>,
    members: &[(&str, usize)],
    levels: u32,
    out: &mut W,
) -> io::Result<()>
    requires closed { IsClosed weighed.now.nodes.now }
    requires places { All (λ p. p.1 < size weighed.now.nodes.now) members.now }
    requires fits { MembersFit (heap weighed.now.nodes.now) levels (named_members members.now) }
    ensures { OnOk result (WritesMembers (heap weighed.now.nodes.now) (named_members members.now)
        (W.contents out.old) (W.contents out.new)) }
{
    if members.len() == 1 {
        let (key, value) = members[0];
        write_key(weighed.alloc, key, out)?;
        return write_value(weighed, value, levels, out);
    }
    write_part(weighed, Part::Members(members), levels, out)
}

/// Writes a comma if something stands before.
fn write_comma<W: Write>(later: bool, out: &mut W) -> io::Result<()>
    ensures { OnOk result (Appends (W.contents out.old) (W.contents out.new) (comma_if later)) }
{
    if later {
        return out.write_all(b",");
    }
    Ok(())
}

/// Writes a key and its colon.
fn write_key<W: Write>(alloc: Global, key: &str, out: &mut W) -> io::Result<()>
    ensures { OnOk result (Appends (W.contents out.old) (W.contents out.new)
        (compact_text (string key.now) ++ 58 ∷ [])) }
{
    let Ok(text) = serde_json::to_vec(alloc, &key) else {
        return Err(io::Error::from(ErrorKind::OutOfMemory));
    };
    out.write_all(text.as_slice())?;
    out.write_all(b":")
}

/// Writes a part, an array without its brackets and an object without its braces.
fn write_part<W: Write>(
    weighed: &Weighed<'_, '_, '_>,
    part: Part<'_, '_>,
    levels: u32,
    out: &mut W,
) -> io::Result<()>
    requires closed { IsClosed weighed.now.nodes.now }
    requires within { IsPartBelow (size weighed.now.nodes.now) part }
    requires fits { PartFits (heap weighed.now.nodes.now) levels part }
    ensures { OnOk result (WritesPart (heap weighed.now.nodes.now) part.entry
        (W.contents out.old) (W.contents out.new)) }
{
    let Ok(text) = text_of(weighed.alloc, weighed.nodes, part, levels) else {
        return Err(io::Error::from(ErrorKind::OutOfMemory));
    };
    match part {
        Part::Object(_) => out.write_all(text.as_slice()),
        Part::Items(_) => write_inside(text.as_slice(), out),
        Part::Members(_) => write_inside(text.as_slice(), out),
    }
}

/// Writes a text without its first and its last byte.
fn write_inside<W: Write>(text: &[u8], out: &mut W) -> io::Result<()>
    requires { 2 ≤ length text.now }
    ensures { OnOk result (Appends (W.contents out.old) (W.contents out.new)
        (slice_range text.now 1 (length text.now - 1))) }
{
    out.write_all(&text[1..text.len() - 1])
}
