//! Finds the members of each dict, in their final state.

ghost use Rattle.std.specs.Prelude.{◌<◌, length, All, IfOk, OnOk};
ghost use Rattle.pkjson.specs.Private.Nodes.{nodes_of};
ghost use Rattle.pkjson.specs.Private.Ranks.{AreRanks};
ghost use Rattle.pkjson.specs.Private.Seen.{kept_all, kept_of};
ghost use Rattle.pkjson.specs.Private.Settled.{AreGivenBelow, AreSettled, Adds, AddsMembers};

use crate::objects::Object;
use crate::ranks::{Ranks, ranks_of};
use crate::settled::Settled;
use std::alloc::{AllocError, Global};

/// Appends the members of an object that is a dict, unless it has none.
fn settle_one<'a, 'b>(
    alloc: Global,
    ranks: &Ranks<'a, 'b>,
    object: &Object<'b>,
    dicts: &mut Vec<Vec<(&'a str, usize)>>,
) -> Result<(), AllocError>
    requires ranks { AreRanks ranks.now }
    requires given { All (λ x. x < length ranks.now.objects.now) (kept_of object.now).given }
    ensures { OnOk result (Adds (kept_all ranks.now.objects.now)
        (length ranks.now.objects.now) object.now dicts.old.items dicts.new.items) }
{
    let Object::Pairs(given) = object else {
        return Ok(());
    };
    if given.is_empty() {
        return Ok(());
    }
    let members = ranks.members(alloc, given)?;
    dicts.push(members)?;
    Ok(())
}

/// All objects in their final state.
pub fn settle<'a, 'b>(
    alloc: Global,
    objects: &'a [Object<'b>],
) -> Result<Settled<'a, 'b>, AllocError>
    requires { AreGivenBelow (length objects.now) (kept_all objects.now) }
    ensures { IfOk result (λ s.
        AreSettled (kept_all objects.now) (kept_all objects.now) (nodes_of s)) }
{
    let ranks = ranks_of(alloc, objects)?;
    let mut dicts = Vec::new(alloc);
    let mut places = Vec::with_capacity(alloc, objects.len())?;
    for object in objects {
        let Ok(place) = u32::try_from(dicts.len()) else {
            return Err(AllocError);
        };
        settle_one(alloc, &ranks, object, &mut dicts)?;
        places.push(place)?;
    }
    Ok(Settled {
        objects,
        dicts,
        places,
    })
}
