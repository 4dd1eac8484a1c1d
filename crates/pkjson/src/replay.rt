//! Replays an accepted pickle for as long as it is plain data.

ghost use Rattle.std.specs.Prelude.{IfOk, IfErr};
ghost use Rattle.pkjson.specs.Export.{IsAccepted, IsNotExported};
ghost use Rattle.pkjson.specs.Private.Replayed.{Replays};
ghost use Rattle.pkjson.specs.Private.Seen.{kept_all};

use crate::action::{Action, plain_action};
use crate::arena::Arena;
use crate::error::ExportError;
use crate::front::whole_at_front;
use crate::halt::Halt;
use crate::objects::Object;
use pkops::Limits;
use std::alloc::Global;

/// The objects at the STOP of a pickle and the number of its result, or the first fault that shows
/// that it isn't plain data.
pub fn replay<'a>(
    alloc: Global,
    bytes: &'a [u8],
    limits: &Limits,
) -> Result<(Vec<Object<'a>>, usize), ExportError>
    requires { IsAccepted limits.now bytes.now }
    ensures ok { IfOk result (λ r. Replays limits.now bytes.now (kept_all r.0.items) r.1) }
    ensures err { IfErr result (IsNotExported limits.now bytes.now) }
{
    let mut arena = Arena::new(alloc);
    let mut rest = bytes;
    'instructions: loop {
        let at = (bytes.len() - rest.len()) as u64;
        let Some((inst, length)) = whole_at_front(rest, limits) else {
            unreachable!()
        };
        let Some(action) = plain_action(inst.op()) else {
            return Err(ExportError::NotPlain(at, inst.op()));
        };
        if let Action::Stops = action {
            let Some(place) = arena.top() else {
                unreachable!()
            };
            return Ok((arena.into_objects(), place as usize));
        }
        match arena.act(alloc, action, &inst) {
            Ok(()) => {}
            Err(Halt::OtherKey) => return Err(ExportError::Key(at)),
            Err(Halt::LargeNumber) => return Err(ExportError::Number(at)),
            Err(Halt::OutOfMemory) => return Err(ExportError::OutOfMemory),
            Err(Halt::Lacks) => unreachable!(),
        }
        rest = &rest[length..];
    }
}
