//! Which keys a list file has, and its substitutes.
ghost use Rattle.std.specs.Prelude.{◌≡◌, ◌≢◌, ◌≤◌, codes};
ghost use Rattle.toml.specs.Data.{get_member};
ghost use Rattle.pklist.specs.Allow.{cost_limits_of, document_of};
ghost use Rattle.pkguard.specs.Guard.{Answers, IsListFault};
ghost use Rattle.pkguard.specs.Listed.{flag, said_by};
ghost use Rattle.pkguard.specs.Loading.{IsListTold};

use crate::list;
use crate::verdict::{self, Verdict};
use pklist::Allow;
use std::alloc::Global;

/// Which keys a list file has, for C: 1 where it has them, otherwise 0. Their defaults depend on
/// who reads the list.
#[repr(C)]
#[derive(Clone, Copy, Debug, PartialEq, Eq)]
pub struct Said {
    /// The table `limits`.
    pub limits: u32,
    /// Its key `numbers`.
    pub numbers: u32,
    /// Its key `levels`.
    pub levels: u32,
    /// Its key `weight`.
    pub weight: u32,
    /// Its key `work`.
    pub work: u32,
    /// Its key `clash`.
    pub clash: u32,
    /// Its key `memory`.
    pub memory: u32,
    /// The key `build` of the table `rules`.
    pub build: u32,
}

/// Reads a list file: which keys it has, and its substitutes, which are written to `room` if all of
/// them fit, each after its name, in the byte order of the names.
#[unsafe(no_mangle)]
pub extern "C" fn pkguard_list_told(
    alloc: Global,
    list: &[u8],
    room: &mut [u8],
    said: &mut Said,
    wanted: &mut u64,
    out: &mut Verdict,
) -> u32
    ensures answer { Answers result out.new
        (IsListTold list.now room.old room.new said.new wanted.new out.new) ⊥
        (IsListFault list.now room.old room.new out.new) ⊥ }
    ensures nothing { out.new.status ≢ 0 → wanted.new ≡ 0 }
    ensures same { out.new.status ≢ 0 → said.new ≡ said.old }
{
    *wanted = 0;
    *out = told(alloc, list, room, said, wanted);
    out.status
}

/// The verdict for a list file.
fn told(alloc: Global, list: &[u8], room: &mut [u8], said: &mut Said, wanted: &mut u64) -> Verdict
    ensures bound { result.status ≤ 2 }
    ensures never { result.status ≢ 1 }
    ensures told { result.status ≡ 0
        → IsListTold list.now room.old room.new said.new wanted.new result }
    ensures fault { result.status ≡ 2 → IsListFault list.now room.old room.new result }
    ensures nothing { result.status ≢ 0 → wanted.new ≡ wanted.old }
    ensures same { result.status ≢ 0 → said.new ≡ said.old }
{
    match list::list_from(alloc, list) {
        Err(error) => verdict::of_fault(error),
        Ok(allow) => {
            *said = said_by(&allow);
            *wanted = list::give_substitutes(&allow, room);
            verdict::of_list()
        }
    }
}

/// Which keys a list has.
fn said_by(list: &Allow) -> Said
    ensures { result ≡ said_by (get_member (codes "limits") (document_of list.now))
        (cost_limits_of list.now) }
{
    let costs = list.cost_limits();
    Said {
        limits: flag(list.has_limits()),
        numbers: flag(list.says_numbers()),
        levels: flag(costs.levels.is_some()),
        weight: flag(costs.weight.is_some()),
        work: flag(costs.work.is_some()),
        clash: flag(costs.clash.is_some()),
        memory: flag(costs.memory.is_some()),
        build: flag(costs.builds.is_some()),
    }
}

/// A flag as C has it.
fn flag(is: bool) -> u32
    ensures { result ≡ flag is }
{
    if is { 1 } else { 0 }
}
