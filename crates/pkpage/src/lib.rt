//! The listing of a pickle in memory: a static library with one function, which is compiled to
//! WebAssembly with those of `pkguard`.
//!
//! The function needs nothing from its arguments beyond their types, so it has no `requires`. It
//! keeps no state and leaves nothing to free.
#![tactic(auto)]

ghost use Rattle.std.specs.Prelude.{◌≡◌, ◌≢◌, ◌≤◌, IfOk};
ghost use Rattle.pkpage.specs.Page.{IsListed, IsListing, placed, status_of};

use pkops::Limits;
use pkprint::{Outcome, dis_to};
use pkread::Memory;
use std::alloc::Global;
use std::io;

/// Lists the pickle at the front of `pickle`, as `pktool dis` prints it, and writes the listing to
/// `room` if all of it fits; otherwise `room` stays unchanged. Returns 0 if the pickle would be
/// accepted with every import permitted, 1 if it is refused, and the last line says why, 2 if there
/// isn't enough memory for the listing. `wanted` receives the length of the listing in bytes.
#[unsafe(no_mangle)]
pub extern "C" fn pkpage_listing(
    alloc: Global,
    pickle: &[u8],
    room: &mut [u8],
    wanted: &mut u64,
) -> u32
    ensures bound { result ≤ 2 }
    ensures listed { result ≢ 2 → IsListing pickle.now room.old room.new wanted.new result }
    ensures nothing { result ≡ 2 → wanted.new ≡ 0 }
    ensures same { result ≡ 2 → room.new ≡ room.old }
{
    let mut text = Vec::new(alloc);
    match list(alloc, pickle, &mut text) {
        Ok(outcome) => {
            *wanted = text.len() as u64;
            place(&text, room);
            status(outcome)
        }
        Err(_) => {
            *wanted = 0;
            2
        }
    }
}

/// Appends the listing to a text.
fn list(alloc: Global, pickle: &[u8], text: &mut Vec<u8>) -> Result<Outcome, io::Error>
    ensures { IfOk result (IsListed pickle.now text.old.items text.new.items) }
{
    let mut source = Memory::new(pickle);
    dis_to(alloc, &mut source, &Limits::STANDARD, text)
}

/// Writes bytes to the front of `room`, if they fit.
fn place(bytes: &[u8], room: &mut [u8])
    ensures { room.new ≡ placed bytes.now room.old }
{
    if bytes.len() <= room.len() {
        room[..bytes.len()].copy_from_slice(bytes);
    }
}

fn status(outcome: Outcome) -> u32
    ensures told { result ≡ status_of outcome }
    ensures bound { result ≤ 1 }
{
    match outcome {
        Outcome::Done => 0,
        _ => 1,
    }
}
