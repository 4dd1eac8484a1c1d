//! The files that a command reads.
ghost use Rattle.std.specs.Prelude.{◌≡◌, IfOk, IfSome};
ghost use Rattle.pktool.specs.Answers.{HasContent, IsListIn};
ghost use Rattle.pktool.specs.Blocks.{failed_reads, unpulled};

use crate::blocks::Blocks;
use crate::fault::Fault;
use crate::host::Host;
use pklist::{Allow, AllowError};
use std::alloc::Global;
use std::io::{ErrorKind, Read};
use std::{io, str};

/// The list in a file.
pub fn read_list<'a, H: Host>(host: &H, alloc: Global, path: &'a str) -> Result<Allow, Fault<'a>>
    ensures { IfOk result (IsListIn (H.content host.now path.now)) }
{
    let Ok(mut file) = host.open(path) else {
        return Err(Fault::Unread(path));
    };
    let Some(bytes) = read_rest(alloc, &mut file, path)? else {
        return Err(Fault::List(AllowError::OutOfMemory));
    };
    let Ok(text) = str::from_utf8(bytes.as_slice()) else {
        return Err(Fault::List(AllowError::Syntax));
    };
    match Allow::from_toml(alloc, text) {
        Ok(list) => Ok(list),
        Err(error) => Err(Fault::List(error)),
    }
}

/// All bytes that an open file has left, or `None` if an allocation was refused. The path is for
/// the fault.
pub fn read_rest<'a, F: Read>(
    alloc: Global,
    file: &mut F,
    path: &'a str,
) -> Result<Option<Vec<u8>>, Fault<'a>>
    ensures { IfOk result (λ found. IfSome found (λ bytes.
        HasContent (F.remaining file.old) bytes.items)) }
{
    let mut bytes = Vec::new(alloc);
    match file.read_to_end(&mut bytes) {
        Ok(_) => Ok(Some(bytes)),
        Err(error) => match error.kind() {
            ErrorKind::OutOfMemory => Ok(None),
            _ => Err(Fault::Unread(path)),
        },
    }
}

/// A file as a source of bytes, read in blocks.
pub fn open_source<H: Host>(host: &H, alloc: Global, path: &str) -> io::Result<Blocks<H::Input>>
    ensures left { IfOk result (λ source.
        unpulled H.Input.remaining source ≡ H.content host.now path.now) }
    ensures failures { IfOk result (λ source. failed_reads source ≡ 0) }
{
    Ok(Blocks::new(alloc, host.open(path)?)?)
}
