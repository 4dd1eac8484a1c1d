//! `pktool` shows which names a pickle would import, without loading it.
//!
//! Access to files and streams is here; what the words, the pickle and the answer mean is in the
//! crates below.
#![tactic(auto)]

mod block;
mod blocks;
mod checking;
mod export_line;
mod exporting;
mod fault;
mod files;
mod gathering;
mod host;
mod naming;
mod optimizing;
mod passing;
mod replacing;
mod run;
mod words;

use crate::fault::{Fault, write_fault};
use std::io;
use std::io::BufWriter;
use std::process::ExitCode;

/// Runs the command in the program's arguments, and returns its status.
fn status<'a>(rt: &HostRuntime) -> Result<u8, Fault<'a>> {
    let alloc = rt.alloc();
    let words = words::words_of(rt)?;
    let texts: Vec<&str> = words.iter().map(|word| word.as_str()).collect(alloc)?;
    let Ok(mut out) = BufWriter::new(alloc, io::writer(rt)) else {
        return Err(Fault::OutOfMemory);
    };
    Ok(run::run(rt, alloc, texts.as_slice(), &mut out, &mut rt.stderr()))
}

fn main(rt: HostRuntime) -> ExitCode {
    match status(&rt) {
        Ok(status) => ExitCode::from(status),
        Err(fault) => {
            let _ = write_fault(&fault, &mut rt.stderr());
            ExitCode::from(2)
        }
    }
}
