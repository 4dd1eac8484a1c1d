//! Reads a source to its end.
ghost use Rattle.std.specs.Prelude.{IfErr, IfOk, IfSome, List, ℕ};
ghost use Rattle.pkread.specs.Rows.{Takes, sight};
ghost use Rattle.pktool.specs.Json.{OneFailed, ReadsWhole};

use pkread::{ReadFailed, Source};
use std::alloc::Global;

/// How many bytes are requested from a source at a time.
const SIZE: usize = 4096;

/// Takes all bytes of a source, or gives `None` if an allocation was refused.
///
/// # Errors
///
/// The source's, at the first read that fails.
#[tactic(auto, using(crate::proofs::Exports::takes_none, crate::proofs::Exports::takes_then))]
pub fn take_all<R: Source>(alloc: Global, source: &mut R) -> Result<Option<Vec<u8>>, ReadFailed>
    ensures all { IfOk result (λ found. IfSome found (λ bytes. ReadsWhole
        (sight R.left R.failures source.old) (sight R.left R.failures source.new) bytes.items)) }
    ensures some { IfOk result (λ _. (bytes : List ℕ) × Takes
        (sight R.left R.failures source.old) (sight R.left R.failures source.new) bytes) }
    ensures err { IfErr result (λ _. OneFailed (R.failures source.old) (R.failures source.new)) }
{
    let mut bytes = Vec::new(alloc);
    let mut block = [0u8; SIZE];
    'blocks: loop {
        let Ok(count) = source.pull(&mut block) else {
            return Err(ReadFailed);
        };
        if count == 0 {
            return Ok(Some(bytes));
        }
        let Ok(()) = bytes.extend_from_slice(&block[..count]) else {
            return Ok(None);
        };
    }
}
