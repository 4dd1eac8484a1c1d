//! The instructions of a slice.

ghost use Rattle.std.specs.Prelude.{◌≡◌};
ghost use Rattle.pkread.specs.Genops.{walk_of};

use crate::walk::Genops;
use pkops::Limits;

/// The instructions at the front of the bytes with their offsets, up to STOP or a refusal, as
/// CPython's `pickletools.genops` gives them. Their arguments are slices of the bytes. Allocates
/// nothing.
///
/// ```rust
/// use pkops::{Limits, Op};
/// use pkread::{Reason, genops};
///
/// let mut items = genops(b"K\x07\xff", &Limits::STANDARD);
/// let Some(Ok((at, inst))) = items.next() else {
///     panic!(rt; "there is no instruction");
/// };
/// assert_eq!(rt; (at, inst.op(), inst.len()), (0, Op::BinInt1, 2));
/// let Some(Err(refusal)) = items.next() else {
///     panic!(rt; "ff is an opcode");
/// };
/// assert_eq!(rt; (refusal.at, refusal.reason), (2, Reason::UnknownOpcode(255)));
/// ```
pub fn genops<'a>(bytes: &'a [u8], limits: &Limits) -> Genops<'a>
    ensures { result ≡ walk_of bytes.now limits.now.counted }
{
    Genops::new(bytes, limits)
}
