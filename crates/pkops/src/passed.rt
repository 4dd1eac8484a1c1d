//! Opcodes whose payload a reader may skip.

ghost use Rattle.std.specs.Prelude.{◌≡◌};
ghost use Rattle.pkops.specs.Payloads.{is_passed};

use crate::op::Op;

impl Op {
    /// Whether the payload is plain bytes, which a reader may take without holding them: BINBYTES,
    /// SHORT_BINBYTES, BINBYTES8 and BYTEARRAY8.
    pub fn passed(self) -> bool
        ensures { result ≡ is_passed self }
    {
        matches!(
            self,
            Op::BinBytes | Op::ShortBinBytes | Op::BinBytes8 | Op::ByteArray8
        )
    }
}
