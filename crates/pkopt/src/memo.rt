//! How instructions use the memo.

ghost use Rattle.std.specs.Prelude.{◌≡◌};
ghost use Rattle.pkopt.specs.Private.Passes.{memo_use};

use pkops::Op;

/// How an opcode uses the memo.
#[derive(Clone, Copy)]
pub(crate) enum MemoUse {
    /// It writes under the number that it names.
    Stores,
    /// It writes under the number of memo entries.
    StoresNext,
    /// It reads the number that it names.
    Fetches,
    /// It does neither.
    Neither,
}

/// How an opcode uses the memo.
#[inline(always)]
pub(crate) fn memo_use(op: Op) -> MemoUse
    ensures { result ≡ memo_use op }
{
    match op {
        Op::Put => MemoUse::Stores,
        Op::BinPut => MemoUse::Stores,
        Op::LongBinPut => MemoUse::Stores,
        Op::Memoize => MemoUse::StoresNext,
        Op::Get => MemoUse::Fetches,
        Op::BinGet => MemoUse::Fetches,
        Op::LongBinGet => MemoUse::Fetches,
        _ => MemoUse::Neither,
    }
}
