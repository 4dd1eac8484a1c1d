//! Whether an instruction is billed, or why the bill can't be kept.

ghost use Rattle.std.specs.Prelude.{◌≡◌, ◌+◌, IfErr, IfOk, IsErr, Ok, false, true};
ghost use Rattle.pkload.specs.Private.Lost.{IsTooGreat};

/// Why the bill can't be kept.
#[derive(Clone, Copy)]
pub enum Halt {
    /// Something is missing, which the check refuses, or a sum is too great.
    Lost,
    /// An allocation was refused.
    OutOfMemory,
}

/// The sum, if it fits.
#[inline]
pub fn plus(sum: u64, more: u64) -> Result<u64, Halt>
    ensures ok { IfOk result (λ total. total ≡ sum + more) }
    ensures err { IfErr result (IsTooGreat (sum + more)) }
{
    if sum > u64::MAX - more {
        return Err(Halt::Lost);
    }
    Ok(sum + more)
}

/// Whether an instruction is billed. It fits a register, where a result would lie in memory.
#[derive(Clone, Copy, PartialEq, Eq)]
pub enum Billing {
    /// It is, and neither counts a key nor ends the pickle.
    Plain,
    /// It is, and may count keys or end the pickle.
    Noted,
    /// It can't be.
    Failed,
}

impl Billing {
    /// Of a result that says whether the instruction may count keys or end the pickle.
    pub fn of(noted: Result<bool, Halt>) -> Billing
        ensures plain { result ≡ Billing.Plain → noted ≡ Ok false }
        ensures noted { result ≡ Billing.Noted → noted ≡ Ok true }
        ensures failed { result ≡ Billing.Failed → IsErr noted }
    {
        match noted {
            Ok(false) => Billing::Plain,
            Ok(true) => Billing::Noted,
            Err(_) => Billing::Failed,
        }
    }
}
