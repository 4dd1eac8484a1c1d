//! The numbers that C sees. They never change, because C programs are compiled with them. A new
//! reason or error gets the next free number, whatever its position in the order.
ghost use Rattle.std.specs.Prelude.{◌≡◌};
ghost use Rattle.pkguard.specs.Codes.{excess_code, fault_code, reason_code, reason_number};

use pklist::{AllowError, Where};
use pkload::Excess;
use pkops::Reason;

/// The number of a reason.
pub fn reason_code(reason: Reason) -> u32
    ensures { result ≡ reason_code reason }
{
    match reason {
        Reason::Source => 1,
        Reason::Truncated => 2,
        Reason::UnknownOpcode(_) => 3,
        Reason::BadArgument => 4,
        Reason::TooLarge => 5,
        Reason::ExtensionCode => 6,
        Reason::UnsupportedProtocol(_) => 7,
        Reason::BrokenFrame => 8,
        Reason::MissingMark => 9,
        Reason::MissingItem => 10,
        Reason::MissingMemo(_) => 11,
        Reason::OddItems => 12,
        Reason::WrongClass => 13,
        Reason::NotText => 14,
        Reason::UnknownImport => 15,
        Reason::ImportOffList => 16,
        Reason::LeftOver => 17,
        Reason::OutOfMemory => 18,
        Reason::NotAscii => 19,
    }
}

/// The number of a limit on what loading costs. A refused allocation has the number of that reason.
pub fn excess_code(excess: Excess) -> u32
    ensures { result ≡ excess_code excess }
{
    match excess {
        Excess::DeepKey => 20,
        Excess::HeavyKeys => 21,
        Excess::ManyKeys => 22,
        Excess::MuchMemory => 23,
        Excess::BuildsImport => 24,
        Excess::OutOfMemory => 18,
    }
}

/// The code byte, protocol or memo number that a reason carries; otherwise 0.
pub fn reason_number(reason: Reason) -> u32
    ensures { result ≡ reason_number reason }
{
    match reason {
        Reason::UnknownOpcode(code) => u32::from(code),
        Reason::UnsupportedProtocol(version) => u32::from(version),
        Reason::MissingMemo(number) => number,
        _ => 0,
    }
}

/// The number of an error in a list file.
pub fn fault_code(error: AllowError) -> u32
    ensures { result ≡ fault_code error }
{
    match error {
        AllowError::Syntax => 1,
        AllowError::Shape(Where::Version) => 2,
        AllowError::Shape(Where::TopKey) => 3,
        AllowError::Shape(Where::Imports) => 4,
        AllowError::Shape(Where::Module) => 5,
        AllowError::Shape(Where::Name) => 6,
        AllowError::Version => 7,
        AllowError::OutOfMemory => 8,
        AllowError::Shape(Where::Limits) => 9,
        AllowError::Shape(Where::LimitKey) => 10,
        AllowError::Shape(Where::Limit) => 11,
        AllowError::Shape(Where::Rules) => 12,
        AllowError::Shape(Where::RuleKey) => 13,
        AllowError::Shape(Where::Rule) => 14,
        AllowError::Shape(Where::Substitutes) => 15,
        AllowError::Shape(Where::Substitute) => 16,
    }
}
