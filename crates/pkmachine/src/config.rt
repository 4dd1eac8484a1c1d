//! What stays the same during a check.

use crate::old_strings::OldStrings;
use pkops::Limits;
use std::alloc::Global;

/// What stays the same during a check, except the policy.
#[derive(Clone, Copy)]
pub struct MachineConfig {
    pub alloc: Global,
    pub limits: Limits,
    /// How an unpickler decodes Python 2 strings.
    pub old_strings: OldStrings,
}
