//! Faults of rules, told apart from refused memory.

ghost use Rattle.std.specs.Prelude.{◌≡◌, MatchResult};

use dv_bag::{Fault, RuleError};
use std::alloc::AllocError;

/// The fault in an error of a rule.
///
/// # Errors
///
/// The error is no fault: memory was refused.
pub fn fault_in(error: RuleError) -> Result<Fault, AllocError>
    ensures { MatchResult result (λ fault. error ≡ RuleError.Fault fault)
        (λ none. error ≡ RuleError.Memory) }
{
    match error {
        RuleError::Fault(fault) => Ok(fault),
        RuleError::Memory => Err(AllocError),
    }
}
