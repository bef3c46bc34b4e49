//! The faults of rules: why a rule makes no plan.
ghost use Rattle.std.specs.Prelude.{◌≡◌};

use std::alloc::AllocError;
use thiserror::Error;

/// Why `apply` did not apply a rule.
#[derive(Clone, Copy, Debug, PartialEq, Eq, Error)]
pub enum ApplyFault {
    /// The place names no node, or the rule makes nothing of the node there.
    #[error("the rule does not apply at the place")]
    NotApplicable,
    /// The plan would be deeper than 1,024.
    #[error("the plan would be deeper than 1,024")]
    TooDeep,
    /// Memory ran out.
    #[error("out of memory")]
    Memory,
}

impl ApplyFault {
    ghost use Rattle.rewrites.specs.Faults.{fault_number};

    /// Returns the number of the fault, from 1 in the order of the variants.
    pub fn number(self) -> u8
        ensures { result ≡ fault_number self }
    {
        match self {
            ApplyFault::NotApplicable => 1,
            ApplyFault::TooDeep => 2,
            ApplyFault::Memory => 3,
        }
    }
}

impl From<AllocError> for ApplyFault {
    ghost use Rattle.rewrites.specs.declared.fault.ApplyFault.TheVariants.{Memory};

    ghost from_gives = { λ _ fault. fault ≡ Memory };

    fn from(_error: AllocError) -> ApplyFault {
        ApplyFault::Memory
    }
}

// Why a rule makes no plan of a node: the node has another form or does not meet the rule's
// condition, or memory ran out.
#[derive(Clone, Copy)]
pub(crate) enum RuleFault {
    NotApplicable,
    Memory,
}
