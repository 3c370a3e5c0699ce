//! Why a call ends early, and the number that it answers.
ghost use Rattle.std.specs.Prelude.{◌≡◌};
ghost use Rattle.unit.specs.Numbers.{number};

use rulebook::Fault;
use std::alloc::AllocError;

/// What a call answers where there is no memory for the chart. No fault has this number.
pub const OUT_OF_MEMORY: u16 = 1000;

// Why a call ends early.
#[derive(Clone, Copy, Debug, PartialEq, Eq)]
pub(super) enum Failure {
    Refused(Fault),
    OutOfMemory,
}

impl From<Fault> for Failure {
    ghost use Rattle.unit.specs.declared.failures.Failure.TheVariants.{Refused};

    ghost from_gives = { λ f r. r ≡ Refused f };

    fn from(fault: Fault) -> Failure {
        Failure::Refused(fault)
    }
}

impl From<AllocError> for Failure {
    ghost use Rattle.unit.specs.declared.failures.Failure.TheVariants.{OutOfMemory};

    ghost from_gives = { λ _ r. r ≡ OutOfMemory };

    fn from(_error: AllocError) -> Failure {
        Failure::OutOfMemory
    }
}

// The number that a call answers.
pub(super) fn number(outcome: Result<(), Failure>) -> u16
    ensures { result ≡ number outcome }
{
    match outcome {
        Ok(()) => 0,
        Err(Failure::Refused(fault)) => fault.number(),
        Err(Failure::OutOfMemory) => OUT_OF_MEMORY,
    }
}
