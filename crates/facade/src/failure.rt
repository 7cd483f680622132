// Why no question is answered, and the number that says what a call came to.
ghost use Rattle.std.specs.Prelude.{◌≡◌};
ghost use Rattle.facade.specs.Outcomes.{code_of};
ghost use Rattle.facade.specs.declared.failure.Failure.TheVariants.{Refused, NoMemory};

use refusals::{FileFault, Refusal, SheetFault};
use std::alloc::AllocError;

const ANSWERED: u32 = 0;

const REFUSED: u32 = 1;

const NO_MEMORY: u32 = 2;

// A sheet or a mask of hidden options that a rule file may not have, or no memory for the rules.
#[derive(Clone, Copy)]
pub(crate) enum Failure {
    Refused,
    NoMemory,
}

impl From<SheetFault> for Failure {
    ghost from_gives = { λ x r. r ≡ Refused };

    fn from(_fault: SheetFault) -> Failure {
        Failure::Refused
    }
}

impl From<Refusal> for Failure {
    ghost from_gives = { λ x r. r ≡ Refused };

    fn from(_refusal: Refusal) -> Failure {
        Failure::Refused
    }
}

impl From<FileFault> for Failure {
    ghost from_gives = { λ x r. r ≡ Refused };

    fn from(_fault: FileFault) -> Failure {
        Failure::Refused
    }
}

impl From<AllocError> for Failure {
    ghost from_gives = { λ x r. r ≡ NoMemory };

    fn from(_error: AllocError) -> Failure {
        Failure::NoMemory
    }
}

// The number that a call returns.
pub(crate) fn code(answered: Result<(), Failure>) -> u32
    ensures { result ≡ code_of answered }
{
    match answered {
        Ok(()) => ANSWERED,
        Err(Failure::Refused) => REFUSED,
        Err(Failure::NoMemory) => NO_MEMORY,
    }
}
