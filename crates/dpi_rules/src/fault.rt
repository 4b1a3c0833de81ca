//! How a checker refuses.
ghost use Rattle.std.specs.Prelude.{◌≡◌, List};
ghost use Rattle.dpi_rules.specs.declared.violation.Violation.{Violation};
ghost use Rattle.dpi_rules.specs.Least.{least};
ghost use Rattle.dpi_rules.specs.Verdict.{verdict, IsVerdict};

use crate::Violation;
use dpi_ports::NoMemory;
use std::alloc::{AllocError, AllocFailed};

/// Why a checker refused the trees.
#[derive(Clone, Copy, Debug, PartialEq, Eq)]
pub enum CheckFault {
    /// A rule is broken, first at this place.
    Violation(Violation),
    /// No memory was found.
    NoMemory,
}

impl From<AllocError> for CheckFault {
    ghost use Rattle.std.specs.Prelude.{◌≡◌};
    ghost use Rattle.dpi_rules.specs.declared.fault.CheckFault.TheVariants.{NoMemory};

    ghost from_gives = { λ _ e. e ≡ NoMemory };

    fn from(_: AllocError) -> CheckFault {
        CheckFault::NoMemory
    }
}

impl From<NoMemory> for CheckFault {
    ghost use Rattle.std.specs.Prelude.{◌≡◌};
    ghost use Rattle.dpi_rules.specs.declared.fault.CheckFault.TheVariants.{NoMemory};

    ghost from_gives = { λ _ e. e ≡ NoMemory };

    fn from(_: NoMemory) -> CheckFault {
        CheckFault::NoMemory
    }
}

impl<T: Drop> From<AllocFailed<T>> for CheckFault {
    ghost use Rattle.std.specs.Prelude.{◌≡◌};
    ghost use Rattle.dpi_rules.specs.declared.fault.CheckFault.TheVariants.{NoMemory};

    ghost from_gives = { λ _ e. e ≡ NoMemory };

    fn from(_: AllocFailed<T>) -> CheckFault {
        CheckFault::NoMemory
    }
}

/// The value where nothing was found, else the refusal. Where what was found is the least of a list
/// of violations, this is a verdict on that list.
pub fn answer<T: Drop>(value: T, found: Option<Violation>) -> Result<T, CheckFault>
    ensures exact { result ≡ verdict value found }
    ensures least { (vs : List Violation) → found ≡ least vs → IsVerdict vs result }
{
    match found {
        None => Ok(value),
        Some(violation) => Err(CheckFault::Violation(violation)),
    }
}
