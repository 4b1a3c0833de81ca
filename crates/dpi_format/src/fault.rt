//! Why a format has no pieces.

use std::alloc::{AllocError, AllocFailed};
use thiserror::Error;

/// Why no pieces are answered.
#[derive(Clone, Copy, Debug, PartialEq, Eq, Error)]
pub enum FormatFault {
    /// No pieces spell the format: somewhere its `%` begins none.
    #[error("unknown conversion in a format")]
    Unknown,
    /// No memory was found. No contract gives it a cause.
    #[error("out of memory")]
    NoMemory,
}

impl From<AllocError> for FormatFault {
    ghost use Rattle.std.specs.Prelude.{◌≡◌};
    ghost use Rattle.dpi_format.specs.declared.fault.FormatFault.TheVariants.{NoMemory};

    ghost from_gives = { λ _ e. e ≡ NoMemory };

    fn from(_: AllocError) -> FormatFault {
        FormatFault::NoMemory
    }
}

impl<T: Drop> From<AllocFailed<T>> for FormatFault {
    ghost use Rattle.std.specs.Prelude.{◌≡◌};
    ghost use Rattle.dpi_format.specs.declared.fault.FormatFault.TheVariants.{NoMemory};

    ghost from_gives = { λ _ e. e ≡ NoMemory };

    fn from(_: AllocFailed<T>) -> FormatFault {
        FormatFault::NoMemory
    }
}
