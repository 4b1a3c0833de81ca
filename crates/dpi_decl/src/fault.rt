//! Why a design and a program aren't linked.

use dpi_ports::NoMemory;
use dpi_rules::Violation;
use std::alloc::AllocError;
use thiserror::Error;

/// Why a design and a program aren't linked.
#[derive(Clone, Copy, Debug, PartialEq, Eq, Error)]
pub enum LinkFault {
    /// A rule of linking is broken in a SystemVerilog file, first at this place.
    #[error("a rule of linking is broken in a SystemVerilog file")]
    Sv(Violation),
    /// A rule of linking is broken in a C file, first at this place, and in no SystemVerilog file.
    #[error("a rule of linking is broken in a C file")]
    C(Violation),
    /// No memory was found.
    #[error("out of memory")]
    NoMemory,
}

impl From<NoMemory> for LinkFault {
    ghost use Rattle.std.specs.Prelude.{◌≡◌};
    ghost use Rattle.dpi_decl.specs.declared.fault.LinkFault.TheVariants.{NoMemory};

    ghost from_gives = { λ _ e. e ≡ NoMemory };

    fn from(_: NoMemory) -> LinkFault {
        LinkFault::NoMemory
    }
}

impl From<AllocError> for LinkFault {
    ghost use Rattle.std.specs.Prelude.{◌≡◌};
    ghost use Rattle.dpi_decl.specs.declared.fault.LinkFault.TheVariants.{NoMemory};

    ghost from_gives = { λ _ e. e ≡ NoMemory };

    fn from(_: AllocError) -> LinkFault {
        LinkFault::NoMemory
    }
}
