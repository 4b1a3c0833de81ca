//! Where the entries of a design's lists stand.

ghost use Rattle.std.specs.Prelude.{◌≡◌};
ghost use Rattle.sv_design.specs.declared.places.Place as at;

use sv_design::{Declaration, Import, Place, Subroutine};

/// What is declared at a token of a file.
pub trait HasPlace {
    /// The file, and the token.
    ghost place_of: { Self → at.Place };

    /// The file, and the token of the declared name.
    fn place(&self) -> Place
        ensures { result ≡ place_of self.now };
}

impl HasPlace for Declaration {
    ghost place_of = { λ d. record { file = d.file; token = d.token } };

    fn place(&self) -> Place {
        Place {
            file: self.file,
            token: self.token,
        }
    }
}

impl HasPlace for Subroutine {
    ghost place_of = { λ s. record { file = s.file; token = s.token } };

    fn place(&self) -> Place {
        Place {
            file: self.file,
            token: self.token,
        }
    }
}

impl HasPlace for Import {
    ghost place_of = { λ i. record { file = i.file; token = i.token } };

    fn place(&self) -> Place {
        Place {
            file: self.file,
            token: self.token,
        }
    }
}

impl HasPlace for Place {
    ghost place_of = { λ p. p };

    fn place(&self) -> Place {
        *self
    }
}
