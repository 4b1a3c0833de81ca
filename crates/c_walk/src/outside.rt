//! Where declarations and statements stand, names aside.
ghost use Rattle.std.specs.Prelude.{◌≡◌};
ghost use Rattle.c_walk.specs.Around as spec;

use crate::defines::Defines;
use c_base::CType;
use c_functions::FunctionType;
use c_typing::Place;

/// Where declarations and statements stand, as far as the rules look at it, names aside.
#[derive(Clone, Copy)]
pub struct Outside<'s> {
    /// The number of the file, from 0.
    pub file: u32,
    /// The types of the file's functions, in text order.
    pub functions: &'s [FunctionType],
    /// The values of the file's defines.
    pub defines: &'s Defines,
    /// The type of the result of the function around; None outside, and where it is refused.
    pub result: Option<CType>,
}

/// A token of the file.
pub(crate) fn at(outside: &Outside<'_>, token: u32) -> Place
    ensures { result ≡ spec.at (spec.around_of outside.now) token }
{
    Place {
        file: outside.file,
        token,
    }
}
