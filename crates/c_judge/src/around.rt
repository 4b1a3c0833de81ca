//! Where an expression stands.
ghost use Rattle.std.specs.Prelude.{◌≡◌};
ghost use Rattle.c_judge.specs.Calls as spec;

use c_functions::FunctionType;
use c_names::Scopes;
use c_typing::Place;

/// Where an expression stands, as far as its rules look at it.
#[derive(Clone, Copy)]
pub struct Around<'s, 'n> {
    /// The number of the file, from 0.
    pub file: u32,
    /// The scopes around it.
    pub scopes: &'s Scopes<'n>,
    /// The types of the functions, by the numbers that their declarer gave them.
    pub functions: &'s [FunctionType],
}

/// A token of the file.
pub(crate) fn at(around: &Around<'_, '_>, token: u32) -> Place
    ensures { result ≡ spec.at (spec.env_of around.now) token }
{
    Place {
        file: around.file,
        token,
    }
}
