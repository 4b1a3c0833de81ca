//! Where statements stand.
ghost use Rattle.std.specs.Prelude.{◌≡◌};
ghost use Rattle.sv_names.specs.Scopes.{scopes_of};
ghost use Rattle.sv_judge.specs.Calls.{env_of};
ghost use Rattle.sv_walk.specs.Around as spec;

use sv_judge::Place;
use sv_names::Scopes;
use sv_signatures::{ImportSignature, Signature};
use sv_typing::ExprType;

/// What is around statements, besides the scopes.
#[derive(Clone, Copy)]
pub struct Around<'b> {
    /// The number of the file, from 0.
    pub file: u32,
    /// The functions and tasks of the module, in text order.
    pub subroutines: &'b [Signature],
    /// The imports of the module, in text order.
    pub imports: &'b [ImportSignature],
    /// Whether a function is around them.
    pub in_function: bool,
    /// The type that `return` gives. None where none is given, or where it is refused.
    pub result: Option<ExprType>,
}

/// Where an expression stands, in these scopes.
pub(crate) fn place_in<'s, 'n>(around: &Around<'s>, scopes: &'s Scopes<'n>) -> Place<'s, 'n>
    ensures { env_of result ≡ spec.env (spec.inside around.now (scopes_of scopes.now)) }
{
    Place {
        file: around.file,
        scopes,
        subroutines: around.subroutines,
        imports: around.imports,
        in_function: around.in_function,
    }
}
