//! The cells of objects (ISO C 6.7.6.2).
ghost use Rattle.std.specs.Prelude.{◌≡◌};
ghost use Rattle.c_functions.specs.Objects.{names_of};
ghost use Rattle.c_program.specs.Sizes as spec;

use c_functions::{Defines, size_cells};
use c_tree::Array;

/// The cells of a declarator, one where it is no array. None where its size is refused.
pub(crate) fn array_cells(defines: &Defines<'_>, array: &Option<Array>) -> Option<u32>
    ensures { result ≡ spec.array_cells (names_of defines.now) array.now }
{
    match array {
        None => Some(1),
        Some(array) => size_cells(defines, &array.size),
    }
}
