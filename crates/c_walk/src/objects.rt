//! Objects: what declarators declare (ISO C 6.7.6).
ghost use Rattle.std.specs.Prelude.{◌≡◌};
ghost use Rattle.c_base.specs.declared.base.CBase.TheVariants.{Void};
ghost use Rattle.c_typing.specs.Pointers.{is_base};
ghost use Rattle.c_walk.specs.Objects as spec;

use c_base::{CBase, CType};
use c_typing::{Declared, Operand};

/// What a declarator declares.
#[derive(Clone, Copy, Debug, PartialEq, Eq)]
pub(crate) struct Object {
    /// Its type, that of its cells where it is an array; None where the type is refused.
    pub(crate) declared: Option<Declared>,
    /// Whether it is an array.
    pub(crate) is_array: bool,
    /// How many cells it has; None where the size is refused.
    pub(crate) cells: Option<u32>,
    /// Whether it lasts for the whole run (ISO C 6.2.4).
    pub(crate) lasts: bool,
}

impl Object {
    /// The type that a value of its initialiser is converted to. None where it is refused.
    pub(crate) fn cell_type(self) -> Option<CType>
        ensures { result ≡ spec.cell_type self }
    {
        match self.declared {
            None => None,
            Some(declared) => Some(declared.of),
        }
    }

    /// What its name is in an expression. None where its declaration is refused.
    pub(crate) fn operand(self) -> Option<Operand>
        ensures { result ≡ spec.operand_of self }
    {
        declared_operand(self.is_array, self.cells, self.declared)
    }
}

fn is_void(of: CType) -> bool
    ensures { result ≡ is_base Void of }
{
    of.stars == 0 && of.base == CBase::Void
}

/// What is declared, unless its type is refused: `void`, or an array of cells with two stars.
pub(crate) fn unrefused(is_array: bool, declared: Option<Declared>) -> Option<Declared>
    ensures { result ≡ spec.unrefused is_array declared }
{
    match declared {
        None => None,
        Some(declared) => {
            if is_void(declared.of) {
                None
            } else if is_array && declared.of.stars > 1 {
                None
            } else {
                Some(declared)
            }
        }
    }
}

fn array_operand(cells: Option<u32>, declared: Declared) -> Option<Operand>
    ensures { result ≡ spec.array_operand cells declared }
{
    match cells {
        None => None,
        Some(_) => Some(Operand::array(declared.of, declared.constant)),
    }
}

/// What the name of what is declared is in an expression.
pub(crate) fn declared_operand(
    is_array: bool,
    cells: Option<u32>,
    declared: Option<Declared>,
) -> Option<Operand>
    ensures { result ≡ spec.declared_operand is_array cells declared }
{
    match declared {
        None => None,
        Some(declared) => {
            if is_array {
                array_operand(cells, declared)
            } else {
                Some(Operand::object(declared.of, declared.constant))
            }
        }
    }
}
