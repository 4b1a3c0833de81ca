//! Types and sizes of objects (ISO C 6.7.6).
ghost use Rattle.std.specs.Prelude.{◌≡◌};
ghost use Rattle.std.specs.Option.{option_copied};
ghost use Rattle.c_functions.specs.Objects as spec;

use crate::defines::Defines;
use crate::params::is_void;
use c_base::CType;
use c_library::{is_word_count, scalar_named, word_count};
use c_tree::{Array, CType as TypeTree, Declarator, Define, Name, Size};
use c_typing::{Declared, cells_of, declared_of};
use dpi_literal::{CConstant, c_define_value, c_number};

/// The type and size of an object.
#[derive(Clone, Copy, Debug, PartialEq, Eq)]
pub struct ObjectType {
    /// The type, or that of a cell of an array.
    pub of: CType,
    /// Whether it is const itself.
    pub constant: bool,
    /// How many cells an array has; None where the object isn't written as an array.
    pub cells: Option<u32>,
}

fn constant_cells(number: CConstant) -> Option<u32>
    ensures { result ≡ spec.constant_cells number }
{
    cells_of(number.value)
}

fn define_cells(define: &Define) -> Option<u32>
    ensures { result ≡ spec.define_cells define.now }
{
    constant_cells(c_define_value(define.bytes.as_slice()))
}

fn scalar_cells(constant: Option<u8>) -> Option<u32>
    ensures { result ≡ spec.scalar_cells constant }
{
    match constant {
        None => None,
        Some(value) => cells_of(value as i128),
    }
}

fn named_cells(name: &Name, define: Option<&Define>) -> Option<u32>
    ensures { result ≡ spec.named_cells name.now (option_copied define.entry) }
{
    match define {
        None => scalar_cells(scalar_named(name.bytes.as_slice())),
        Some(define) => define_cells(define),
    }
}

/// The cells that the size of an array gives (ISO C 6.7.6.2): a number, a define before it in its
/// file, a constant of `svdpi.h`, or the macro for the words of a vector. None where it isn't from 1
/// to 65,536.
pub fn size_cells(defines: &Defines<'_>, size: &Size) -> Option<u32>
    ensures { result ≡ spec.size_cells (spec.names_of defines.now) size.now }
{
    match size {
        Size::Number(number) => cells_of(c_number(number.bytes.as_slice()).value),
        Size::Name(name) => named_cells(name, defines.get(name.bytes.as_slice())),
        Size::Call(name, _, width) => {
            if is_word_count(name.bytes.as_slice()) {
                cells_of(word_count(width.bytes.as_slice()).value)
            } else {
                None
            }
        }
    }
}

fn typed(declared: Declared, cells: Option<u32>) -> ObjectType
    ensures { result ≡ spec.typed declared cells }
{
    ObjectType {
        of: declared.of,
        constant: declared.constant,
        cells,
    }
}

fn single(declared: Declared) -> Option<ObjectType>
    ensures { result ≡ spec.single declared }
{
    if is_void(declared.of) {
        None
    } else {
        Some(typed(declared, None))
    }
}

fn array_of(declared: Declared, cells: Option<u32>) -> Option<ObjectType>
    ensures { result ≡ spec.array_of declared cells }
{
    match cells {
        None => None,
        Some(cells) => {
            if is_void(declared.of) {
                None
            } else if declared.of.stars <= 1 {
                Some(typed(declared, Some(cells)))
            } else {
                None
            }
        }
    }
}

fn typed_as(defines: &Defines<'_>, declared: Declared, array: &Option<Array>) -> Option<ObjectType>
    ensures { result ≡ spec.typed_as (spec.names_of defines.now) declared array.now }
{
    match array {
        None => single(declared),
        Some(array) => array_of(declared, size_cells(defines, &array.size)),
    }
}

/// The type and size of a declared object, where these defines stand before. None where a part is
/// refused: void, too many stars, or a size that is none.
pub(crate) fn object_type(
    defines: &Defines<'_>,
    kind: &TypeTree,
    declarator: &Declarator,
) -> Option<ObjectType>
    ensures { result ≡ spec.object_type (spec.names_of defines.now) kind.now declarator.now }
{
    match declared_of(kind, declarator.stars.as_slice()) {
        None => None,
        Some(declared) => typed_as(defines, declared, &declarator.array),
    }
}
