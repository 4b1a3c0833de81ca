//! What a type points to, and which kinds of types there are (ISO C 6.2.5 and 6.7.6.1).
ghost use Rattle.std.specs.Prelude.{◌≡◌};
ghost use Rattle.c_typing.specs.Pointers as spec;

use c_base::{CBase, CType};

/// Whether the type is this base, const or not.
pub(crate) fn is_base(base: CBase, of: CType) -> bool
    ensures { result ≡ spec.is_base base of }
{
    of.stars == 0 && of.base == base
}

/// Whether the type is `svScope` or `svOpenArrayHandle`.
pub fn is_opaque(of: CType) -> bool
    ensures { result ≡ spec.is_opaque of }
{
    is_base(CBase::Handle, of) || is_base(CBase::Scope, of)
}

/// Whether the values are numbers or pointers.
pub fn is_scalar(of: CType) -> bool
    ensures { result ≡ spec.is_scalar of }
{
    of.is_number() || of.is_pointer()
}

/// The type without the const of its own, as a value of it has (ISO C 6.3.2.1); that of what a
/// pointer points to stays.
pub fn bare(of: CType) -> CType
    ensures { result ≡ spec.bare of }
{
    if of.stars == 0 {
        CType::plain(of.base)
    } else {
        of
    }
}

/// The type of the object that a pointer points to.
pub(crate) fn pointed(of: CType) -> CType
    ensures { result ≡ spec.pointed of }
{
    CType {
        base: of.base,
        base_const: of.base_const,
        stars: of.stars.saturating_sub(1),
        inner_const: false,
    }
}

/// Whether a pointer points to const objects.
pub(crate) fn points_to_const(of: CType) -> bool
    ensures { result ≡ spec.points_to_const of }
{
    if of.stars == 2 {
        of.inner_const
    } else {
        of.base_const
    }
}

/// The pointer to an object of the type that is const or isn't. There is no third star.
pub fn pointer_to(of: CType, constant: bool) -> CType
    ensures { result ≡ spec.pointer_to of constant }
{
    if of.stars == 0 {
        CType {
            base: of.base,
            base_const: constant,
            stars: 1,
            inner_const: false,
        }
    } else {
        CType {
            base: of.base,
            base_const: of.base_const,
            stars: 2,
            inner_const: constant,
        }
    }
}

/// Whether the type is `void *`, to const or not.
pub(crate) fn is_void_pointer(of: CType) -> bool
    ensures { result ≡ spec.is_void_pointer of }
{
    of.stars == 1 && of.base == CBase::Void
}

/// Whether the type is a pointer to objects that have cells: to anything but `void`.
pub(crate) fn is_cell_pointer(of: CType) -> bool
    ensures { result ≡ spec.is_cell_pointer of }
{
    of.is_pointer() && !is_void_pointer(of)
}

fn agree(a: bool, b: bool) -> bool
    ensures { result ≡ spec.agree a b }
{
    if a { b } else { !b }
}

/// Whether two pointers point to one type, the const of the objects aside (ISO C 6.2.7).
pub(crate) fn points_alike(s: CType, t: CType) -> bool
    ensures { result ≡ spec.points_alike s t }
{
    let base = s.base == t.base;
    s.stars == t.stars && base && (s.stars != 2 || agree(s.base_const, t.base_const))
}
