//! A type of C.
ghost use Rattle.std.specs.Prelude.{◌≡◌};
ghost use Rattle.c_base.specs.Types.{plain, is_number, is_pointer};

use crate::base::CBase;

/// A type of C: a base with at most two stars. `base_const` is the const of the base, `inner_const`
/// the const between two stars (ISO C 6.7.3 and 6.7.6.1).
#[derive(Clone, Copy, Debug, PartialEq, Eq)]
pub struct CType {
    /// What stands before the stars.
    pub base: CBase,
    /// Whether that is const.
    pub base_const: bool,
    /// How many stars, from 0 to 2.
    pub stars: u8,
    /// Whether the pointer that a pointer points to is const.
    pub inner_const: bool,
}

impl CType {
    /// The base without stars and without const.
    pub fn plain(base: CBase) -> CType
        ensures { result ≡ plain base }
    {
        CType {
            base,
            base_const: false,
            stars: 0,
            inner_const: false,
        }
    }

    /// Whether the values are whole numbers.
    pub fn is_number(self) -> bool
        ensures { result ≡ is_number self }
    {
        self.stars == 0 && self.base.is_whole()
    }

    /// Whether the values are pointers.
    pub fn is_pointer(self) -> bool
        ensures { result ≡ is_pointer self }
    {
        self.stars != 0
    }
}
