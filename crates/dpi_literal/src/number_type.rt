//! The types of constants of C.

ghost use Rattle.std.specs.Prelude.{◌≡◌};
ghost use Rattle.dpi_literal.specs.Constants as spec;

/// The types that a constant of C can have, in the order in which they are tried
/// (ISO C 6.4.4.1, paragraph 5).
#[derive(Clone, Copy, Debug, Drop, PartialEq, Eq)]
pub enum NumberType {
    /// `int`, 32 bits.
    Int,
    /// `unsigned int`, 32 bits.
    UnsignedInt,
    /// `long long`, 64 bits.
    LongLong,
    /// `unsigned long long`, 64 bits.
    UnsignedLongLong,
}

impl NumberType {
    /// The greatest value of the type (ISO C 5.2.4.2.1).
    pub fn greatest(self) -> u64
        ensures { result ≡ spec.greatest_of self }
    {
        match self {
            NumberType::Int => 2_147_483_647,
            NumberType::UnsignedInt => 4_294_967_295,
            NumberType::LongLong => 9_223_372_036_854_775_807,
            NumberType::UnsignedLongLong => u64::MAX,
        }
    }

    /// Whether the type has values below 0 (ISO C 6.2.5).
    pub fn is_signed(self) -> bool
        ensures { result ≡ spec.is_signed_type self }
    {
        matches!(self, NumberType::Int | NumberType::LongLong)
    }

    /// Whether the type has 64 bits.
    pub fn is_long(self) -> bool
        ensures { result ≡ spec.is_long_type self }
    {
        matches!(self, NumberType::LongLong | NumberType::UnsignedLongLong)
    }
}
