//! What a type of C is without its stars.
ghost use Rattle.std.specs.Prelude.{◌≡◌};
ghost use Rattle.c_base.specs.Base.{width, is_signed, is_whole, promoted, common};

/// What a type of C is without its stars: `void`, a whole type, or one of `svdpi.h`
/// (ISO C 6.2.5; IEEE 1800-2017, H.7 and H.10).
#[derive(Clone, Copy, Debug, PartialEq, Eq)]
pub enum CBase {
    /// `void`, which has no values.
    Void,
    /// `char` and `signed char`, signed, 8 bits.
    Char,
    /// `unsigned char`, `svBit` and `svLogic`, 8 bits.
    UnsignedChar,
    /// `short`, 16 bits.
    Short,
    /// `unsigned short`, 16 bits.
    UnsignedShort,
    /// `int`, 32 bits.
    Int,
    /// `unsigned int` and `svBitVecVal`, 32 bits.
    UnsignedInt,
    /// `long long`, 64 bits.
    LongLong,
    /// `unsigned long long`, 64 bits.
    UnsignedLongLong,
    /// `svLogicVecVal`, a pair of aval and bval.
    LogicVec,
    /// `svOpenArrayHandle`, opaque.
    Handle,
    /// `svScope`, opaque.
    Scope,
}

impl CBase {
    /// The bits of a whole type; 0 for the others (ISO C 6.2.6.2).
    pub fn width(self) -> u32
        ensures { result ≡ width self }
    {
        match self {
            CBase::Char | CBase::UnsignedChar => 8,
            CBase::Short | CBase::UnsignedShort => 16,
            CBase::Int | CBase::UnsignedInt => 32,
            CBase::LongLong | CBase::UnsignedLongLong => 64,
            CBase::Void | CBase::LogicVec | CBase::Handle | CBase::Scope => 0,
        }
    }

    /// Whether this is a signed whole type, as `char` is (ISO C 6.2.5).
    pub fn is_signed(self) -> bool
        ensures { result ≡ is_signed self }
    {
        matches!(
            self,
            CBase::Char | CBase::Short | CBase::Int | CBase::LongLong
        )
    }

    /// Whether the values are whole numbers (ISO C 6.2.5).
    pub fn is_whole(self) -> bool
        ensures { result ≡ is_whole self }
    {
        self.width() != 0
    }

    /// The type to which a whole type is promoted: `int` where that has fewer bits, else the type
    /// itself (ISO C 6.3.1.1). Other bases stay.
    pub fn promoted(self) -> CBase
        ensures { result ≡ promoted self }
    {
        match self {
            CBase::Char | CBase::UnsignedChar | CBase::Short | CBase::UnsignedShort => CBase::Int,
            other => other,
        }
    }

    /// The type at which an operator works on two whole numbers, by the usual arithmetic
    /// conversions: of the two promoted types the wider one, and of two as wide the unsigned one
    /// (ISO C 6.3.1.8).
    pub fn common(self, other: CBase) -> CBase
        ensures { result ≡ common self other }
    {
        let a = self.promoted();
        let b = other.promoted();
        if a.width() < b.width() || (a.width() == b.width() && a.is_signed()) {
            b
        } else {
            a
        }
    }
}
