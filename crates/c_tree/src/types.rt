//! Types (ISO C 6.7.2 and 6.7.6.1). Each part has the number of its first token, from 0.

ghost use Rattle.std.specs.Prelude.{◌≡◌};
ghost use Rattle.c_tree.specs.Bases as spec;

use crate::class::Class;
use sqlite_items::Items;

/// A word of a base: a keyword for a type, or a named type (6.7.2).
#[derive(Clone, Copy, Debug, PartialEq, Eq)]
pub enum BaseWord {
    /// `void`
    Void,
    /// `char`
    Char,
    /// `short`
    Short,
    /// `int`
    Int,
    /// `long`
    Long,
    /// `signed`
    Signed,
    /// `unsigned`
    Unsigned,
    /// `svBit`
    SvBit,
    /// `svLogic`
    SvLogic,
    /// `svBitVecVal`
    SvBitVecVal,
    /// `svLogicVecVal`
    SvLogicVecVal,
    /// `svOpenArrayHandle`
    SvOpenArrayHandle,
    /// `svScope`
    SvScope,
    /// `int8_t`
    Int8,
    /// `uint8_t`
    Uint8,
    /// `int16_t`
    Int16,
    /// `uint16_t`
    Uint16,
    /// `int32_t`
    Int32,
    /// `uint32_t`
    Uint32,
    /// `int64_t`
    Int64,
    /// `uint64_t`
    Uint64,
}

impl BaseWord {
    /// The word that a token of this class stands for, if it does.
    pub fn of(class: Option<Class>) -> Option<BaseWord>
        ensures { result ≡ spec.base_word_of class }
    {
        match class {
            Some(Class::Void) => Some(BaseWord::Void),
            Some(Class::Char) => Some(BaseWord::Char),
            Some(Class::Short) => Some(BaseWord::Short),
            Some(Class::Int) => Some(BaseWord::Int),
            Some(Class::Long) => Some(BaseWord::Long),
            Some(Class::Signed) => Some(BaseWord::Signed),
            Some(Class::Unsigned) => Some(BaseWord::Unsigned),
            Some(Class::SvBit) => Some(BaseWord::SvBit),
            Some(Class::SvLogic) => Some(BaseWord::SvLogic),
            Some(Class::SvBitVecVal) => Some(BaseWord::SvBitVecVal),
            Some(Class::SvLogicVecVal) => Some(BaseWord::SvLogicVecVal),
            Some(Class::SvOpenArrayHandle) => Some(BaseWord::SvOpenArrayHandle),
            Some(Class::SvScope) => Some(BaseWord::SvScope),
            Some(Class::Int8) => Some(BaseWord::Int8),
            Some(Class::Uint8) => Some(BaseWord::Uint8),
            Some(Class::Int16) => Some(BaseWord::Int16),
            Some(Class::Uint16) => Some(BaseWord::Uint16),
            Some(Class::Int32) => Some(BaseWord::Int32),
            Some(Class::Uint32) => Some(BaseWord::Uint32),
            Some(Class::Int64) => Some(BaseWord::Int64),
            Some(Class::Uint64) => Some(BaseWord::Uint64),
            _ => None,
        }
    }
}

/// What a base goes on with behind some of its words (6.7.2).
#[derive(Clone, Copy, Debug, PartialEq, Eq)]
pub enum BaseRest {
    /// A base.
    Whole,
    /// Nothing, or `char`, `short` `int`?, `int` or `long` `long` `int`?.
    BehindSign,
    /// `long` `int`?
    BehindLong,
    /// `int`?
    BehindSize,
    /// Nothing.
    Complete,
}

impl BaseRest {
    /// What the base goes on with behind this word, if the word may come next.
    pub fn behind(self, word: BaseWord) -> Option<BaseRest>
        ensures { result ≡ spec.rest_behind self word }
    {
        match self {
            BaseRest::Whole => Some(match word {
                BaseWord::Signed | BaseWord::Unsigned => BaseRest::BehindSign,
                BaseWord::Short => BaseRest::BehindSize,
                BaseWord::Long => BaseRest::BehindLong,
                _ => BaseRest::Complete,
            }),
            BaseRest::BehindSign => match word {
                BaseWord::Char | BaseWord::Int => Some(BaseRest::Complete),
                BaseWord::Short => Some(BaseRest::BehindSize),
                BaseWord::Long => Some(BaseRest::BehindLong),
                _ => None,
            },
            BaseRest::BehindLong => match word {
                BaseWord::Long => Some(BaseRest::BehindSize),
                _ => None,
            },
            BaseRest::BehindSize => match word {
                BaseWord::Int => Some(BaseRest::Complete),
                _ => None,
            },
            BaseRest::Complete => None,
        }
    }

    /// Whether the base may end here.
    pub fn may_end(self) -> bool
        ensures { result ≡ spec.may_end self }
    {
        match self {
            BaseRest::Whole | BaseRest::BehindLong => false,
            BaseRest::BehindSign | BaseRest::BehindSize | BaseRest::Complete => true,
        }
    }
}

/// A type: a base, with `const` before and behind it (6.7.2, 6.7.3).
#[derive(Drop)]
pub struct CType {
    /// The number of its first token.
    pub token: u32,
    /// The numbers of the `const` before the base.
    pub before: Items<u32>,
    /// The words of the base.
    pub base: Items<BaseWord>,
    /// The numbers of the `const` behind the base.
    pub behind: Items<u32>,
}

/// `*` `const` .. (6.7.6.1)
#[derive(Drop)]
pub struct Star {
    /// The number of the `*`.
    pub token: u32,
    /// The numbers of the `const` behind it.
    pub constants: Items<u32>,
}
