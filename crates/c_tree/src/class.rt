//! What a token is for the grammar.

ghost use Rattle.std.specs.Prelude.{◌≡◌};
ghost use Rattle.c_tree.specs.Classes as spec;

use dpi_lex::Kind;

/// What a token is for the grammar (ISO C 6.4): a keyword, a type name or a sign that a production
/// quotes, or a token that stands for a value.
#[derive(Clone, Copy, Debug, PartialEq, Eq)]
pub enum Class {
    /// `void`
    Void,
    /// `char`
    Char,
    /// `short`
    Short,
    /// `int`
    Int,
    /// `long`
    Long,
    /// `signed`
    Signed,
    /// `unsigned`
    Unsigned,
    /// `const`
    Const,
    /// `svBit`
    SvBit,
    /// `svLogic`
    SvLogic,
    /// `svBitVecVal`
    SvBitVecVal,
    /// `svLogicVecVal`
    SvLogicVecVal,
    /// `svOpenArrayHandle`
    SvOpenArrayHandle,
    /// `svScope`
    SvScope,
    /// `int8_t`
    Int8,
    /// `uint8_t`
    Uint8,
    /// `int16_t`
    Int16,
    /// `uint16_t`
    Uint16,
    /// `int32_t`
    Int32,
    /// `uint32_t`
    Uint32,
    /// `int64_t`
    Int64,
    /// `uint64_t`
    Uint64,
    /// `static`
    Static,
    /// `extern`
    Extern,
    /// `if`
    If,
    /// `else`
    Else,
    /// `while`
    While,
    /// `do`
    Do,
    /// `for`
    For,
    /// `return`
    Return,
    /// `break`
    Break,
    /// `continue`
    Continue,
    /// `NULL`
    Null,
    /// `(`
    OpenParen,
    /// `)`
    CloseParen,
    /// `[`
    OpenBracket,
    /// `]`
    CloseBracket,
    /// `{`
    OpenBrace,
    /// `}`
    CloseBrace,
    /// `;`
    Semicolon,
    /// `,`
    Comma,
    /// `:`
    Colon,
    /// `?`
    Question,
    /// `.`
    Dot,
    /// `->`
    Arrow,
    /// `=`
    Assign,
    /// `+=`
    AddAssign,
    /// `-=`
    SubtractAssign,
    /// `*=`
    MultiplyAssign,
    /// `/=`
    DivideAssign,
    /// `%=`
    RemainderAssign,
    /// `&=`
    AndAssign,
    /// `|=`
    OrAssign,
    /// `^=`
    XorAssign,
    /// `<<=`
    ShiftLeftAssign,
    /// `>>=`
    ShiftRightAssign,
    /// `++`
    Increment,
    /// `--`
    Decrement,
    /// `+`
    Plus,
    /// `-`
    Minus,
    /// `*`
    Star,
    /// `/`
    Slash,
    /// `%`
    Percent,
    /// `!`
    Not,
    /// `~`
    Tilde,
    /// `&`
    And,
    /// `|`
    Or,
    /// `^`
    Xor,
    /// `<<`
    ShiftLeft,
    /// `>>`
    ShiftRight,
    /// `<`
    Less,
    /// `<=`
    LessOrEqual,
    /// `>`
    Greater,
    /// `>=`
    GreaterOrEqual,
    /// `==`
    Equal,
    /// `!=`
    NotEqual,
    /// `&&`
    AndAnd,
    /// `||`
    OrOr,
    /// An identifier.
    Name,
    /// A number.
    Number,
    /// A character.
    Character,
    /// A string.
    Text,
    /// A define.
    Define,
    /// A token that no production has.
    Other,
}

/// The classes of keywords, type names and `NULL`.
pub const WORDS: [Class; 33] = [
    Class::Void,
    Class::Char,
    Class::Short,
    Class::Int,
    Class::Long,
    Class::Signed,
    Class::Unsigned,
    Class::Const,
    Class::SvBit,
    Class::SvLogic,
    Class::SvBitVecVal,
    Class::SvLogicVecVal,
    Class::SvOpenArrayHandle,
    Class::SvScope,
    Class::Int8,
    Class::Uint8,
    Class::Int16,
    Class::Uint16,
    Class::Int32,
    Class::Uint32,
    Class::Int64,
    Class::Uint64,
    Class::Static,
    Class::Extern,
    Class::If,
    Class::Else,
    Class::While,
    Class::Do,
    Class::For,
    Class::Return,
    Class::Break,
    Class::Continue,
    Class::Null,
];

/// The classes of signs.
pub const SIGNS: [Class; 45] = [
    Class::OpenParen,
    Class::CloseParen,
    Class::OpenBracket,
    Class::CloseBracket,
    Class::OpenBrace,
    Class::CloseBrace,
    Class::Semicolon,
    Class::Comma,
    Class::Colon,
    Class::Question,
    Class::Dot,
    Class::Arrow,
    Class::Assign,
    Class::AddAssign,
    Class::SubtractAssign,
    Class::MultiplyAssign,
    Class::DivideAssign,
    Class::RemainderAssign,
    Class::AndAssign,
    Class::OrAssign,
    Class::XorAssign,
    Class::ShiftLeftAssign,
    Class::ShiftRightAssign,
    Class::Increment,
    Class::Decrement,
    Class::Plus,
    Class::Minus,
    Class::Star,
    Class::Slash,
    Class::Percent,
    Class::Not,
    Class::Tilde,
    Class::And,
    Class::Or,
    Class::Xor,
    Class::ShiftLeft,
    Class::ShiftRight,
    Class::Less,
    Class::LessOrEqual,
    Class::Greater,
    Class::GreaterOrEqual,
    Class::Equal,
    Class::NotEqual,
    Class::AndAnd,
    Class::OrOr,
];

impl Class {
    /// How the class is spelled: the bytes of its token, or none where these may vary.
    pub fn spelling(self) -> &'static [u8]
        ensures { result.now ≡ spec.spelling self }
    {
        match self {
            Class::Void => b"void",
            Class::Char => b"char",
            Class::Short => b"short",
            Class::Int => b"int",
            Class::Long => b"long",
            Class::Signed => b"signed",
            Class::Unsigned => b"unsigned",
            Class::Const => b"const",
            Class::SvBit => b"svBit",
            Class::SvLogic => b"svLogic",
            Class::SvBitVecVal => b"svBitVecVal",
            Class::SvLogicVecVal => b"svLogicVecVal",
            Class::SvOpenArrayHandle => b"svOpenArrayHandle",
            Class::SvScope => b"svScope",
            Class::Int8 => b"int8_t",
            Class::Uint8 => b"uint8_t",
            Class::Int16 => b"int16_t",
            Class::Uint16 => b"uint16_t",
            Class::Int32 => b"int32_t",
            Class::Uint32 => b"uint32_t",
            Class::Int64 => b"int64_t",
            Class::Uint64 => b"uint64_t",
            Class::Static => b"static",
            Class::Extern => b"extern",
            Class::If => b"if",
            Class::Else => b"else",
            Class::While => b"while",
            Class::Do => b"do",
            Class::For => b"for",
            Class::Return => b"return",
            Class::Break => b"break",
            Class::Continue => b"continue",
            Class::Null => b"NULL",
            Class::OpenParen => b"(",
            Class::CloseParen => b")",
            Class::OpenBracket => b"[",
            Class::CloseBracket => b"]",
            Class::OpenBrace => b"{",
            Class::CloseBrace => b"}",
            Class::Semicolon => b";",
            Class::Comma => b",",
            Class::Colon => b":",
            Class::Question => b"?",
            Class::Dot => b".",
            Class::Arrow => b"->",
            Class::Assign => b"=",
            Class::AddAssign => b"+=",
            Class::SubtractAssign => b"-=",
            Class::MultiplyAssign => b"*=",
            Class::DivideAssign => b"/=",
            Class::RemainderAssign => b"%=",
            Class::AndAssign => b"&=",
            Class::OrAssign => b"|=",
            Class::XorAssign => b"^=",
            Class::ShiftLeftAssign => b"<<=",
            Class::ShiftRightAssign => b">>=",
            Class::Increment => b"++",
            Class::Decrement => b"--",
            Class::Plus => b"+",
            Class::Minus => b"-",
            Class::Star => b"*",
            Class::Slash => b"/",
            Class::Percent => b"%",
            Class::Not => b"!",
            Class::Tilde => b"~",
            Class::And => b"&",
            Class::Or => b"|",
            Class::Xor => b"^",
            Class::ShiftLeft => b"<<",
            Class::ShiftRight => b">>",
            Class::Less => b"<",
            Class::LessOrEqual => b"<=",
            Class::Greater => b">",
            Class::GreaterOrEqual => b">=",
            Class::Equal => b"==",
            Class::NotEqual => b"!=",
            Class::AndAnd => b"&&",
            Class::OrOr => b"||",
            Class::Name | Class::Number | Class::Character => b"",
            Class::Text | Class::Define | Class::Other => b"",
        }
    }
}

/// The class that is spelled so, of these.
fn spelled(classes: &[Class], bytes: &[u8]) -> Option<Class>
    ensures { result ≡ spec.spelled classes.now bytes.now }
{
    classes
        .iter()
        .copied()
        .find(|class| class.spelling() == bytes)
}

/// The class of a token of this kind, with these bytes: a word that is neither a keyword nor a type
/// name is a name.
pub fn class_of(kind: Kind, bytes: &[u8]) -> Class
    ensures { result ≡ spec.class_by kind bytes.now }
{
    match kind {
        Kind::Word => spelled(&WORDS, bytes).unwrap_or(Class::Name),
        Kind::Sign => spelled(&SIGNS, bytes).unwrap_or(Class::Other),
        Kind::Number => Class::Number,
        Kind::Character => Class::Character,
        Kind::Text => Class::Text,
        Kind::Define => Class::Define,
    }
}
