//! What a token is for the grammar.

ghost use Rattle.std.specs.Prelude.{◌≡◌};
ghost use Rattle.sv_tree.specs.Classes as spec;

use dpi_lex::Kind;

/// What a token is for the grammar (IEEE 1800-2017, A.1 to A.9): a keyword, a system name or a sign
/// that a production quotes, or a token that stands for a value.
#[derive(Clone, Copy, Debug, PartialEq, Eq)]
pub enum Class {
    /// `module`
    Module,
    /// `endmodule`
    EndModule,
    /// `initial`
    Initial,
    /// `import`
    Import,
    /// `export`
    Export,
    /// `context`
    Context,
    /// `pure`
    Pure,
    /// `function`
    Function,
    /// `endfunction`
    EndFunction,
    /// `task`
    Task,
    /// `endtask`
    EndTask,
    /// `automatic`
    Automatic,
    /// `static`
    Static,
    /// `void`
    Void,
    /// `input`
    Input,
    /// `output`
    Output,
    /// `inout`
    Inout,
    /// `bit`
    Bit,
    /// `logic`
    Logic,
    /// `reg`
    Reg,
    /// `byte`
    Byte,
    /// `shortint`
    ShortInt,
    /// `int`
    Int,
    /// `longint`
    LongInt,
    /// `integer`
    Integer,
    /// `string`
    String,
    /// `chandle`
    Chandle,
    /// `signed`
    Signed,
    /// `unsigned`
    Unsigned,
    /// `begin`
    Begin,
    /// `end`
    End,
    /// `if`
    If,
    /// `else`
    Else,
    /// `case`
    Case,
    /// `endcase`
    EndCase,
    /// `default`
    Default,
    /// `while`
    While,
    /// `repeat`
    Repeat,
    /// `forever`
    Forever,
    /// `for`
    For,
    /// `return`
    Return,
    /// `break`
    Break,
    /// `continue`
    Continue,
    /// `disable`
    Disable,
    /// `null`
    Null,
    /// `$display`
    Display,
    /// `$write`
    Write,
    /// `$finish`
    Finish,
    /// `$signed`
    ToSigned,
    /// `$unsigned`
    ToUnsigned,
    /// `(`
    OpenParen,
    /// `)`
    CloseParen,
    /// `[`
    OpenBracket,
    /// `]`
    CloseBracket,
    /// `{`
    OpenBrace,
    /// `}`
    CloseBrace,
    /// `'{`
    Pattern,
    /// `'`
    Tick,
    /// `;`
    Semicolon,
    /// `:`
    Colon,
    /// `,`
    Comma,
    /// `?`
    Question,
    /// `=`
    Assign,
    /// `+=`
    AddAssign,
    /// `-=`
    SubtractAssign,
    /// `*=`
    MultiplyAssign,
    /// `/=`
    DivideAssign,
    /// `%=`
    RemainderAssign,
    /// `&=`
    AndAssign,
    /// `|=`
    OrAssign,
    /// `^=`
    XorAssign,
    /// `<<=`
    ShiftLeftAssign,
    /// `>>=`
    ShiftRightAssign,
    /// `++`
    Increment,
    /// `--`
    Decrement,
    /// `+:`
    PlusColon,
    /// `-:`
    MinusColon,
    /// `+`
    Plus,
    /// `-`
    Minus,
    /// `*`
    Star,
    /// `/`
    Slash,
    /// `%`
    Percent,
    /// `!`
    Not,
    /// `~`
    Tilde,
    /// `&`
    And,
    /// `~&`
    TildeAnd,
    /// `|`
    Or,
    /// `~|`
    TildeOr,
    /// `^`
    Xor,
    /// `~^`
    TildeXor,
    /// `^~`
    XorTilde,
    /// `<<`
    ShiftLeft,
    /// `>>`
    ShiftRight,
    /// `<<<`
    ArithmeticShiftLeft,
    /// `>>>`
    ArithmeticShiftRight,
    /// `<`
    Less,
    /// `<=`
    LessOrEqual,
    /// `>`
    Greater,
    /// `>=`
    GreaterOrEqual,
    /// `==`
    Equal,
    /// `!=`
    NotEqual,
    /// `===`
    CaseEqual,
    /// `!==`
    CaseNotEqual,
    /// `&&`
    AndAnd,
    /// `||`
    OrOr,
    /// An identifier.
    Name,
    /// A number.
    Number,
    /// A string.
    Text,
    /// A token that no production has.
    Other,
}

/// The classes of keywords and system names.
pub const WORDS: [Class; 50] = [
    Class::Module,
    Class::EndModule,
    Class::Initial,
    Class::Import,
    Class::Export,
    Class::Context,
    Class::Pure,
    Class::Function,
    Class::EndFunction,
    Class::Task,
    Class::EndTask,
    Class::Automatic,
    Class::Static,
    Class::Void,
    Class::Input,
    Class::Output,
    Class::Inout,
    Class::Bit,
    Class::Logic,
    Class::Reg,
    Class::Byte,
    Class::ShortInt,
    Class::Int,
    Class::LongInt,
    Class::Integer,
    Class::String,
    Class::Chandle,
    Class::Signed,
    Class::Unsigned,
    Class::Begin,
    Class::End,
    Class::If,
    Class::Else,
    Class::Case,
    Class::EndCase,
    Class::Default,
    Class::While,
    Class::Repeat,
    Class::Forever,
    Class::For,
    Class::Return,
    Class::Break,
    Class::Continue,
    Class::Disable,
    Class::Null,
    Class::Display,
    Class::Write,
    Class::Finish,
    Class::ToSigned,
    Class::ToUnsigned,
];

/// The classes of signs.
pub const SIGNS: [Class; 55] = [
    Class::OpenParen,
    Class::CloseParen,
    Class::OpenBracket,
    Class::CloseBracket,
    Class::OpenBrace,
    Class::CloseBrace,
    Class::Pattern,
    Class::Tick,
    Class::Semicolon,
    Class::Colon,
    Class::Comma,
    Class::Question,
    Class::Assign,
    Class::AddAssign,
    Class::SubtractAssign,
    Class::MultiplyAssign,
    Class::DivideAssign,
    Class::RemainderAssign,
    Class::AndAssign,
    Class::OrAssign,
    Class::XorAssign,
    Class::ShiftLeftAssign,
    Class::ShiftRightAssign,
    Class::Increment,
    Class::Decrement,
    Class::PlusColon,
    Class::MinusColon,
    Class::Plus,
    Class::Minus,
    Class::Star,
    Class::Slash,
    Class::Percent,
    Class::Not,
    Class::Tilde,
    Class::And,
    Class::TildeAnd,
    Class::Or,
    Class::TildeOr,
    Class::Xor,
    Class::TildeXor,
    Class::XorTilde,
    Class::ShiftLeft,
    Class::ShiftRight,
    Class::ArithmeticShiftLeft,
    Class::ArithmeticShiftRight,
    Class::Less,
    Class::LessOrEqual,
    Class::Greater,
    Class::GreaterOrEqual,
    Class::Equal,
    Class::NotEqual,
    Class::CaseEqual,
    Class::CaseNotEqual,
    Class::AndAnd,
    Class::OrOr,
];

impl Class {
    /// How the class is spelled: the bytes of its token, or none where these may vary.
    pub fn spelling(self) -> &'static [u8]
        ensures { result.now ≡ spec.spelling self }
    {
        match self {
            Class::Module => b"module",
            Class::EndModule => b"endmodule",
            Class::Initial => b"initial",
            Class::Import => b"import",
            Class::Export => b"export",
            Class::Context => b"context",
            Class::Pure => b"pure",
            Class::Function => b"function",
            Class::EndFunction => b"endfunction",
            Class::Task => b"task",
            Class::EndTask => b"endtask",
            Class::Automatic => b"automatic",
            Class::Static => b"static",
            Class::Void => b"void",
            Class::Input => b"input",
            Class::Output => b"output",
            Class::Inout => b"inout",
            Class::Bit => b"bit",
            Class::Logic => b"logic",
            Class::Reg => b"reg",
            Class::Byte => b"byte",
            Class::ShortInt => b"shortint",
            Class::Int => b"int",
            Class::LongInt => b"longint",
            Class::Integer => b"integer",
            Class::String => b"string",
            Class::Chandle => b"chandle",
            Class::Signed => b"signed",
            Class::Unsigned => b"unsigned",
            Class::Begin => b"begin",
            Class::End => b"end",
            Class::If => b"if",
            Class::Else => b"else",
            Class::Case => b"case",
            Class::EndCase => b"endcase",
            Class::Default => b"default",
            Class::While => b"while",
            Class::Repeat => b"repeat",
            Class::Forever => b"forever",
            Class::For => b"for",
            Class::Return => b"return",
            Class::Break => b"break",
            Class::Continue => b"continue",
            Class::Disable => b"disable",
            Class::Null => b"null",
            Class::Display => b"$display",
            Class::Write => b"$write",
            Class::Finish => b"$finish",
            Class::ToSigned => b"$signed",
            Class::ToUnsigned => b"$unsigned",
            Class::OpenParen => b"(",
            Class::CloseParen => b")",
            Class::OpenBracket => b"[",
            Class::CloseBracket => b"]",
            Class::OpenBrace => b"{",
            Class::CloseBrace => b"}",
            Class::Pattern => b"'{",
            Class::Tick => b"'",
            Class::Semicolon => b";",
            Class::Colon => b":",
            Class::Comma => b",",
            Class::Question => b"?",
            Class::Assign => b"=",
            Class::AddAssign => b"+=",
            Class::SubtractAssign => b"-=",
            Class::MultiplyAssign => b"*=",
            Class::DivideAssign => b"/=",
            Class::RemainderAssign => b"%=",
            Class::AndAssign => b"&=",
            Class::OrAssign => b"|=",
            Class::XorAssign => b"^=",
            Class::ShiftLeftAssign => b"<<=",
            Class::ShiftRightAssign => b">>=",
            Class::Increment => b"++",
            Class::Decrement => b"--",
            Class::PlusColon => b"+:",
            Class::MinusColon => b"-:",
            Class::Plus => b"+",
            Class::Minus => b"-",
            Class::Star => b"*",
            Class::Slash => b"/",
            Class::Percent => b"%",
            Class::Not => b"!",
            Class::Tilde => b"~",
            Class::And => b"&",
            Class::TildeAnd => b"~&",
            Class::Or => b"|",
            Class::TildeOr => b"~|",
            Class::Xor => b"^",
            Class::TildeXor => b"~^",
            Class::XorTilde => b"^~",
            Class::ShiftLeft => b"<<",
            Class::ShiftRight => b">>",
            Class::ArithmeticShiftLeft => b"<<<",
            Class::ArithmeticShiftRight => b">>>",
            Class::Less => b"<",
            Class::LessOrEqual => b"<=",
            Class::Greater => b">",
            Class::GreaterOrEqual => b">=",
            Class::Equal => b"==",
            Class::NotEqual => b"!=",
            Class::CaseEqual => b"===",
            Class::CaseNotEqual => b"!==",
            Class::AndAnd => b"&&",
            Class::OrOr => b"||",
            Class::Name | Class::Number | Class::Text | Class::Other => b"",
        }
    }
}

/// The class that is spelled so, of these.
fn spelled(classes: &[Class], bytes: &[u8]) -> Option<Class>
    ensures { result ≡ spec.spelled classes.now bytes.now }
{
    classes
        .iter()
        .copied()
        .find(|class| class.spelling() == bytes)
}

/// The class of a token of this kind, with these bytes: a word that is neither a keyword nor a system
/// name is a name.
pub fn class_of(kind: Kind, bytes: &[u8]) -> Class
    ensures { result ≡ spec.class_by kind bytes.now }
{
    match kind {
        Kind::Word => spelled(&WORDS, bytes).unwrap_or(Class::Name),
        Kind::Sign => spelled(&SIGNS, bytes).unwrap_or(Class::Other),
        Kind::Number => Class::Number,
        Kind::Text => Class::Text,
        Kind::Character | Kind::Define => Class::Other,
    }
}
