//! Operators (ISO C 6.5).

ghost use Rattle.std.specs.Prelude.{◌≡◌};
ghost use Rattle.c_tree.specs.Operators as spec;

use crate::class::Class;

/// A prefix of an operand (6.5.3).
#[derive(Clone, Copy, Debug, PartialEq, Eq)]
pub enum UnaryOperator {
    /// `+`
    Plus,
    /// `-`
    Minus,
    /// `!`
    Not,
    /// `~`
    Tilde,
    /// `*`
    Star,
    /// `&`
    And,
    /// `++`
    Increment,
    /// `--`
    Decrement,
}

/// An operator between two operands (6.5.5 to 6.5.14).
#[derive(Clone, Copy, Debug, PartialEq, Eq)]
pub enum BinaryOperator {
    /// `*`
    Star,
    /// `/`
    Slash,
    /// `%`
    Percent,
    /// `+`
    Plus,
    /// `-`
    Minus,
    /// `<<`
    ShiftLeft,
    /// `>>`
    ShiftRight,
    /// `<`
    Less,
    /// `<=`
    LessOrEqual,
    /// `>`
    Greater,
    /// `>=`
    GreaterOrEqual,
    /// `==`
    Equal,
    /// `!=`
    NotEqual,
    /// `&`
    And,
    /// `^`
    Xor,
    /// `|`
    Or,
    /// `&&`
    AndAnd,
    /// `||`
    OrOr,
}

/// An operator that assigns (6.5.16).
#[derive(Clone, Copy, Debug, PartialEq, Eq)]
pub enum AssignOperator {
    /// `=`
    Plain,
    /// `+=`
    Add,
    /// `-=`
    Subtract,
    /// `*=`
    Multiply,
    /// `/=`
    Divide,
    /// `%=`
    Remainder,
    /// `&=`
    And,
    /// `|=`
    Or,
    /// `^=`
    Xor,
    /// `<<=`
    ShiftLeft,
    /// `>>=`
    ShiftRight,
}

impl UnaryOperator {
    /// The prefix that a token of this class is, if it is one.
    pub fn of(class: Option<Class>) -> Option<UnaryOperator>
        ensures { result ≡ spec.unary_of class }
    {
        match class {
            Some(Class::Plus) => Some(UnaryOperator::Plus),
            Some(Class::Minus) => Some(UnaryOperator::Minus),
            Some(Class::Not) => Some(UnaryOperator::Not),
            Some(Class::Tilde) => Some(UnaryOperator::Tilde),
            Some(Class::Star) => Some(UnaryOperator::Star),
            Some(Class::And) => Some(UnaryOperator::And),
            Some(Class::Increment) => Some(UnaryOperator::Increment),
            Some(Class::Decrement) => Some(UnaryOperator::Decrement),
            _ => None,
        }
    }
}

impl BinaryOperator {
    /// The operator between operands that a token of this class is, if it is one.
    pub fn of(class: Option<Class>) -> Option<BinaryOperator>
        ensures { result ≡ spec.binary_of class }
    {
        match class {
            Some(Class::Star) => Some(BinaryOperator::Star),
            Some(Class::Slash) => Some(BinaryOperator::Slash),
            Some(Class::Percent) => Some(BinaryOperator::Percent),
            Some(Class::Plus) => Some(BinaryOperator::Plus),
            Some(Class::Minus) => Some(BinaryOperator::Minus),
            Some(Class::ShiftLeft) => Some(BinaryOperator::ShiftLeft),
            Some(Class::ShiftRight) => Some(BinaryOperator::ShiftRight),
            Some(Class::Less) => Some(BinaryOperator::Less),
            Some(Class::LessOrEqual) => Some(BinaryOperator::LessOrEqual),
            Some(Class::Greater) => Some(BinaryOperator::Greater),
            Some(Class::GreaterOrEqual) => Some(BinaryOperator::GreaterOrEqual),
            Some(Class::Equal) => Some(BinaryOperator::Equal),
            Some(Class::NotEqual) => Some(BinaryOperator::NotEqual),
            Some(Class::And) => Some(BinaryOperator::And),
            Some(Class::Xor) => Some(BinaryOperator::Xor),
            Some(Class::Or) => Some(BinaryOperator::Or),
            Some(Class::AndAnd) => Some(BinaryOperator::AndAnd),
            Some(Class::OrOr) => Some(BinaryOperator::OrOr),
            _ => None,
        }
    }
}

impl AssignOperator {
    /// The assigning operator that a token of this class is, if it is one.
    pub fn of(class: Option<Class>) -> Option<AssignOperator>
        ensures { result ≡ spec.assign_of class }
    {
        match class {
            Some(Class::Assign) => Some(AssignOperator::Plain),
            Some(Class::AddAssign) => Some(AssignOperator::Add),
            Some(Class::SubtractAssign) => Some(AssignOperator::Subtract),
            Some(Class::MultiplyAssign) => Some(AssignOperator::Multiply),
            Some(Class::DivideAssign) => Some(AssignOperator::Divide),
            Some(Class::RemainderAssign) => Some(AssignOperator::Remainder),
            Some(Class::AndAssign) => Some(AssignOperator::And),
            Some(Class::OrAssign) => Some(AssignOperator::Or),
            Some(Class::XorAssign) => Some(AssignOperator::Xor),
            Some(Class::ShiftLeftAssign) => Some(AssignOperator::ShiftLeft),
            Some(Class::ShiftRightAssign) => Some(AssignOperator::ShiftRight),
            _ => None,
        }
    }
}
