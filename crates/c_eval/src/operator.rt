//! The operators.
ghost use Rattle.std.specs.Prelude.{◌≡◌};
ghost use Rattle.c_eval.specs.Operators.{accepts, is_comparison};

use std::cmp::Ordering;

/// The unary operators that make a value of one (ISO C 6.5.3.3).
#[derive(Clone, Copy, Debug, PartialEq, Eq)]
pub enum CUnOp {
    /// `+`, the promoted operand.
    Plus,
    /// `-`, its negative.
    Minus,
    /// `!`, 1 where the operand is 0 or null, else 0.
    Not,
    /// `~`, all bits of the promoted operand inverted.
    Complement,
}

/// The binary operators (ISO C 6.5.5 to 6.5.14).
#[derive(Clone, Copy, Debug, PartialEq, Eq)]
pub enum CBinOp {
    /// `*`
    Mul,
    /// `/`, rounded toward zero.
    Div,
    /// `%`, with the sign of the left operand.
    Rem,
    /// `+`
    Add,
    /// `-`
    Sub,
    /// `<<`
    Shl,
    /// `>>`, rounded down.
    Shr,
    /// `<`
    Less,
    /// `<=`
    LessEqual,
    /// `>`
    Greater,
    /// `>=`
    GreaterEqual,
    /// `==`
    Equal,
    /// `!=`
    NotEqual,
    /// `&`
    BitAnd,
    /// `^`
    BitXor,
    /// `|`
    BitOr,
    /// `&&` of two values that are both there.
    And,
    /// `||` of two values that are both there.
    Or,
}

impl CBinOp {
    /// Whether a comparison is true of operands in this order; false for every other operator.
    pub(crate) fn accepts(self, order: Ordering) -> bool
        ensures { result ≡ accepts self order }
    {
        match self {
            CBinOp::Less => order.is_lt(),
            CBinOp::LessEqual => order.is_le(),
            CBinOp::Greater => order.is_gt(),
            CBinOp::GreaterEqual => order.is_ge(),
            CBinOp::Equal => order.is_eq(),
            CBinOp::NotEqual => order.is_ne(),
            _ => false,
        }
    }

    /// Whether this is one of `<`, `<=`, `>`, `>=`, `==` and `!=`.
    pub(crate) fn is_comparison(self) -> bool
        ensures { result ≡ is_comparison self }
    {
        match self {
            CBinOp::Less
            | CBinOp::LessEqual
            | CBinOp::Greater
            | CBinOp::GreaterEqual
            | CBinOp::Equal
            | CBinOp::NotEqual => true,
            _ => false,
        }
    }
}
