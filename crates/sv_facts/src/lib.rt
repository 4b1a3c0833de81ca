//! What the expressions of SystemVerilog files tell: what each name in them means, and the type of
//! each of them.
//!
//! A fact speaks of a token. A name means its innermost declaration around it (IEEE 1800-2017,
//! 23.9), in a call the innermost that isn't the result of a function (13.4.1), and is told by the
//! token of the declared name. The type of an expression is the one that it has by itself, whatever
//! stands around it (11.6); an expression that holds a violation has none. Facts are listed in text
//! order: of an expression its own type, then what its parts tell. Tokens count from 0 in their
//! file, and the declared names stand in the same file. Want of memory is the one other answer.
//!
//! Stated in `specs/`: `Facts` (one name, one expression by itself) and `Exprs`, the list of what
//! an expression tells by recursion on its tree.
#![tactic(auto)]

mod expressions;
mod facts;
mod names;

pub use expressions::{add_call, add_expr, add_lvalue};
pub use facts::{Fact, Meant};
pub use names::{add_called, add_name, meant};
