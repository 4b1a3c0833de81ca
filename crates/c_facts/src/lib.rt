//! What the expressions of C files tell: what each name in them means, and the type of each of
//! them.
//!
//! A fact speaks of a token. A name means its innermost declaration so far (ISO C 6.2.1), told by
//! the token of the declared name, or a number: a define by the number behind it, a constant of
//! `svdpi.h`, or the words of a vector (IEEE 1800-2017, Annex I). Where nothing declares it, a
//! called name means `printf` or a call of `svdpi.h`. The type of an expression is the one that it
//! has by itself; an array's is the pointer to its first cell (ISO C 6.3.2.1), and an expression
//! that holds a violation has none. Members of `svLogicVecVal` mean nothing. Facts are listed in
//! text order: of an expression its own type, then what its parts tell. Tokens count from 0 in
//! their file, and the declared names stand in the same file. Want of memory is the one other
//! answer.
//!
//! Stated in `specs/`: `Widths` (expressions that are one number), `Facts` (one name, one size, one
//! expression by itself) and `Exprs`, the list of what an expression tells by recursion on its
//! tree.
#![tactic(auto)]

mod expressions;
mod facts;
mod names;
mod widths;

pub use expressions::add_expr;
pub use facts::{CFact, CMeant};
pub use names::{add_name, add_size, add_value_name, size_words, thing_meant, value_meant};
