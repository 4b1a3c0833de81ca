//! What C files tell: what each name in them means, and the type of each expression.
//!
//! A fact speaks of a token, and the facts of a file are listed in text order, but that of an `if`
//! the `else if` parts come first. A name means its innermost declaration in sight (ISO C 6.2.1):
//! names come in sight in text order, a variable's at the end of its declarator, before its
//! initialiser, a function's behind its parameters, before its body, a define's from its line on, a
//! parameter's before the next one. A name that declares an object means itself, one that declares a
//! function the first such name of its file. Names of parameters tell nothing where the function has
//! no body, nor do names of defines where they are defined. Files and tokens count from 0. Want of
//! memory is the one other answer.
//! Stated in `specs/`: `Places` (expressions by the names in sight), `Sight` (parts in turn),
//! `Declarations`, `Statements` and `File`, by recursion on the trees.
#![tactic(auto)]

mod declarations;
mod files;
mod parameters;
mod places;
mod statements;

pub use files::facts_of;
