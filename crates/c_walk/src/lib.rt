//! The walk over C declarations, statements and files: what they violate by names, types and
//! initialisers (ISO C 6.7 to 6.9).
//!
//! Names come into sight in text order: a declarator's at its end, before its initialiser, a
//! function's before its body, a define's from its line on, a parameter's before the next one
//! (ISO C 6.2.1). Parameters and the outermost block of the body share a scope; each other block and
//! each `for` has one of its own. Rule 1 is noted at second declarations, rules 2, 3 and 4 at sizes,
//! rule 5 at names of objects of type `void`, rule 9 at values that are converted, rule 19 at the `=`
//! of initialisers, rule 21 at names that may not be declared, rule 22 on the stars of variables, and
//! rule 25 at conditions, besides what expressions violate. What the form alone decides, and what
//! written types of functions violate, is noted elsewhere. Files and tokens count from 0. The least
//! violation is kept, so the order in which a definition lists them tells nothing. Want of memory is
//! the one other answer.
//! The steps by which names come in sight are for other walks too.
//! Stated in `specs/`: `Sight` (names in sight), `Around`, `Sizes`, `Objects`, `Declarations`,
//! `Statements` and `File`, by recursion on the trees.
#![tactic(auto)]

mod declarations;
mod defines;
mod files;
mod initials;
mod objects;
mod outside;
mod parameters;
mod plain;
mod sizes;
mod statements;

pub use declarations::{lasts, see_variable};
pub use defines::{Defines, defines_of};
pub use files::{declare_function, functions_with, walk_define, walk_file};
pub use outside::Outside;
pub use parameters::{entry_in, walk_param};
