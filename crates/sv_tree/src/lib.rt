//! Trees of SystemVerilog files, one type for each production of the grammar, and what they tell.
//!
//! Each part notes the number of its first token, from 0, and a place that a rule, a trap or a
//! fault line may name is a part or has a number of its own: an operator, a `[`, a `'{`, a `{`, the
//! `=` of an initialiser, a format string, a closing label. Parts of one token keep their bytes.
//! Chains, prefixes, selects, `else if` parts and statements are lists, and open no levels.
//! `specs/Classes.antt` says what a token is for the grammar; `specs/Expressions.antt`,
//! `specs/Statements.antt` and `specs/Items.antt` say what each tree tells: its words, the numbers
//! that it notes, and the conditions that it keeps (IEEE 1800-2017, A.1 to A.9).
//! Nothing here takes memory.
#![tactic(auto)]

mod class;
mod expr;
mod items;
mod kinds;
mod leaves;
mod operators;
mod statements;
mod types;

pub use class::{Class, class_of};
pub use expr::{Call, Chain, Choice, Expr, Lvalue, Operand, Prefix, Primary, Select, Term};
pub use items::{
    Body, Export, Formal, Function, Import, ImportFormal, ImportKind, Item, Life, Module, Outcome,
    SvFile, Task, Trait, Way,
};
pub use kinds::{
    Direction, Lifetime, Property, ShowKind, Signing, StepOperator, VectorKind, WholeKind,
};
pub use leaves::{Bound, Name, Number, Text};
pub use operators::{AssignOperator, BinaryOperator, UnaryOperator};
pub use statements::{
    Block, CaseItem, Change, Declarator, Else, ElseIf, Format, If, Init, Initializer, Label, Start,
    Stmt, Variables,
};
pub use types::{DataType, Dimension, ImportDimension, ImportType, Range, Sign};
