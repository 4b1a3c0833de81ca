//! Declarations of names.

use sv_shapes::VarKind;

/// What a declaration declares. The kind of a variable is None where its declaration is refused: it
/// has no type then.
#[derive(Clone, Copy, Debug, PartialEq, Eq)]
pub enum Thing {
    /// A variable: of a module, a formal, a local, or of a `for` (6.8).
    Variable(Option<VarKind>),
    /// The result of the function around (13.4.1).
    Result(Option<VarKind>),
    /// A function, by its number among the functions and tasks of its module in text order, from 0.
    Function(usize),
    /// A task, by its number among the functions and tasks of its module in text order, from 0.
    Task(usize),
    /// An imported function or task, by its number among the imports of its module in text order,
    /// from 0 (35.4).
    Import(usize),
    /// A named block (9.3.4).
    Block,
    /// An instance (23.3.2).
    Instance,
}

/// A declaration of a name.
#[derive(Clone, Copy, Debug, PartialEq, Eq)]
pub struct Entry {
    /// The number of the declared name's token in its file, from 0.
    pub token: u32,
    /// What it declares.
    pub thing: Thing,
}
