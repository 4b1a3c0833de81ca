//! Files, modules and their items (IEEE 1800-2017, 13, 23 and 35). Each part has the number of its
//! first token, from 0.

use crate::kinds::{Direction, Lifetime, Property};
use crate::leaves::{Name, Text};
use crate::statements::{Label, Stmt, Variables};
use crate::types::{DataType, Dimension, ImportDimension, ImportType};
use sqlite_items::Items;

/// A lifetime.
#[derive(Drop)]
pub struct Life {
    /// The number of its token.
    pub token: u32,
    /// Which one it is.
    pub lifetime: Lifetime,
}

/// A direction.
#[derive(Drop)]
pub struct Way {
    /// The number of its token.
    pub token: u32,
    /// Which one it is.
    pub direction: Direction,
}

/// dir? type? id dim*
#[derive(Drop)]
pub struct Formal {
    /// The direction.
    pub way: Option<Way>,
    /// The type.
    pub kind: Option<DataType>,
    /// The name.
    pub name: Name,
    /// The unpacked dimensions, from the left.
    pub dimensions: Items<Dimension>,
}

/// dir? itype? id idim*
#[derive(Drop)]
pub struct ImportFormal {
    /// The direction.
    pub way: Option<Way>,
    /// The type.
    pub kind: Option<ImportType>,
    /// The name.
    pub name: Name,
    /// The unpacked dimensions, from the left.
    pub dimensions: Items<ImportDimension>,
}

/// What a function gives; the number is that of the `void`.
#[derive(Drop)]
pub enum Outcome {
    /// A type.
    Data(DataType),
    /// `void`
    Void(u32),
}

/// What stands between the first line and the last one of a function or a task.
#[derive(Drop)]
pub struct Body {
    /// The variables.
    pub variables: Items<Variables>,
    /// The statements.
    pub statements: Items<Stmt>,
}

/// The header of an imported function or task; the first number is that of its first token.
#[derive(Drop)]
pub enum ImportKind {
    /// `function` (type | `void`)
    Function(u32, Outcome),
    /// `task`
    Task(u32),
}

/// `import` .. (35.5.4)
#[derive(Drop)]
pub struct Import {
    /// The number of the `import`.
    pub token: u32,
    /// The string behind it.
    pub text: Text,
    /// `context` or `pure`, with the number of its token.
    pub property: Option<Trait>,
    /// The name in C, before the `=`.
    pub c_name: Option<Name>,
    /// What is imported.
    pub kind: ImportKind,
    /// The name.
    pub name: Name,
    /// The formals, where there are parentheses.
    pub formals: Option<Items<ImportFormal>>,
}

/// A property of an import.
#[derive(Drop)]
pub struct Trait {
    /// The number of its token.
    pub token: u32,
    /// Which one it is.
    pub property: Property,
}

/// `export` .. (35.5.5)
#[derive(Drop)]
pub struct Export {
    /// The number of the `export`.
    pub token: u32,
    /// The string behind it.
    pub text: Text,
    /// The name in C, before the `=`.
    pub c_name: Option<Name>,
    /// Whether it is a task.
    pub task: bool,
    /// The name.
    pub name: Name,
}

/// `function` .. `endfunction` (13.4)
#[derive(Drop)]
pub struct Function {
    /// The number of the `function`.
    pub token: u32,
    /// The lifetime.
    pub life: Option<Life>,
    /// What it gives.
    pub outcome: Outcome,
    /// The name.
    pub name: Name,
    /// The formals, where there are parentheses.
    pub formals: Option<Items<Formal>>,
    /// Its variables and statements.
    pub body: Body,
    /// The label behind `endfunction`.
    pub end: Option<Label>,
}

/// `task` .. `endtask` (13.3)
#[derive(Drop)]
pub struct Task {
    /// The number of the `task`.
    pub token: u32,
    /// The lifetime.
    pub life: Option<Life>,
    /// The name.
    pub name: Name,
    /// The formals, where there are parentheses.
    pub formals: Option<Items<Formal>>,
    /// Its variables and statements.
    pub body: Body,
    /// The label behind `endtask`.
    pub end: Option<Label>,
}

/// An item of a module.
#[derive(Drop)]
pub enum Item {
    /// Variables.
    Variables(Variables),
    /// An import.
    Import(Import),
    /// An export.
    Export(Export),
    /// A function.
    Function(Function),
    /// A task.
    Task(Task),
    /// `initial` stmt (9.2.1); the number is that of the `initial`.
    Initial(u32, Stmt),
    /// id id `(` `)` `;` (23.3.2)
    Instance(Name, Name),
}

/// `module` .. `endmodule` (23.2)
#[derive(Drop)]
pub struct Module {
    /// The number of the `module`.
    pub token: u32,
    /// The name.
    pub name: Name,
    /// Whether parentheses follow the name.
    pub parentheses: bool,
    /// The items.
    pub items: Items<Item>,
    /// The label behind `endmodule`.
    pub end: Option<Label>,
}

/// A file: its modules.
#[derive(Drop)]
pub struct SvFile {
    /// The modules.
    pub modules: Items<Module>,
}
