//! Declarations of variables and parameters (ISO C 6.7). Each part has the number of its first
//! token, from 0, or begins with one that has.

ghost use Rattle.std.specs.Prelude.{◌≡◌};
ghost use Rattle.c_tree.specs.Stores as spec;

use crate::class::Class;
use crate::expr::CExpr;
use crate::leaves::{Name, Number};
use crate::types::{CType, Star};
use sqlite_items::Items;

/// Where a name is stored and who sees it (6.7.1).
#[derive(Clone, Copy, Debug, PartialEq, Eq)]
pub enum StoreKind {
    /// `static`
    Static,
    /// `extern`
    Extern,
}

impl StoreKind {
    /// The choice that a token of this class stands for, if it does.
    pub fn of(class: Option<Class>) -> Option<StoreKind>
        ensures { result ≡ spec.store_of class }
    {
        match class {
            Some(Class::Static) => Some(StoreKind::Static),
            Some(Class::Extern) => Some(StoreKind::Extern),
            _ => None,
        }
    }
}

/// `static` or `extern`
#[derive(Drop)]
pub struct Store {
    /// The number of its token.
    pub token: u32,
    /// Which one it is.
    pub kind: StoreKind,
}

/// A size of an array (6.7.6.2).
#[derive(Drop)]
pub enum Size {
    /// A number.
    Number(Number),
    /// A name.
    Name(Name),
    /// id `(` number `)`; the number is that of the `(`.
    Call(Name, u32, Number),
}

/// `[` size `]`
#[derive(Drop)]
pub struct Array {
    /// The number of the `[`.
    pub token: u32,
    /// The size.
    pub size: Size,
}

/// What a variable begins with.
#[derive(Drop)]
pub enum Init {
    /// An expression.
    Value(CExpr),
    /// `{` expr, .. `}`, with at least one; the number is that of the `{`.
    List(u32, Items<CExpr>),
}

/// `=` cinit (6.7.9)
#[derive(Drop)]
pub struct Initializer {
    /// The number of the `=`.
    pub token: u32,
    /// What the variable begins with.
    pub value: Init,
}

/// A variable: its stars, its name, its size and what it begins with (6.7.6).
#[derive(Drop)]
pub struct Declarator {
    /// The stars.
    pub stars: Items<Star>,
    /// The name.
    pub name: Name,
    /// The size of an array.
    pub array: Option<Array>,
    /// What it begins with.
    pub initializer: Option<Initializer>,
}

/// store? type cdecl, .. `;`, with at least one.
#[derive(Drop)]
pub struct Variables {
    /// `static` or `extern`.
    pub store: Option<Store>,
    /// The type.
    pub kind: CType,
    /// The variables.
    pub declarators: Items<Declarator>,
}

/// `[` size? `]`
#[derive(Drop)]
pub struct ParamArray {
    /// The number of the `[`.
    pub token: u32,
    /// The size.
    pub size: Option<Size>,
}

/// A parameter: its type, its stars, its name and whether it is written as an array (6.7.6.3).
#[derive(Drop)]
pub struct Param {
    /// The type.
    pub kind: CType,
    /// The stars.
    pub stars: Items<Star>,
    /// The name.
    pub name: Option<Name>,
    /// The array that it is written as.
    pub array: Option<ParamArray>,
}

/// The parameters of a function.
#[derive(Drop)]
pub enum Params {
    /// `void` alone, with the number of its token.
    Void(u32),
    /// Parameters, or none. The only one isn't `void` alone.
    List(Items<Param>),
}
