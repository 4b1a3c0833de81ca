//! Declarations of variables (IEEE 1800-2017, 6.8 and 6.21).
ghost use Rattle.std.specs.Prelude.{◌≡◌, ◌++◌, OnOk, flat_map};
ghost use Rattle.sv_design.specs.Declarations as spec;

use dpi_ports::NoMemory;
use sv_shapes::{VarKind, kind_of};
use sv_tree::{DataType, Declarator, Life, Lifetime, Start, Variables};

/// What a variable lives with (IEEE 1800-2017, 6.21).
#[derive(Clone, Copy, Debug, PartialEq, Eq)]
pub enum Owner {
    /// The instance of its module: it is static.
    Instance,
    /// A call: it is declared in an automatic function or task.
    Call,
    /// A loop: it is declared by a `for` (12.7.1).
    Loop,
}

/// A variable, a formal of a function or a task, or the result of a function.
#[derive(Clone, Copy, Debug, PartialEq, Eq)]
pub struct Declaration {
    /// The number of the file.
    pub file: u32,
    /// The number of its name's token.
    pub token: u32,
    /// What it holds.
    pub kind: VarKind,
    /// What it lives with.
    pub owner: Owner,
}

/// Whether a function or a task with this lifetime is automatic; without one it is static (13.3.1,
/// 13.4.2).
pub(crate) fn is_automatic(life: &Option<Life>) -> bool
    ensures { result ≡ spec.is_automatic life.now }
{
    match life {
        None => false,
        Some(life) => matches!(life.lifetime, Lifetime::Automatic),
    }
}

/// What the variables of a function or a task with this lifetime live with.
pub(crate) fn owner_of(life: &Option<Life>) -> Owner
    ensures { result ≡ spec.owner_of life.now }
{
    if is_automatic(life) {
        Owner::Call
    } else {
        Owner::Instance
    }
}

/// Adds a declaration of this kind, unless it is refused.
pub(crate) fn add_declaration(
    file: u32,
    owner: Owner,
    token: u32,
    kind: Option<VarKind>,
    list: &mut Vec<Declaration>,
) -> Result<(), NoMemory>
    ensures { OnOk result (list.new.items ≡ list.old.items ++ spec.declaration file owner token kind) }
{
    if let Some(kind) = kind {
        list.push(Declaration {
            file,
            token,
            kind,
            owner,
        })?;
    }
    Ok(())
}

/// Adds a variable of this type.
fn add_declarator(
    file: u32,
    owner: Owner,
    data_type: &DataType,
    declarator: &Declarator,
    list: &mut Vec<Declaration>,
) -> Result<(), NoMemory>
    ensures { OnOk result (list.new.items ≡ list.old.items ++ spec.declarator_declarations file owner data_type.now declarator.now) }
{
    let kind = kind_of(data_type, declarator.dimensions.as_slice());
    add_declaration(file, owner, declarator.name.token, kind, list)
}

/// Adds variables of this type.
fn add_declarators(
    file: u32,
    owner: Owner,
    data_type: &DataType,
    declarators: &[Declarator],
    list: &mut Vec<Declaration>,
) -> Result<(), NoMemory>
    ensures { OnOk result (list.new.items ≡ list.old.items ++ flat_map (spec.declarator_declarations file owner data_type.now) declarators.now) }
{
    for declarator in declarators {
        add_declarator(file, owner, data_type, declarator, list)?;
    }
    Ok(())
}

/// Adds the variables of one declaration.
pub(crate) fn add_variables(
    file: u32,
    owner: Owner,
    variables: &Variables,
    list: &mut Vec<Declaration>,
) -> Result<(), NoMemory>
    ensures { OnOk result (list.new.items ≡ list.old.items ++ spec.variables_declarations file owner variables.now) }
{
    add_declarators(
        file,
        owner,
        &variables.kind,
        variables.declarators.as_slice(),
        list,
    )
}

/// Adds the variables of several declarations.
pub(crate) fn add_all_variables(
    file: u32,
    owner: Owner,
    declarations: &[Variables],
    list: &mut Vec<Declaration>,
) -> Result<(), NoMemory>
    ensures { OnOk result (list.new.items ≡ list.old.items ++ flat_map (spec.variables_declarations file owner) declarations.now) }
{
    for variables in declarations {
        add_variables(file, owner, variables, list)?;
    }
    Ok(())
}

/// Adds the variable of a `for`, if it declares one.
pub(crate) fn add_start(
    file: u32,
    start: &Start,
    list: &mut Vec<Declaration>,
) -> Result<(), NoMemory>
    ensures { OnOk result (list.new.items ≡ list.old.items ++ spec.start_declarations file start.now) }
{
    match start {
        Start::Declare(data_type, name, _, _) => {
            let kind = kind_of(data_type, &[]);
            add_declaration(file, Owner::Loop, name.token, kind, list)
        }
        Start::Assign(..) => Ok(()),
    }
}
