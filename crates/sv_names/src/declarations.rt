//! The declarations of each scope, in text order.

ghost use Rattle.std.specs.Prelude.{◌≡◌, ◌<◌, ◌^◌, [], ◌∷◌, flat_map};
ghost use Rattle.sv_names.specs.Names.{names_of};
ghost use Rattle.sv_names.specs.Blocks.{stmt_blocks};
ghost use Rattle.sv_names.specs.Declaring.{Declares};
ghost use Rattle.sv_names.specs.Declarations as spec;

use crate::blocks::declare_blocks;
use crate::declaring::declare;
use crate::entry::Thing;
use crate::scope::Scope;
use dpi_ports::NoMemory;
use dpi_rules::Violation;
use std::alloc::Global;
use sv_shapes::kind_of;
use sv_tree::{Block, DataType, Declarator, Item, Module, Start, Stmt, Variables};

/// Declares a variable of this type.
fn declare_variable<'a>(
    scope: &mut Scope<'a>,
    file: u32,
    data_type: &DataType,
    declarator: &'a Declarator,
    found: &mut Option<Violation>,
) -> Result<(), NoMemory>
    ensures { Declares file (spec.variable_declares data_type.now declarator.now ∷ []) (names_of scope.old) found.old result (names_of scope.new) found.new }
{
    let kind = kind_of(data_type, declarator.dimensions.as_slice());
    declare(scope, file, &declarator.name, Thing::Variable(kind), found)
}

/// Declares the variables of one declaration.
fn declare_variables<'a>(
    scope: &mut Scope<'a>,
    file: u32,
    variables: &'a Variables,
    found: &mut Option<Violation>,
) -> Result<(), NoMemory>
    ensures { Declares file (spec.variables_declare variables.now) (names_of scope.old) found.old result (names_of scope.new) found.new }
{
    for declarator in variables.declarators.as_slice() {
        declare_variable(scope, file, &variables.kind, declarator, found)?;
    }
    Ok(())
}

/// Declares the variables of several declarations.
fn declare_all_variables<'a>(
    scope: &mut Scope<'a>,
    file: u32,
    declarations: &'a [Variables],
    found: &mut Option<Violation>,
) -> Result<(), NoMemory>
    ensures { Declares file (flat_map spec.variables_declare declarations.now) (names_of scope.old) found.old result (names_of scope.new) found.new }
{
    for variables in declarations {
        declare_variables(scope, file, variables, found)?;
    }
    Ok(())
}

/// Declares the named blocks of statements that no other block of these encloses.
fn declare_statements<'a>(
    scope: &mut Scope<'a>,
    file: u32,
    statements: &'a [Stmt],
    found: &mut Option<Violation>,
) -> Result<(), NoMemory>
    ensures { Declares file (flat_map stmt_blocks statements.now) (names_of scope.old) found.old result (names_of scope.new) found.new }
{
    for statement in statements {
        declare_blocks(scope, file, statement, found)?;
    }
    Ok(())
}

/// Declares variables, and then the named blocks among statements.
pub(crate) fn declare_body<'a>(
    scope: &mut Scope<'a>,
    file: u32,
    variables: &'a [Variables],
    statements: &'a [Stmt],
    found: &mut Option<Violation>,
) -> Result<(), NoMemory>
    ensures { Declares file (spec.body_declares variables.now statements.now) (names_of scope.old) found.old result (names_of scope.new) found.new }
{
    declare_all_variables(scope, file, variables, found)?;
    declare_statements(scope, file, statements, found)
}

/// The scope of a block, with or without a label: its variables, and the named blocks in it that no
/// other block in it encloses. Rule 4 is noted at each second declaration of a name. NoMemory where
/// no memory was found.
pub fn block_scope<'a>(
    alloc: Global,
    file: u32,
    block: &'a Block,
    found: &mut Option<Violation>,
) -> Result<Scope<'a>, NoMemory>
    ensures { spec.Opens file (spec.block_declares block.now) found.old result found.new }
{
    let mut scope = Scope::new(alloc);
    declare_body(
        &mut scope,
        file,
        block.variables.as_slice(),
        block.statements.as_slice(),
        found,
    )?;
    Ok(scope)
}

/// Declares the variable of a `for`, if it declares one.
fn declare_start<'a>(
    scope: &mut Scope<'a>,
    file: u32,
    start: &'a Start,
    found: &mut Option<Violation>,
) -> Result<(), NoMemory>
    ensures { Declares file (spec.start_declares start.now) (names_of scope.old) found.old result (names_of scope.new) found.new }
{
    match start {
        Start::Declare(data_type, name, _, _) => {
            let kind = kind_of(data_type, &[]);
            declare(scope, file, name, Thing::Variable(kind), found)
        }
        Start::Assign(..) => Ok(()),
    }
}

/// The scope of a `for`: its variable alone, if it declares one (12.7.1). NoMemory where no memory
/// was found.
pub fn for_scope<'a>(
    alloc: Global,
    file: u32,
    start: &'a Start,
    found: &mut Option<Violation>,
) -> Result<Scope<'a>, NoMemory>
    ensures { spec.Opens file (spec.start_declares start.now) found.old result found.new }
{
    let mut scope = Scope::new(alloc);
    declare_start(&mut scope, file, start, found)?;
    Ok(scope)
}

/// Declares what an item of a module declares, behind so many functions and tasks, and so many
/// imports of the module.
fn declare_item<'a>(
    scope: &mut Scope<'a>,
    file: u32,
    subroutines: usize,
    imports: usize,
    item: &'a Item,
    found: &mut Option<Violation>,
) -> Result<(), NoMemory>
    ensures { Declares file (spec.item_declares subroutines imports item.now) (names_of scope.old) found.old result (names_of scope.new) found.new }
{
    match item {
        Item::Variables(variables) => declare_variables(scope, file, variables, found),
        Item::Import(import) => {
            declare(scope, file, &import.name, Thing::Import(imports), found)
        }
        Item::Export(_) => Ok(()),
        Item::Function(function) => declare(
            scope,
            file,
            &function.name,
            Thing::Function(subroutines),
            found,
        ),
        Item::Task(task) => declare(scope, file, &task.name, Thing::Task(subroutines), found),
        Item::Initial(_, statement) => declare_blocks(scope, file, statement, found),
        Item::Instance(_, name) => declare(scope, file, name, Thing::Instance, found),
    }
}

/// The functions and tasks up to behind this item.
fn subroutines_with(number: usize, item: &Item) -> usize
    requires { number < 2 ^ 63 }
    ensures { result ≡ spec.subroutines_with number item.now }
{
    match item {
        Item::Function(_) | Item::Task(_) => number + 1,
        _ => number,
    }
}

/// The imports up to behind this item.
fn imports_with(number: usize, item: &Item) -> usize
    requires { number < 2 ^ 63 }
    ensures { result ≡ spec.imports_with number item.now }
{
    match item {
        Item::Import(_) => number + 1,
        _ => number,
    }
}

/// Declares what the items of a module declare.
fn declare_items<'a>(
    scope: &mut Scope<'a>,
    file: u32,
    items: &'a [Item],
    found: &mut Option<Violation>,
) -> Result<(), NoMemory>
    ensures { Declares file (spec.items_declare 0 0 items.now) (names_of scope.old) found.old result (names_of scope.new) found.new }
{
    let mut subroutines = 0;
    let mut imports = 0;
    for item in items {
        declare_item(scope, file, subroutines, imports, item, found)?;
        subroutines = subroutines_with(subroutines, item);
        imports = imports_with(imports, item);
    }
    Ok(())
}

/// The scope of a module: its variables, imports, functions, tasks and instances, and the named
/// blocks of its initial blocks that no other block encloses. Rule 4 is noted at each second
/// declaration of a name. NoMemory where no memory was found.
pub fn module_scope<'a>(
    alloc: Global,
    file: u32,
    module: &'a Module,
    found: &mut Option<Violation>,
) -> Result<Scope<'a>, NoMemory>
    ensures { spec.Opens file (spec.module_declares «module».now) found.old result found.new }
{
    let mut scope = Scope::new(alloc);
    declare_items(&mut scope, file, module.items.as_slice(), found)?;
    Ok(scope)
}
