//! A design: the trees, and what they list and tell.
use crate::formals::shape_for;
use crate::lists::{listed_scopes, listed_variables, lookup_of};
use dpi_numbered::Numbered;
use dpi_ports::NoMemory;
use dpi_shape::Shape;
use sqlite_items::{Items, at};
use std::alloc::Global;
use std::marker::Model;
use sv_design::{
    Declaration, Export, Import, Place, Subroutine, blocks_of, declarations_of, exports_of,
    imports_of, initials_of, subroutines_of,
};
use sv_instances::Instance;
use sv_lookup::{Lookup, Meaning};
use sv_scopes::{Scope, Variable};
use sv_tree::{Expr, SvFile};
use sv_typing::ExprType;

/// A design: files that break no rule, with what they list and tell. Contracts see it as the list of
/// its files.
#[derive(Drop)]
pub struct Design {
    files: Numbered<SvFile>,
    scopes: Numbered<Scope>,
    variables: Numbered<Variable>,
    declarations: Numbered<Declaration>,
    subroutines: Numbered<Subroutine>,
    imports: Numbered<Import>,
    exports: Numbered<Export>,
    initials: Numbered<Place>,
    blocks: Numbered<Place>,
    lookup: Lookup,
}

impl Model for Design {
    ghost use Rattle.std.specs.Prelude.{List};
    ghost use Rattle.std.specs.Coded.{coded_list};
    ghost use Rattle.sv_tree.specs.declared.items.SvFile.{SvFile};
    ghost use Rattle.sv_tree.specs.contracts.items.SvFile as file;

    ghost Value = { List SvFile };

    ghost coded = { coded_list file.the_row.coded };

    ghost use Rattle.sv_check.specs.Design.{IsDesign};

    ghost view = { λ d. d.files };

    ghost invariant = { λ d. IsDesign d };
}

impl Design {
    ghost use Rattle.std.specs.Prelude.{◌≡◌, ◌<◌, ◌≤◌, Some, [], IsSome, IfOk, length, take, slice_get, option_map};
    ghost use Rattle.sv_tree.specs.declared.expr.Expr.{out-Expr};
    ghost use Rattle.sv_instances.specs.Modules.{modules_in};
    ghost use Rattle.sv_design.specs.Items.{declarations_in};
    ghost use Rattle.sv_design.specs.Subroutines.{subroutines_in};
    ghost use Rattle.sv_design.specs.Imports.{imports_in};
    ghost use Rattle.sv_design.specs.Exports.{exports_in};
    ghost use Rattle.sv_design.specs.Places.{initials_in, blocks_in};
    ghost use Rattle.sv_scopes.specs.Instances as listing;
    ghost use Rattle.sv_scopes.specs.Scopes.{scopes_in, name_of, home_of, module_number_of};
    ghost use Rattle.sv_scopes.specs.Variables.{variables_in};
    ghost use Rattle.sv_check.specs.Check.{violations};
    ghost use Rattle.sv_check.specs.Facts.{meanings_in, types_in};
    ghost use Rattle.sv_check.specs.Formals.{shape_in};

    /// The design of these files, which break no rule, by their instances. NoMemory where no memory was
    /// found, or a list has more entries than 32 bits count.
    pub(crate) fn new(
        alloc: Global,
        files: Vec<SvFile>,
        instances: Items<Instance>,
    ) -> Result<Design, NoMemory>
        requires few { length files.items ≤ 1000 }
        requires clean { violations files.items ≡ [] }
        requires listed { instances ≡ take 1001 (listing.instances 1001 (modules_in files.items)) }
        ensures { IfOk result (λ d. d ≡ files.items) }
    {
        let trees = files.as_slice();
        let scopes = listed_scopes(alloc, trees, instances.as_slice())?;
        let declarations = Numbered::new(declarations_of(alloc, trees)?)?;
        let subroutines = Numbered::new(subroutines_of(alloc, trees)?)?;
        let imports = Numbered::new(imports_of(alloc, trees)?)?;
        let exports = Numbered::new(exports_of(alloc, trees)?)?;
        let initials = Numbered::new(initials_of(alloc, trees)?)?;
        let blocks = Numbered::new(blocks_of(alloc, trees)?)?;
        let variables = listed_variables(alloc, trees, declarations.as_slice(), scopes.as_slice())?;
        let lookup = lookup_of(
            alloc,
            trees,
            declarations.as_slice(),
            subroutines.as_slice(),
            imports.as_slice(),
            blocks.as_slice(),
        )?;
        let files = Numbered::new(files)?;
        Ok(Design {
            files,
            scopes,
            variables,
            declarations,
            subroutines,
            imports,
            exports,
            initials,
            blocks,
            lookup,
        })
    }

    /// The trees of the files, of which there are at most 1,000. They break no rule.
    pub fn files(&self) -> &[SvFile]
        ensures files { result.now ≡ self.now }
        ensures few { length self.now ≤ 1000 }
        ensures clean { violations self.now ≡ [] }
    {
        self.files.as_slice()
    }

    /// The tree of the file of this number.
    pub fn tree(&self, file: u32) -> &SvFile
        requires { file < length self.now }
        ensures { slice_get self.now file ≡ Some result.now }
    {
        self.files.get(file)
    }

    /// How many scopes there are, at most 1,000: the instances of modules (IEEE 1800-2017, 23.3).
    pub fn scopes(&self) -> u32
        ensures { result ≡ length (scopes_in self.now) }
    {
        self.scopes.len()
    }

    /// The full name of the scope of this number, in preorder (23.6).
    pub fn scope_name(&self, number: u32) -> &[u8]
        requires { number < length (scopes_in self.now) }
        ensures { option_map name_of (slice_get (scopes_in self.now) number) ≡ Some result.now }
    {
        self.scopes.get(number).name.as_slice()
    }

    /// The module of the scope of this number: its file, and its number in that file, both from 0.
    pub fn module(&self, number: u32) -> (u32, u32)
        requires { number < length (scopes_in self.now) }
        ensures { option_map home_of (slice_get (scopes_in self.now) number) ≡ Some (record { file = result.0; number = result.1 }) }
    {
        let home = self.scopes.get(number).home;
        (home.file, home.number)
    }

    /// The number that the module of the scope of this number has over all files, in text order.
    pub fn module_number(&self, number: u32) -> usize
        requires { number < length (scopes_in self.now) }
        ensures { option_map module_number_of (slice_get (scopes_in self.now) number) ≡ Some result }
    {
        self.scopes.get(number).module_number
    }

    /// How many variables of modules there are, each scope with its own.
    pub fn variables(&self) -> u32
        ensures { result ≡ length (variables_in self.now) }
    {
        self.variables.len()
    }

    /// The variable of this number: they are numbered by scope, then in text order.
    pub fn variable(&self, number: u32) -> &Variable
        requires { number < length (variables_in self.now) }
        ensures { slice_get (variables_in self.now) number ≡ Some result.now }
    {
        self.variables.get(number)
    }

    /// How many declarations there are: variables, formals of functions and tasks, and results.
    pub fn declarations(&self) -> u32
        ensures { result ≡ length (declarations_in self.now) }
    {
        self.declarations.len()
    }

    /// The declaration of this number.
    pub fn declaration(&self, number: u32) -> &Declaration
        requires { number < length (declarations_in self.now) }
        ensures { slice_get (declarations_in self.now) number ≡ Some result.now }
    {
        self.declarations.get(number)
    }

    /// How many functions and tasks there are.
    pub fn subroutines(&self) -> u32
        ensures { result ≡ length (subroutines_in self.now) }
    {
        self.subroutines.len()
    }

    /// The function or task of this number.
    pub fn subroutine(&self, number: u32) -> &Subroutine
        requires { number < length (subroutines_in self.now) }
        ensures { slice_get (subroutines_in self.now) number ≡ Some result.now }
    {
        self.subroutines.get(number)
    }

    /// How many imports there are.
    pub fn imports(&self) -> u32
        ensures { result ≡ length (imports_in self.now) }
    {
        self.imports.len()
    }

    /// All imports, by number.
    pub fn all_imports(&self) -> &[Import]
        ensures { result.now ≡ imports_in self.now }
    {
        self.imports.as_slice()
    }

    /// The import of this number.
    pub fn import_of(&self, number: u32) -> &Import
        requires { number < length (imports_in self.now) }
        ensures { slice_get (imports_in self.now) number ≡ Some result.now }
    {
        self.imports.get(number)
    }

    /// How many exports there are.
    pub fn exports(&self) -> u32
        ensures { result ≡ length (exports_in self.now) }
    {
        self.exports.len()
    }

    /// All exports, by number.
    pub fn all_exports(&self) -> &[Export]
        ensures { result.now ≡ exports_in self.now }
    {
        self.exports.as_slice()
    }

    /// The export of this number.
    pub fn export_of(&self, number: u32) -> &Export
        requires { number < length (exports_in self.now) }
        ensures { slice_get (exports_in self.now) number ≡ Some result.now }
    {
        self.exports.get(number)
    }

    /// How many initial blocks there are.
    pub fn initials(&self) -> u32
        ensures { result ≡ length (initials_in self.now) }
    {
        self.initials.len()
    }

    /// Where the initial block of this number stands, at its `initial`.
    pub fn initial(&self, number: u32) -> &Place
        requires { number < length (initials_in self.now) }
        ensures { slice_get (initials_in self.now) number ≡ Some result.now }
    {
        self.initials.get(number)
    }

    /// How many named blocks there are.
    pub fn blocks(&self) -> u32
        ensures { result ≡ length (blocks_in self.now) }
    {
        self.blocks.len()
    }

    /// Where the named block of this number stands, at its name.
    pub fn block(&self, number: u32) -> &Place
        requires { number < length (blocks_in self.now) }
        ensures { slice_get (blocks_in self.now) number ≡ Some result.now }
    {
        self.blocks.get(number)
    }

    /// The shape that a formal of an import has for an actual of that shape: an open dimension takes
    /// the actual's range, and an open packed part its width (35.5.6.1).
    pub fn formal_shape(&self, import: u32, formal: u32, actual: &Shape) -> Shape
        requires number { import < length (imports_in self.now) }
        requires fits { IsSome (shape_in self.now import formal actual.now) }
        ensures { shape_in self.now import formal actual.now ≡ Some result }
    {
        let formals = self.imports.get(import).formals.as_slice();
        shape_for(at(formals, formal as usize).copied(), actual).unwrap()
    }

    /// What the name at this token of the file means; None where it means nothing (23.9).
    pub fn meaning(&self, file: u32, token: u32) -> Option<Meaning>
        ensures { result ≡ meanings_in self.now file token }
    {
        self.lookup.meaning(file, token)
    }

    /// The type that this expression of the file has by itself (11.6).
    pub fn type_of(&self, file: u32, e: &Expr) -> Option<ExprType>
        ensures { result ≡ types_in self.now file (out-Expr e.now).token }
    {
        self.lookup.type_of(file, e)
    }
}
