//! Linked files: a design and a program that fit, and what the two tell together.
use crate::exports::{ExportName, exported_names, names_at, number_named};
use crate::functions::imported_functions;
use c_check::CProgram;
use dpi_ports::NoMemory;
use sqlite_items::Items;
use std::alloc::Global;
use std::marker::Model;
use sv_check::Design;

/// A design and a program that break no rule of linking. Contracts see them as the files of both
/// languages.
#[derive(Drop)]
pub struct Linked {
    design: Design,
    program: CProgram,
    exports: Items<Items<ExportName>>,
    functions: Vec<Option<u32>>,
}

impl Model for Linked {
    ghost use Rattle.dpi_decl.specs.Pair.{Pair, pair_code};

    ghost Value = { Pair };

    ghost coded = { pair_code };

    ghost use Rattle.dpi_decl.specs.Linked.{IsLinked};

    ghost view = { λ l. record { svs = l.design; cs = l.program } };

    ghost invariant = { λ l. IsLinked l };
}

impl Linked {
    ghost use Rattle.std.specs.Prelude.{◌≡◌, ◌<◌, Some, [], IfOk, length, map};
    ghost use Rattle.sv_design.specs.Imports.{imports_in};
    ghost use Rattle.sv_scopes.specs.Scopes.{scopes_in};
    ghost use Rattle.c_check.specs.Check.{violations};
    ghost use Rattle.dpi_links.specs.Link.{sv_violations, c_violations};
    ghost use Rattle.dpi_decl.specs.Exports as exporting;
    ghost use Rattle.dpi_decl.specs.Functions as calling;

    /// The names that each module of the design exports.
    fn names(alloc: Global, design: &Design) -> Result<Items<Items<ExportName>>, NoMemory>
        ensures { IfOk result (λ r. r ≡ exporting.exported_names design.now) }
    {
        exported_names(alloc, design.files(), design.all_exports())
    }

    /// The function that each import of the design calls.
    fn callees(
        alloc: Global,
        design: &Design,
        program: &CProgram,
    ) -> Result<Vec<Option<u32>>, NoMemory>
        ensures callees { IfOk result (λ list. list.items ≡ map (calling.called_function program.now) (imports_in design.now)) }
        ensures clean { IfOk result (λ list. violations program.now ≡ []) }
    {
        let functions = program.all_functions();
        imported_functions(alloc, program.files(), functions, design.all_imports())
    }

    /// A design and a program that break no rule of linking. NoMemory where no memory was found.
    pub(crate) fn new(alloc: Global, design: Design, program: CProgram) -> Result<Linked, NoMemory>
        requires in_sv { sv_violations design program ≡ [] }
        requires in_c { c_violations design program ≡ [] }
        ensures { IfOk result (λ l. l ≡ record { svs = design; cs = program }) }
    {
        let exports = Linked::names(alloc, &design)?;
        let functions = Linked::callees(alloc, &design, &program)?;
        Ok(Linked {
            design,
            program,
            exports,
            functions,
        })
    }

    /// The design. Its files break no rule of linking with those of the program.
    pub fn design(&self) -> &Design
        ensures design { result.now ≡ self.now.svs }
        ensures clean { sv_violations self.now.svs self.now.cs ≡ [] }
    {
        &self.design
    }

    /// The program. Its files break no rule of linking with those of the design.
    pub fn program(&self) -> &CProgram
        ensures program { result.now ≡ self.now.cs }
        ensures clean { c_violations self.now.svs self.now.cs ≡ [] }
    {
        &self.program
    }

    /// The number of the export of this name in C in the module of the scope of this number; None
    /// where that module exports no such name (IEEE 1800-2017, 35.5.5).
    pub fn export_in(&self, scope: u32, c_name: &[u8]) -> Option<u32>
        requires { scope < length (scopes_in self.now.svs) }
        ensures { result ≡ exporting.export_in self.now.svs scope c_name.now }
    {
        let module = self.design.module_number(scope);
        number_named(names_at(self.exports.as_slice(), module), c_name)
    }

    /// The number of the C function that the import of this number calls (35.4): the one of the
    /// import's name in C that isn't `static` and has a body.
    pub fn function_of(&self, import: u32) -> u32
        requires { import < length (imports_in self.now.svs) }
        ensures { calling.function_of self.now.svs self.now.cs import ≡ Some result }
    {
        self.functions[import as usize].unwrap()
    }
}
