//! A program: the trees, and what they list and tell.
use crate::lists::lookup_of;
use c_base::CType;
use c_lookup::{CLookup, CMeaning};
use c_program::{CFunction, CObject, functions_of, objects_of};
use c_tree::{CExpr, CFile};
use dpi_numbered::Numbered;
use dpi_ports::NoMemory;
use std::alloc::Global;
use std::marker::Model;

/// A program of C: files that break no rule, with what they list and tell. Contracts see it as the
/// list of its files.
#[derive(Drop)]
pub struct CProgram {
    files: Numbered<CFile>,
    functions: Numbered<CFunction>,
    objects: Numbered<CObject>,
    lookup: CLookup,
}

impl Model for CProgram {
    ghost use Rattle.std.specs.Prelude.{List};
    ghost use Rattle.std.specs.Coded.{coded_list};
    ghost use Rattle.c_tree.specs.declared.file.CFile.{CFile};
    ghost use Rattle.c_tree.specs.contracts.file.CFile as file;

    ghost Value = { List CFile };

    ghost coded = { coded_list file.the_row.coded };

    ghost use Rattle.c_check.specs.Program.{IsProgram};

    ghost view = { λ p. p.files };

    ghost invariant = { λ p. IsProgram p };
}

impl CProgram {
    ghost use Rattle.std.specs.Prelude.{◌≡◌, ◌<◌, ◌≤◌, Some, [], IfOk, length, slice_get};
    ghost use Rattle.c_program.specs.Functions.{functions_of};
    ghost use Rattle.c_program.specs.Objects.{objects_of};
    ghost use Rattle.c_tree.specs.declared.expr.CExpr.{out-CExpr};
    ghost use Rattle.c_check.specs.Check.{violations};
    ghost use Rattle.c_check.specs.Facts.{meanings_in, types_in};

    /// The program of these files, which break no rule. NoMemory where no memory was found, or a list has
    /// more entries than 32 bits count.
    pub(crate) fn new(alloc: Global, files: Vec<CFile>) -> Result<CProgram, NoMemory>
        requires few { length files.items ≤ 1000 }
        requires clean { violations files.items ≡ [] }
        ensures { IfOk result (λ p. p ≡ files.items) }
    {
        let trees = files.as_slice();
        let functions = Numbered::new(functions_of(alloc, trees)?)?;
        let objects = Numbered::new(objects_of(alloc, trees)?)?;
        let lookup = lookup_of(alloc, trees, functions.as_slice(), objects.as_slice())?;
        let files = Numbered::new(files)?;
        Ok(CProgram {
            files,
            functions,
            objects,
            lookup,
        })
    }

    /// The trees of the files, of which there are at most 1,000. They break no rule.
    pub fn files(&self) -> &[CFile]
        ensures files { result.now ≡ self.now }
        ensures few { length self.now ≤ 1000 }
        ensures clean { violations self.now ≡ [] }
    {
        self.files.as_slice()
    }

    /// The tree of the file of this number.
    pub fn tree(&self, file: u32) -> &CFile
        requires { file < length self.now }
        ensures { slice_get self.now file ≡ Some result.now }
    {
        self.files.get(file)
    }

    /// How many functions there are: each counts once, at its body or else at its first prototype.
    pub fn functions(&self) -> u32
        ensures { result ≡ length (functions_of self.now) }
    {
        self.functions.len()
    }

    /// All functions, by number.
    pub fn all_functions(&self) -> &[CFunction]
        ensures { result.now ≡ functions_of self.now }
    {
        self.functions.as_slice()
    }

    /// The function of this number.
    pub fn function(&self, number: u32) -> &CFunction
        requires { number < length (functions_of self.now) }
        ensures { slice_get (functions_of self.now) number ≡ Some result.now }
    {
        self.functions.get(number)
    }

    /// How many objects there are: those of file scope, of functions, and named parameters of bodies.
    pub fn objects(&self) -> u32
        ensures { result ≡ length (objects_of self.now) }
    {
        self.objects.len()
    }

    /// The object of this number.
    pub fn object(&self, number: u32) -> &CObject
        requires { number < length (objects_of self.now) }
        ensures { slice_get (objects_of self.now) number ≡ Some result.now }
    {
        self.objects.get(number)
    }

    /// What the name at this token of the file means; None where it means nothing (6.2.1).
    pub fn meaning(&self, file: u32, token: u32) -> Option<CMeaning>
        ensures { result ≡ meanings_in self.now file token }
    {
        self.lookup.meaning(file, token)
    }

    /// The type that this expression of the file has by itself, an array's the pointer to its first
    /// cell (6.3.2.1).
    pub fn type_of(&self, file: u32, e: &CExpr) -> Option<CType>
        ensures { result ≡ types_in self.now file (out-CExpr e.now).token }
    {
        self.lookup.type_of(file, e)
    }
}
