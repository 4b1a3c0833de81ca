//! What names mean, and the types of expressions.

ghost use Rattle.std.specs.Prelude.{◌≡◌, ◌≤◌, IfOk, length, map};
ghost use Rattle.std.specs.Vec.{vec_items};
ghost use Rattle.sv_tree.specs.declared.expr.Expr.{out-Expr};
ghost use Rattle.sv_lookup.specs.Facts.{types_in};
ghost use Rattle.sv_lookup.specs.Meanings as spec;

use crate::facts::{Told, told_of};
use crate::numbers::Numbers;
use dpi_ports::NoMemory;
use std::alloc::Global;
use sv_design::{Declaration, Import, Place, Subroutine};
use sv_facts::{Fact, Meant};
use sv_tree::Expr;
use sv_typing::ExprType;

/// What a name means, by its number in the list of its kind (IEEE 1800-2017, 23.9).
#[derive(Clone, Copy, Debug, PartialEq, Eq)]
pub enum Meaning {
    /// A variable, a formal, or the result of a function.
    Declaration(u32),
    /// A function or a task.
    Subroutine(u32),
    /// An import.
    Import(u32),
    /// A named block.
    Block(u32),
    /// A module.
    Module,
}

/// What the names of a design mean, and the types of its expressions. Contracts see it as two
/// functions from files and tokens, `meanings_of` and `lookup_types`.
#[derive(Drop)]
pub struct Lookup {
    told: Told,
    declarations: Numbers,
    subroutines: Numbers,
    imports: Numbers,
    blocks: Numbers,
}

impl Lookup {
    /// By the facts of each file, and the lists of what the design declares. There are at most
    /// 1,000 files. NoMemory where no memory was found, or a list has more entries than 32 bits
    /// count.
    pub fn of(
        alloc: Global,
        files: &[Vec<Fact>],
        declarations: &[Declaration],
        subroutines: &[Subroutine],
        imports: &[Import],
        blocks: &[Place],
    ) -> Result<Lookup, NoMemory>
        requires { length files.now ≤ 1000 }
        ensures meanings { IfOk result (λ l. spec.meanings_of l ≡ spec.meaning_in (spec.numbering (map spec.declaration_place declarations.now) (map spec.subroutine_place subroutines.now) (map spec.import_place imports.now) blocks.now) (map vec_items files.now)) }
        ensures types { IfOk result (λ l. spec.lookup_types l ≡ types_in (map vec_items files.now)) }
    {
        Ok(Lookup {
            told: told_of(alloc, files)?,
            declarations: Numbers::of(alloc, declarations)?,
            subroutines: Numbers::of(alloc, subroutines)?,
            imports: Numbers::of(alloc, imports)?,
            blocks: Numbers::of(alloc, blocks)?,
        })
    }

    /// What a name of this file means that is told by its declared name.
    fn meaning_of(&self, file: u32, meant: Meant) -> Option<Meaning>
        ensures { result ≡ spec.meaning_of (spec.numbering_of self.now) file meant }
    {
        match meant {
            Meant::Declaration(token) => self
                .declarations
                .number(file, token)
                .map(Meaning::Declaration),
            Meant::Subroutine(token) => self
                .subroutines
                .number(file, token)
                .map(Meaning::Subroutine),
            Meant::Import(token) => self.imports.number(file, token).map(Meaning::Import),
            Meant::Block(token) => self.blocks.number(file, token).map(Meaning::Block),
            Meant::Module => Some(Meaning::Module),
        }
    }

    /// What the name at this token of the file means; None where the file or the token tells
    /// nothing.
    pub fn meaning(&self, file: u32, token: u32) -> Option<Meaning>
        ensures { result ≡ spec.meanings_of self.now file token }
    {
        let meant = self.told.names.get(file, token)?;
        self.meaning_of(file, meant)
    }

    /// The type that this expression of the file has by itself (11.6); None where the file or the
    /// expression has none.
    pub fn type_of(&self, file: u32, e: &Expr) -> Option<ExprType>
        ensures { result ≡ spec.lookup_types self.now file (out-Expr e.now).token }
    {
        self.told.types.get(file, e.token)
    }
}
