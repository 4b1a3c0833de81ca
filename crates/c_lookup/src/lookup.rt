//! What names of a C program mean, and the types of its expressions.

ghost use Rattle.std.specs.Prelude.{◌≡◌, ◌≤◌, IfOk, length, map};
ghost use Rattle.std.specs.Vec.{vec_items};
ghost use Rattle.c_tree.specs.declared.expr.CExpr.{out-CExpr};
ghost use Rattle.c_lookup.specs.Facts.{types_in};
ghost use Rattle.c_lookup.specs.Meanings as spec;

use crate::facts::{Told, told_of};
use crate::functions::function_numbers;
use crate::numbers::positions_of;
use crate::objects::object_numbers;
use c_base::CType;
use c_facts::{CFact, CMeant};
use c_functions::{declarations_of, objects_of};
use c_program::{CFunction, CObject};
use c_tree::{CExpr, CFile};
use dpi_ports::NoMemory;
use dpi_table::Tables;
use std::alloc::Global;

/// What a name means (ISO C 6.2.1 and 6.2.2), by numbers in the lists of `c_program`.
#[derive(Clone, Copy, Debug, PartialEq, Eq)]
pub enum CMeaning {
    /// An object.
    Object(u32),
    /// A function.
    Function(u32),
    /// A number: a define, one of `sv_0` to `sv_x`, or `SV_PACKED_DATA_NELEMS` with the words of
    /// its width. The kind is the type that the number has.
    Constant { kind: CType, value: i128 },
    /// `printf` or a call of `svdpi.h`.
    Library,
}

/// What the names of a program mean, and the types of its expressions. Contracts see it as two
/// functions from files and tokens, `meanings_of` and `lookup_types`.
#[derive(Drop)]
pub struct CLookup {
    told: Told,
    functions: Tables<u32>,
    objects: Tables<u32>,
}

/// The numbers of functions at the names in files that declare them, by their list.
fn functions_at(
    alloc: Global,
    files: &[CFile],
    functions: &[CFunction],
) -> Result<Tables<u32>, NoMemory>
    requires { length files.now ≤ 1000 }
    ensures { IfOk result (λ numbers. spec.numbers_of numbers ≡ spec.function_numbers files.now functions.now) }
{
    let positions = positions_of(alloc, functions)?;
    let table = declarations_of(alloc, files)?;
    function_numbers(alloc, &positions, table.as_slice())
}

/// The numbers of objects at the names in files that declare them, by their list.
fn objects_at(alloc: Global, files: &[CFile], objects: &[CObject]) -> Result<Tables<u32>, NoMemory>
    requires { length files.now ≤ 1000 }
    ensures { IfOk result (λ numbers. spec.numbers_of numbers ≡ spec.object_numbers files.now objects.now) }
{
    let positions = positions_of(alloc, objects)?;
    let declared = objects_of(alloc, files)?;
    object_numbers(alloc, positions, declared.as_slice())
}

impl CLookup {
    /// By the facts of each file, and the lists of the program's functions and objects. There are
    /// at most 1,000 files. NoMemory where no memory was found, or a list has more entries than 32
    /// bits count.
    pub fn of(
        alloc: Global,
        files: &[CFile],
        facts: &[Vec<CFact>],
        functions: &[CFunction],
        objects: &[CObject],
    ) -> Result<CLookup, NoMemory>
        requires files { length files.now ≤ 1000 }
        requires facts { length facts.now ≤ 1000 }
        ensures meanings { IfOk result (λ l. spec.meanings_of l ≡ spec.meaning_in (spec.numbering files.now functions.now objects.now) (map vec_items facts.now)) }
        ensures types { IfOk result (λ l. spec.lookup_types l ≡ types_in (map vec_items facts.now)) }
    {
        Ok(CLookup {
            told: told_of(alloc, facts)?,
            functions: functions_at(alloc, files, functions)?,
            objects: objects_at(alloc, files, objects)?,
        })
    }

    /// What a name of this file means that is told so.
    fn meaning_of(&self, file: u32, meant: CMeant) -> Option<CMeaning>
        ensures { result ≡ spec.meaning_of (spec.numbering_of self.now) file meant }
    {
        match meant {
            CMeant::Object(token) => self.objects.get(file, token).map(CMeaning::Object),
            CMeant::Function(token) => self.functions.get(file, token).map(CMeaning::Function),
            CMeant::Constant { kind, value } => Some(CMeaning::Constant { kind, value }),
            CMeant::Library => Some(CMeaning::Library),
        }
    }

    /// What the name at this token of the file means; None where the file or the token tells
    /// nothing.
    pub fn meaning(&self, file: u32, token: u32) -> Option<CMeaning>
        ensures { result ≡ spec.meanings_of self.now file token }
    {
        let meant = self.told.names.get(file, token)?;
        self.meaning_of(file, meant)
    }

    /// The type that this expression of the file has by itself, an array's the pointer to its first
    /// cell (6.3.2.1); None where the file or the expression has none.
    pub fn type_of(&self, file: u32, e: &CExpr) -> Option<CType>
        ensures { result ≡ spec.lookup_types self.now file (out-CExpr e.now).token }
    {
        self.told.types.get(file, e.token)
    }
}
