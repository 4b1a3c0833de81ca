//! Tables of several files.

ghost use Rattle.std.specs.Prelude.{◌≡◌, ◌<◌, length, OnOk, OnErr};
ghost use Rattle.dpi_table.specs.Files as spec;

use crate::table::Table;
use dpi_ports::NoMemory;
use std::alloc::Global;

/// Values by file and token. Contracts see it as a function from files and tokens to values,
/// `in_file`.
#[derive(Drop)]
pub struct Tables<T> {
    files: Vec<Table<T>>,
}

/// Adds tables without values until there is one for this file.
fn grow<T: Copy + Drop>(
    alloc: Global,
    files: &mut Vec<Table<T>>,
    file: usize,
) -> Result<(), NoMemory>
    ensures grown { OnOk result (file < length files.new.items) }
    ensures same { spec.held_in files.new.items ≡ spec.held_in files.old.items }
{
    while files.len() <= file {
        files.push(Table::new(alloc))?;
    }
    Ok(())
}

/// Gives a token of this file a value, unless it has one.
fn put_in<T: Copy + Drop>(
    files: &mut [Table<T>],
    file: usize,
    token: u32,
    value: T,
) -> Result<(), NoMemory>
    requires { file < length files.old }
    ensures ok { OnOk result (spec.held_in files.new ≡ spec.with_file_value (spec.held_in files.old) file token value) }
    ensures err { OnErr result (spec.held_in files.new ≡ spec.held_in files.old) }
{
    files[file].put(token, value)
}

impl<T: Copy + Drop> Tables<T> {
    /// Tables without values.
    pub fn new(alloc: Global) -> Tables<T>
        ensures { spec.in_file result ≡ spec.no_file_values }
    {
        Tables {
            files: Vec::new(alloc),
        }
    }

    /// The value of the token in the file; None where it has none.
    pub fn get(&self, file: u32, token: u32) -> Option<T>
        ensures { result ≡ spec.in_file self.now file token }
    {
        match self.files.get(file as usize) {
            Some(table) => table.get(token),
            None => None,
        }
    }

    /// Gives the token of the file this value, unless it has one already: its first value counts.
    /// NoMemory where no memory was found; then no value has changed.
    pub fn put(&mut self, alloc: Global, file: u32, token: u32, value: T) -> Result<(), NoMemory>
        ensures ok { OnOk result (spec.in_file self.new ≡ spec.with_file_value (spec.in_file self.old) file token value) }
        ensures err { OnErr result (spec.in_file self.new ≡ spec.in_file self.old) }
    {
        let file = file as usize;
        grow(alloc, &mut self.files, file)?;
        put_in(&mut self.files, file, token, value)
    }
}
