//! Tables.

ghost use Rattle.std.specs.Prelude.{◌≡◌, ◌<◌, length, IfOk, OnOk, OnErr};
ghost use Rattle.dpi_table.specs.Tables as spec;
ghost use Rattle.dpi_table.specs.Firsts.{first_value};

use dpi_ports::NoMemory;
use std::alloc::Global;

/// Values by token. Contracts see it as a function from tokens to values, `at`.
#[derive(Drop)]
pub struct Table<T> {
    cells: Vec<Option<T>>,
}

/// Adds empty cells until there is one for this token.
fn grow<T: Drop>(cells: &mut Vec<Option<T>>, token: usize) -> Result<(), NoMemory>
    ensures grown { OnOk result (token < length cells.new.items) }
    ensures same { spec.held cells.new.items ≡ spec.held cells.old.items }
{
    while cells.len() <= token {
        cells.push(None)?;
    }
    Ok(())
}

/// Fills the cell of this token, unless it is full.
fn fill<T: Copy + Drop>(cells: &mut [Option<T>], token: usize, value: T)
    requires { token < length cells.old }
    ensures { spec.held cells.new ≡ spec.with_value (spec.held cells.old) token value }
{
    if cells[token].is_none() {
        cells[token] = Some(value);
    }
}

impl<T: Copy + Drop> Table<T> {
    /// A table without values.
    pub fn new(alloc: Global) -> Table<T>
        ensures { spec.at result ≡ spec.no_values }
    {
        Table {
            cells: Vec::new(alloc),
        }
    }

    /// The value of the token; None where it has none.
    pub fn get(&self, token: u32) -> Option<T>
        ensures { result ≡ spec.at self.now token }
    {
        match self.cells.get(token as usize) {
            Some(cell) => *cell,
            None => None,
        }
    }

    /// Gives the token this value, unless it has one already: its first value counts. NoMemory
    /// where no memory was found; then no value has changed.
    pub fn put(&mut self, token: u32, value: T) -> Result<(), NoMemory>
        ensures ok { OnOk result (spec.at self.new ≡ spec.with_value (spec.at self.old) token value) }
        ensures err { OnErr result (spec.at self.new ≡ spec.at self.old) }
    {
        let token = token as usize;
        grow(&mut self.cells, token)?;
        fill(&mut self.cells, token, value);
        Ok(())
    }

    /// The table of these tokens with their values: of each token the first one. NoMemory where no
    /// memory was found.
    pub fn of(alloc: Global, pairs: &[(u32, T)]) -> Result<Table<T>, NoMemory>
        ensures { IfOk result (λ table. spec.at table ≡ first_value pairs.now) }
    {
        let mut table = Table::new(alloc);
        for (token, value) in pairs {
            table.put(*token, *value)?;
        }
        Ok(table)
    }
}
