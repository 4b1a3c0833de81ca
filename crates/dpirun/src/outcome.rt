//! What a run comes to: a status, and the bytes for both sinks.

ghost use Rattle.std.specs.Prelude.{◌≡◌, [], IfOk};
ghost use Rattle.dpi_text.specs.FaultLine.{fault_line_of};
ghost use Rattle.dpirun.specs.Answer.{bad_words, refused, not_built, unread, ran};
ghost use Rattle.dpirun.specs.Faults.{code_bytes};
ghost use Rattle.dpirun.specs.Shown.{shown};

use crate::refusal::Refusal;
use dpi_ports::NoMemory;
use dpi_text::fault_line;
use std::alloc::Global;

/// A status, and what the program prints before it ends with it.
#[derive(Debug, Drop)]
pub struct Outcome {
    /// The exit status.
    pub status: u8,
    /// The bytes for standard output.
    pub out: Vec<u8>,
    /// The bytes for standard error.
    pub err: Vec<u8>,
}

/// The sum that the C file makes, and the place of its `+`.
#[derive(Clone, Copy, Debug)]
pub struct Sum {
    /// The sum, or None where int can't hold it.
    pub value: Option<i32>,
    /// The line of the `+`, from 1.
    pub line: u32,
    /// The column of the `+`, from 1, in bytes.
    pub column: u32,
}

impl Outcome {
    fn failed(alloc: Global, status: u8, err: Vec<u8>) -> Outcome
        ensures { shown result ≡ record { status = status; out = []; err = err.items } }
    {
        Outcome {
            status,
            out: Vec::new(alloc),
            err,
        }
    }

    /// Status 2, for words that aren't a line of the command.
    pub fn bad_words(alloc: Global) -> Result<Outcome, NoMemory>
        ensures { IfOk result (λ o. shown o ≡ bad_words) }
    {
        Ok(Outcome::failed(alloc, 2, Vec::from_slice(alloc, b"dpirun: bad words\n")?))
    }

    fn faulty(
        alloc: Global,
        status: u8,
        file: &str,
        place: (u32, u32),
        code: &[u8],
    ) -> Result<Outcome, NoMemory>
        ensures { IfOk result (λ o. shown o
            ≡ record { status = status; out = []; err = fault_line_of file.now place.0 place.1 code.now }) }
    {
        let mut err = Vec::new(alloc);
        fault_line(alloc, file.as_bytes(), place.0, place.1, code, &mut err)?;
        Ok(Outcome::failed(alloc, status, err))
    }

    /// Status 1, for a file that is refused by itself: the fault line stands at the refusal's place.
    pub fn refused(alloc: Global, file: &str, refusal: Refusal) -> Result<Outcome, NoMemory>
        ensures { IfOk result (λ o. shown o
            ≡ refused file.now refusal.line refusal.column (code_bytes refusal.code)) }
    {
        let place = (refusal.line, refusal.column);
        Outcome::faulty(alloc, 1, file, place, refusal.code.bytes())
    }

    /// Status 1, for a file that breaks a rule at a line and a column, both from 1.
    pub fn broken(
        alloc: Global,
        file: &str,
        place: (u32, u32),
        rule: &str,
    ) -> Result<Outcome, NoMemory>
        ensures { IfOk result (λ o. shown o ≡ refused file.now place.0 place.1 rule.now) }
    {
        Outcome::faulty(alloc, 1, file, place, rule.as_bytes())
    }

    /// Status 1, for files that break no rule, and aren't of the form that runs: the fault line
    /// stands at the first byte of the first one.
    pub fn not_built(alloc: Global, file: &str) -> Result<Outcome, NoMemory>
        ensures { IfOk result (λ o. shown o ≡ not_built file.now) }
    {
        Outcome::faulty(alloc, 1, file, (1, 1), b"NotBuilt")
    }

    /// Status 7, for a file that could not be read.
    pub fn unread(alloc: Global, file: &str) -> Result<Outcome, NoMemory>
        ensures { IfOk result (λ o. shown o ≡ unread file.now) }
    {
        let mut err = Vec::from_slice(alloc, b"dpirun: cannot read ")?;
        err.extend_from_slice(file.as_bytes())?;
        err.extend_from_slice(b"\n")?;
        Ok(Outcome::failed(alloc, 7, err))
    }

    /// Status 0 with the sum in decimal and a line feed, or status 3 with the trap at the `+` of
    /// the C file (ISO C 6.5).
    pub fn of_sum(alloc: Global, file: &str, sum: &Sum) -> Result<Outcome, NoMemory>
        ensures { IfOk result (λ o. shown o ≡ ran file.now sum.now) }
    {
        match sum.value {
            Some(value) => {
                let text = format!(in alloc; "{value}\n")?;
                let out = Vec::from_slice(alloc, text.as_bytes())?;
                Ok(Outcome {
                    status: 0,
                    out,
                    err: Vec::new(alloc),
                })
            }
            None => {
                let place = (sum.line, sum.column);
                Outcome::faulty(alloc, 3, file, place, b"trap SignedOverflow")
            }
        }
    }
}
