//! The program `dpirun`: files of SystemVerilog and C, checked against the grammars and the rules
//! of their languages and against the rules of linking, and one import of the Direct Programming
//! Interface, from files to bytes.
//!
//! Words, lines and statuses are those of `specs/Answer.antt`, which knows nothing of the code;
//! which text is refused by itself, and where, stands in `specs/Faults.antt`; which files are
//! accepted by themselves, in `specs/Sources.antt`; which rule counts, in `specs/Rules.antt`; how a
//! call may end, and what shows the cause, in `specs/Program.antt`. A place is a line and a column
//! from 1, columns in bytes.
#![tactic(auto)]

#[cfg(test)]
mod case_tests;
mod command;
mod delivery;
mod form;
mod host;
mod literal;
mod names;
mod outcome;
mod pair;
mod program;
mod reading;
mod refusal;
#[cfg(test)]
mod rule_tests;
mod rules;
mod sources;
#[cfg(test)]
mod tests;

use delivery::cut_short;
use dpi_ports::{NoMemory, PlainLedger, SinkFault, Steps};
use host::{HostFiles, HostSink};
use program::dpirun;
use std::env;
use std::io::ErrorKind;
use std::process::ExitCode;

// the words after the program's own name; words that aren't text are no line of the command, as no
// words are
fn words(rt: &HostRuntime) -> Result<Vec<String>, NoMemory> {
    match env::args(rt) {
        Ok(words) => Ok(words.skip(1).collect(rt.alloc())?),
        Err(error) if error.kind() == ErrorKind::OutOfMemory => Err(NoMemory),
        Err(_) => Ok(Vec::new(rt.alloc())),
    }
}

fn main(rt: HostRuntime) -> ExitCode {
    let mut out = HostSink::new(rt.stdout());
    let mut err = HostSink::new(rt.stderr());
    let Ok(words) = words(&rt) else {
        return ExitCode::from(cut_short(SinkFault::NoMemory, &mut err));
    };
    let mut files = HostFiles::new(&rt);
    let mut steps = Steps::new(PlainLedger::new());
    let answer = dpirun(
        rt.alloc(),
        &words,
        &mut files,
        &mut out,
        &mut err,
        &mut steps,
    );
    ExitCode::from(answer.status)
}
