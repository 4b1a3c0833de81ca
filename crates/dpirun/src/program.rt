//! The top call.

ghost use Rattle.std.specs.Prelude.{◌≡◌, ◌⊎◌, ◌≤◌, true, length, map, IfOk};
ghost use Rattle.std.specs.String.{string_bytes};
ghost use Rattle.dpi_ports.specs.Told.{HasRisen};
ghost use Rattle.dpirun.specs.Answer as answer;
ghost use Rattle.dpirun.specs.Answer.{refused_by, run_of_pair, run_of, outcome_of};
ghost use Rattle.dpirun.specs.Command as spec;
ghost use Rattle.dpirun.specs.Ends.{Ends};
ghost use Rattle.dpirun.specs.Program.{Answers, LeavesUnread, IsCut, printed};
ghost use Rattle.dpirun.specs.Refusals.{ComesOf};
ghost use Rattle.dpirun.specs.Shown.{shown, source_shown, sources_shown};

use crate::command::{Pair, is_command};
use crate::delivery::{cut_short, deliver};
use crate::outcome::{Outcome, Sum};
use crate::pair::sum_of;
use crate::reading::{ReadFault, add};
use crate::rules::{Broken, first_broken};
use crate::sources::{Source, Sources};
use dpi_ports::{Files, Ledger, NoMemory, Sink, SinkFault, Steps};
use std::alloc::Global;

/// How a call of the program ended.
#[derive(Clone, Copy, Debug, PartialEq, Eq)]
pub struct Answer {
    /// The exit status, 0 to 9.
    pub status: u8,
}

// what comes of a file that isn't accepted
fn of_fault(alloc: Global, file: &str, fault: ReadFault) -> Result<Outcome, NoMemory>
    ensures { IfOk result (λ o. ComesOf file.now fault (shown o)) }
{
    match fault {
        ReadFault::Refused(refusal) => Outcome::refused(alloc, file, refusal),
        ReadFault::Unread => Outcome::unread(alloc, file),
        ReadFault::NoMemory => Err(NoMemory),
    }
}

// the refusal of the file that breaks a rule
fn of_broken(alloc: Global, sources: &Sources, broken: Broken) -> Result<Outcome, NoMemory>
    ensures { IfOk result (λ o. shown o ≡ refused_by (sources_shown sources.now) broken) }
{
    let code = broken.code(alloc)?;
    let violation = broken.violation;
    let files = sources.of(broken.rules.broken_in());
    match files.get(violation.file as usize) {
        Some(source) => {
            let place = source.line_column(violation.token);
            Outcome::broken(alloc, source.name.as_str(), place, code.as_str())
        }
        None => Outcome::broken(alloc, "", (1, 1), code.as_str()),
    }
}

// the sum of a pair of files, or None where they have another form
fn sum_of_files(alloc: Global, sv: &[Source], c: &[Source]) -> Result<Option<Sum>, NoMemory>
    ensures { IfOk result (λ sum. sum ≡ answer.sum_of_files (map source_shown sv.now) (map source_shown c.now)) }
{
    match (sv, c) {
        ([sv], [c]) => sum_of(alloc, &sv.tokens, &c.tokens),
        _ => Ok(None),
    }
}

// what comes of a pair of files with these names
fn of_pair(alloc: Global, sv: &str, c: &str, sources: &Sources) -> Result<Outcome, NoMemory>
    ensures { IfOk result (λ o. shown o ≡ run_of_pair (record { sv = sv.now; c = c.now })
        (map source_shown sources.now.sv.items) (map source_shown sources.now.c.items)) }
{
    match sum_of_files(alloc, &sources.sv, &sources.c)? {
        Some(sum) => Outcome::of_sum(alloc, c, &sum),
        None => Outcome::not_built(alloc, sv),
    }
}

// what comes of files that break no rule
fn of_run(alloc: Global, words: &Vec<String>, sources: &Sources) -> Result<Outcome, NoMemory>
    requires { spec.is_command (map string_bytes words.now.items) ≡ true }
    ensures { IfOk result (λ o. shown o ≡ run_of (map string_bytes words.now.items) (sources_shown sources.now)) }
{
    match Pair::of(words) {
        Some(pair) => of_pair(alloc, pair.sv, pair.c, sources),
        None => Outcome::not_built(alloc, words[0].as_str()),
    }
}

// what comes of files that are accepted by themselves
fn of_sources(alloc: Global, words: &Vec<String>, sources: &Sources) -> Result<Outcome, NoMemory>
    requires command { spec.is_command (map string_bytes words.now.items) ≡ true }
    requires sv { length sources.now.sv_trees.items ≤ 1000 }
    requires c { length sources.now.c_trees.items ≤ 1000 }
    ensures { IfOk result (λ o. shown o ≡ outcome_of (map string_bytes words.now.items) (sources_shown sources.now)) }
{
    match first_broken(alloc, sources)? {
        Some(broken) => of_broken(alloc, sources, broken),
        None => of_run(alloc, words, sources),
    }
}

// what comes of files
fn of_files<F: Files>(
    alloc: Global,
    words: &Vec<String>,
    files: &mut F,
) -> Result<Outcome, NoMemory>
    requires { spec.is_command (map string_bytes words.now.items) ≡ true }
    ensures ends { IfOk result (λ o. Ends (F.told files.old) (map string_bytes words.now.items)
        (F.faults files.old) (F.faults files.new) (F.last_fault files.new) (shown o)) }
    ensures kept { F.told files.new ≡ F.told files.old }
{
    let mut sources = Sources::new(alloc);
    for word in words {
        let name = word.as_str();
        match add(alloc, files, name, &mut sources) {
            Ok(()) => {}
            Err(fault) => return of_fault(alloc, name, fault),
        }
    }
    of_sources(alloc, words, &sources)
}

// what comes of the words
fn of_words<F: Files>(
    alloc: Global,
    words: &Vec<String>,
    files: &mut F,
) -> Result<Outcome, NoMemory>
    ensures ends { IfOk result (λ o. Ends (F.told files.old) (map string_bytes words.now.items)
        (F.faults files.old) (F.faults files.new) (F.last_fault files.new) (shown o)) }
    ensures kept { F.told files.new ≡ F.told files.old }
{
    if is_command(words) {
        of_files(alloc, words, files)
    } else {
        Outcome::bad_words(alloc)
    }
}

/// Checks the files that the words name, which are those after the program's own name, runs them
/// where they are a pair of the form that runs, and prints to `out` and `err`.
///
/// Each file is looked at by itself, in the order of the words; then all SystemVerilog files are
/// checked against the rules of their language, then all C files, and then both against the rules
/// of linking (IEEE 1800-2017, 35.4 to 35.9). The status and the bytes of both sinks are those of
/// the answer to the words and the files: 0 after a run, 1 where a file is refused by itself or
/// breaks a rule or the files aren't of that form, 2 for words that are no command, 3 for a trap.
/// Status 7 comes only where the fetch of a file failed in this call, 8 only where a write failed
/// in it, and 9 where no memory was found. For 8 and 9 the sinks took some first bytes of what they
/// were due.
pub fn dpirun<F: Files, K: Sink, E: Sink, L: Ledger>(
    alloc: Global,
    words: &Vec<String>,
    files: &mut F,
    out: &mut K,
    err: &mut E,
    steps: &mut Steps<L>,
) -> Answer
    ensures range { result.status ≤ 9 }
    ensures answers { result.status ≤ 6 → Answers (F.told files.old) (map string_bytes words.now.items)
        (printed (K.told out.old) (K.told out.new) (E.told err.old) (E.told err.new)) result.status }
    ensures unread { result.status ≡ 7 → LeavesUnread (F.told files.old) (map string_bytes words.now.items)
        (F.faults files.old) (F.faults files.new) (F.last_fault files.new)
        (printed (K.told out.old) (K.told out.new) (E.told err.old) (E.told err.new)) }
    ensures unwritten { result.status ≡ 8
        → HasRisen (K.faults out.old) (K.faults out.new) ⊎ HasRisen (E.faults err.old) (E.faults err.new) }
    ensures cut { 8 ≤ result.status → IsCut (F.told files.old) (map string_bytes words.now.items)
        (printed (K.told out.old) (K.told out.new) (E.told err.old) (E.told err.new)) result.status }
    ensures files { F.told files.new ≡ F.told files.old }
    ensures ticks { L.count steps.new ≡ L.count steps.old }
{
    let status = match of_words(alloc, words, files) {
        Ok(outcome) => deliver(&outcome, out, err),
        Err(NoMemory) => cut_short(SinkFault::NoMemory, err),
    };
    Answer { status }
}
