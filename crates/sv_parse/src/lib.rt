//! Files of SystemVerilog, read from tokens: modules and their items (IEEE 1800-2017, 13, 23, 35,
//! A.1).
//!
//! `parse` answers the one tree of a file, or the first token that doesn't fit. Tokens count from
//! 0, and the end of a file counts as one. What an answer says is in `specs/Answer.antt`, which
//! knows of no parser. Each function below it answers as its namesake in `specs/Headers.antt` or
//! `specs/Reading.antt` does, unless memory runs out; `depth` is the number of levels that are
//! left, of which a file has 24. `proofs/` shows that those answers are exact for the trees of
//! `sv_tree`. Modules, functions, tasks, formals and lists of items open no level.
#![tactic(auto)]

mod exports;
mod formals;
mod functions;
mod headers;
mod import_formals;
mod imports;
mod items;
mod laws;
mod modules;
mod parser;

pub use laws::{answer_is_one, files_are_unambiguous};
pub use parser::{ParseFault, parse};
