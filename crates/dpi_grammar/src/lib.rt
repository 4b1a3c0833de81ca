//! Exact parsers of token lists: how one stops, and the theory that both languages' parsers use.
//!
//! A tree tells its words, the number that it notes of the next word, and the conditions that it
//! keeps (`specs/Told.antt`): numbers of tokens count from 0. `specs/Faults.antt` says with that
//! which tokens are a tree's, which token is refused, and which one opens a level too many; the
//! end of a list counts as a token. Neither file knows of a parser, and no word of a language
//! stands here.
//!
//! A parser of a language is written down twice: as code, and as a function on token lists
//! (`specs/Parser.antt`), which the code gives unless memory runs out (`Reads`). That function is
//! proved exact by rules, one for each way to build a parser (`proofs/Rules.antt`,
//! `proofs/Many.antt`): `numbered`, `token_then`, `last`, `seq`, `mapped`, `perhaps`, `many`,
//! `separate`, `lists`, `tokened`, and for alternatives `formed`, `one_deeper`, `none_begins`. A
//! rule carries a shortest tree, so that what was read before a fault can be closed, and says what
//! its trees may stand behind. `proofs/Whole.antt` gives the answers for whole lists from a rule:
//! `to_end`, `when_read`, `when_refused`, `when_too_deep`, `unambiguous`.
//! Nothing here takes memory.
#![tactic(auto)]

mod stop;

pub use stop::Stop;

#[cfg(test)]
mod tests;
