//! Laws on what files tell, each the contract of a function that does nothing.

ghost use Rattle.sv_parse.specs.Answer.{AnswerIsOne, FilesAreUnambiguous};

/// Two files with the same words are the same: the grammar gives each list of tokens at most one
/// tree.
pub fn files_are_unambiguous()
    ensures { FilesAreUnambiguous }
{}

/// Of the answers to a list of tokens one alone is right, unless memory ran out: a file, the token
/// that is refused, or the one that opens a level too many.
#[tactic(auto, using(crate::proofs::FileAnswers::one_answer))]
pub fn answer_is_one()
    ensures { AnswerIsOne }
{}
