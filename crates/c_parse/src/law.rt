//! The laws of the grammar.

ghost use Rattle.dpi_grammar.specs.Faults.{IsUnambiguous};
ghost use Rattle.c_tree.specs.File.{file_told};
ghost use Rattle.c_parse.specs.Answer.{AnswerIsOne};

/// The law that a list of tokens has at most one tree, whatever its levels (ISO C 6.5 to 6.9).
#[tactic(auto, using(crate::proofs::FileRules::one_file))]
pub fn tree_is_one()
    ensures one { IsUnambiguous file_told }
{}

/// The law that of the answers to a list of tokens one alone is right, unless memory ran out: a
/// tree, the token that is refused, or the one that opens a level too many (ISO C 6.5 to 6.9).
#[tactic(auto, using(crate::proofs::Answers::one_answer))]
pub fn answer_is_one()
    ensures one { AnswerIsOne }
{}
