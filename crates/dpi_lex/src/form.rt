//! What a stretch of a text is.

ghost use Rattle.std.specs.Prelude.{◌≡◌};
ghost use Rattle.dpi_lex.specs.Stretches.{bad_byte};

use crate::fault::LexFault;
use crate::token::Kind;

/// What a whole stretch of bytes is in a language.
#[derive(Clone, Copy, Debug, PartialEq, Eq)]
pub enum Form {
    /// It is skipped: a blank, a line end, a comment.
    Skipped,
    /// It is a token of that kind.
    Whole(Kind),
    /// It breaks a rule. The fault's place counts from the stretch's first byte.
    Faulty(LexFault),
}

/// A stretch that begins at some place of a text.
#[derive(Clone, Copy, Debug, PartialEq, Eq)]
pub struct Stretch {
    /// What it is.
    pub form: Form,
    /// Its bytes.
    pub len: usize,
}

impl Stretch {
    /// One byte at which nothing begins.
    pub(crate) fn bad_byte() -> Self
        ensures { result ≡ bad_byte }
    {
        Stretch {
            form: Form::Faulty(LexFault::BadByte { place: 0 }),
            len: 1,
        }
    }
}
