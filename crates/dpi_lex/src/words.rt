//! Words.

ghost use Rattle.std.specs.Prelude.{◌≡◌, ◌<◌, IsTrue, length, slice_index};
ghost use Rattle.dpi_lex.specs.declared.form.Form.TheVariants.{Whole};
ghost use Rattle.dpi_lex.specs.declared.token.Kind.TheVariants.{Word};
ghost use Rattle.dpi_lex.specs.Bytes.{is_name_start, is_name_byte};
ghost use Rattle.dpi_lex.specs.Shapes.{form_if, is_name};
ghost use Rattle.dpi_lex.specs.Stretches.{longest_front, IsPlaced};

use crate::bytes::name_len;
use crate::form::{Form, Stretch};
use crate::language::Language;
use crate::token::Kind;

/// The name at the front of the bytes.
pub(crate) fn name(language: Language, rest: &[u8]) -> Stretch
    requires some { 0 < length rest.now }
    requires starts { IsTrue (is_name_start (slice_index rest.now 0)) }
    ensures stretch { result ≡ longest_front
        (λ front. form_if (is_name (is_name_byte language) front) (Whole Word))
        rest.now }
    ensures placed { IsPlaced result.form }
{
    Stretch {
        form: Form::Whole(Kind::Word),
        len: name_len(language, rest),
    }
}
