//! Blanks and line ends.

ghost use Rattle.std.specs.Prelude.{◌≡◌, ◌||◌, ◌<◌, IsTrue, length, slice_index};
ghost use Rattle.dpi_lex.specs.declared.form.Form.TheVariants.{Skipped};
ghost use Rattle.dpi_lex.specs.Bytes.{is_blank};
ghost use Rattle.dpi_lex.specs.Place.{is_line_feed};
ghost use Rattle.dpi_lex.specs.Shapes.{form_if, is_space};
ghost use Rattle.dpi_lex.specs.Stretches.{longest_front, IsPlaced};

use crate::form::{Form, Stretch};

/// The blank or the line end at the front of the bytes.
pub(crate) fn space(rest: &[u8]) -> Stretch
    requires some { 0 < length rest.now }
    requires starts { IsTrue (is_blank (slice_index rest.now 0)
        || is_line_feed (slice_index rest.now 0)) }
    ensures stretch { result ≡ longest_front (λ front. form_if (is_space front) Skipped) rest.now }
    ensures placed { IsPlaced result.form }
{
    Stretch {
        form: Form::Skipped,
        len: 1,
    }
}
