//! How an expression is written, as far as rules look at it.
ghost use Rattle.std.specs.Prelude.{◌≡◌};
ghost use Rattle.sv_judge.specs.Forms as spec;

use dpi_literal::sv_form;
use dpi_shape::Leaf;
use sv_typing::{Joint, Operand, Selected};

/// The form of an expression.
#[derive(Clone, Copy, Debug, PartialEq, Eq, Drop)]
pub enum Form {
    /// A name with selects, which can be assigned to, and what they select. None where that is not
    /// known.
    Place(Option<Selected>),
    /// A number token without a size.
    Bare,
    /// Any other.
    Other,
}

/// An expression.
#[derive(Clone, Copy, Debug, PartialEq, Eq, Drop)]
pub struct Whole {
    /// What it is; None where it holds a violation or has no type.
    pub value: Option<Operand>,
    /// How it is written.
    pub form: Form,
}

/// An expression that is no name and no number.
pub fn other(value: Option<Operand>) -> Whole
    ensures { result ≡ spec.other value }
{
    Whole {
        value,
        form: Form::Other,
    }
}

/// The form of a number, by its bytes.
pub fn number_form(bytes: &[u8]) -> Form
    ensures { result ≡ spec.number_form bytes.now }
{
    if sv_form(bytes).sized {
        Form::Other
    } else {
        Form::Bare
    }
}

/// A part of a concatenation.
pub fn joint(whole: Whole) -> Joint
    ensures { result ≡ spec.joint whole }
{
    Joint {
        operand: whole.value,
        bare: matches!(whole.form, Form::Bare),
    }
}

/// The leaf of what is selected, where it is a packed variable or one element of an array.
fn element_leaf(selected: Selected) -> Option<Leaf>
    ensures { result ≡ spec.element_leaf selected }
{
    match selected {
        Selected::Cells { shape, taken } => {
            if taken < shape.dims() {
                None
            } else {
                Some(shape.leaf())
            }
        }
        Selected::Text | Selected::Chandle | Selected::Bits { .. } => None,
    }
}

/// The leaf of a packed variable or of one element of an array that is written as a name with selects
/// of elements alone. None of anything else.
pub fn plain_leaf(form: Form) -> Option<Leaf>
    ensures { result ≡ spec.plain_leaf form }
{
    match form {
        Form::Place(selected) => element_leaf(selected?),
        Form::Bare | Form::Other => None,
    }
}

/// The form of a chain, by that of its first operand and whether there are others.
pub fn chain_form(first: Form, alone: bool) -> Form
    ensures { result ≡ spec.chain_form first alone }
{
    if alone { first } else { Form::Other }
}
