//! Formals of imports.
ghost use Rattle.std.specs.Prelude.{◌≡◌};
ghost use Rattle.sv_check.specs.Formals as spec;

use dpi_shape::Shape;
use sv_design::ImportFormal;
use sv_formals::formal_shape;

/// The shape of a formal, if there is one, for an actual of that shape.
pub(crate) fn shape_for(formal: Option<ImportFormal>, actual: &Shape) -> Option<Shape>
    ensures { result ≡ spec.shape_for actual.now formal }
{
    match formal {
        None => None,
        Some(formal) => formal_shape(formal.kind, actual),
    }
}
