//! Laws on formats, each the contract of a function that does nothing.

ghost use Rattle.dpi_format.specs.CFormat.{CIsUnambiguous};
ghost use Rattle.dpi_format.specs.SvFormat.{SvIsUnambiguous};

/// The law that a format of either language has at most one list of pieces.
pub fn formats_are_unambiguous()
    ensures sv { SvIsUnambiguous }
    ensures c { CIsUnambiguous }
{}
