//! Laws on the definitions that the calls of `Packed` are stated by, each the contract of a
//! function that does nothing.

ghost use Rattle.dpi_bits.specs.Laws.{PartOfLowHalf, PartOfHighHalf, ResizedAndBack, EqualByWords};

/// A part of a concatenation is the part of the half that holds it.
pub fn part_of_concatenation()
    ensures low { PartOfLowHalf }
    ensures high { PartOfHighHalf }
{}

/// A value that is resized to a smaller width and back keeps its low bits.
pub fn resized_and_back()
    ensures { ResizedAndBack }
{}

/// Two values of one width are equal exactly where all their words are.
pub fn equal_by_words()
    ensures { EqualByWords }
{}
