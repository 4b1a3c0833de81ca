//! The pieces of a format of `$display` and `$write` (IEEE 1800-2017, 21.2.1.1 and 21.2.1.2).

ghost use Rattle.std.specs.Prelude.{◌≡◌};
ghost use Rattle.dpi_format.specs.SvFormat.{base_of};

/// The letter by which a number is printed.
#[derive(Clone, Copy, Debug, PartialEq, Eq)]
pub enum SvLetter {
    /// `b`: binary.
    B,
    /// `d`: decimal.
    D,
    /// `h`: hexadecimal.
    H,
    /// `x`: hexadecimal, as `h`.
    X,
}

impl SvLetter {
    /// The base in which the number is printed: 2, 10 or 16, the last for `h` and `x`.
    pub fn base(self) -> u8
        ensures { result ≡ base_of self }
    {
        match self {
            SvLetter::B => 2,
            SvLetter::D => 10,
            SvLetter::H | SvLetter::X => 16,
        }
    }
}

/// How a number is printed: `%b` and its kin, with a `0` behind the percent sign or none.
#[derive(Clone, Copy, Debug, PartialEq, Eq)]
pub struct SvNumber {
    /// A `0` stands behind the percent sign: the number is printed in no more digits than it
    /// needs, else in those that its width may need.
    pub zero: bool,
    /// The letter.
    pub letter: SvLetter,
}

/// A piece of a format.
#[derive(Clone, Copy, Debug, PartialEq, Eq)]
pub enum SvPiece {
    /// A byte other than `%`, which prints itself.
    Byte(u8),
    /// `%%`, which prints one percent sign.
    Percent,
    /// `%s`: an argument that is printed as a text.
    Text,
    /// An argument that is printed as a number.
    Number(SvNumber),
}
