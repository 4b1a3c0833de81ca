//! The pieces of a format of `printf` (ISO C 7.21.6.1).

/// The letter by which a number is printed.
#[derive(Clone, Copy, Debug, PartialEq, Eq)]
pub enum CLetter {
    /// `d`: signed, in decimal.
    D,
    /// `u`: unsigned, in decimal.
    U,
    /// `x`: unsigned, in hexadecimal.
    X,
}

/// How a number is printed: `%d`, `%u` or `%x` with what may stand between.
#[derive(Clone, Copy, Debug, PartialEq, Eq)]
pub struct CNumber {
    /// The flag `0`: the field is filled up with zeros, else with spaces. Without a width there
    /// is nothing to fill.
    pub zero: bool,
    /// The least count of bytes that is printed, from 1 to 99, where one is given.
    pub width: Option<u8>,
    /// `ll`: the argument is a `long long` or `unsigned long long`, else an `int` or
    /// `unsigned int`.
    pub long: bool,
    /// The letter.
    pub letter: CLetter,
}

/// A piece of a format.
#[derive(Clone, Copy, Debug, PartialEq, Eq)]
pub enum CPiece {
    /// A byte other than `%` and 0, which prints itself.
    Byte(u8),
    /// `%%`, which prints one percent sign.
    Percent,
    /// `%s`: an argument that is printed as a text.
    Text,
    /// `%c`: an argument that is printed as one byte.
    Character,
    /// An argument that is printed as a number.
    Number(CNumber),
}
