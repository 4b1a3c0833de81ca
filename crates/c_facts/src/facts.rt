//! What is told.

use c_base::CType;

/// What a name means. Declared names stand in the same file.
#[derive(Clone, Copy, Debug, PartialEq, Eq)]
pub enum CMeant {
    /// An object, by the token of its declared name.
    Object(u32),
    /// A function, by the token of the name that declares it first.
    Function(u32),
    /// A number: a define, one of `sv_0` to `sv_x`, or `SV_PACKED_DATA_NELEMS` with the words of
    /// its width. The kind is the type that the number has.
    Constant { kind: CType, value: i128 },
    /// `printf` or a call of `svdpi.h`.
    Library,
}

/// What is told of a token.
#[derive(Clone, Copy, Debug, PartialEq, Eq)]
pub enum CFact {
    /// The name at this token means this.
    Name(u32, CMeant),
    /// The expression that begins at this token has this type by itself; an array's is the pointer
    /// to its first cell.
    Type(u32, CType),
}
