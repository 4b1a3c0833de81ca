//! What stands before an operand, or is one.

use c_tree::{Prefix, Primary};

/// What a token begins that is a prefix or opens a parenthesis.
#[derive(Drop)]
pub enum Lead {
    /// A prefix: an operator or a cast (ISO C 6.5.3, 6.5.4).
    Prefix(Prefix),
    /// An expression in parentheses (6.5.1), behind which stands no prefix more.
    Whole(Primary),
}
