//! Types of functions (ISO C 6.7.6.3).

use c_base::CType;
use sqlite_items::Items;

/// The type of a function, as a declaration gives it.
#[derive(Drop)]
pub struct FunctionType {
    /// The type of the result; None where it is refused.
    pub result: Option<CType>,
    /// The types of the parameters in order, arrays as pointers; None for each that is refused.
    pub params: Items<Option<CType>>,
}
