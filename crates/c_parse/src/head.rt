//! What functions and variables begin with.

use c_tree::{CType, Name, Star, Store};
use sqlite_items::Items;

/// What functions and variables at the outside of a file begin with (ISO C 6.9).
#[derive(Drop)]
pub struct Head {
    /// `static` or `extern`.
    pub store: Option<Store>,
    /// The type, without the stars.
    pub kind: CType,
    /// The stars.
    pub stars: Items<Star>,
    /// The name.
    pub name: Name,
}
