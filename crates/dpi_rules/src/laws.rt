//! What the definitions mean: calls that do nothing, whose contracts are laws.
ghost use Rattle.dpi_rules.specs.Order.{IsTotalOrder};
ghost use Rattle.dpi_rules.specs.Least.{LeastIsLeast, JoinedIsLeast};

/// Of two different violations exactly one stands before the other.
pub fn order_is_total()
    ensures { IsTotalOrder }
{}

/// What is kept of a list, noted one by one, is nothing where the list is empty, else the one of its
/// violations before which none of them stands; there is only one such.
pub fn least_is_least()
    ensures { LeastIsLeast }
{}

/// What is kept of two lists, one behind the other, is what is kept of both joined.
pub fn joined_is_least()
    ensures { JoinedIsLeast }
{}
