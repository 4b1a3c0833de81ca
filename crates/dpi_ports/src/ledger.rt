//! The count of touched cells.

ghost use Rattle.std.specs.Prelude.{◌≡◌, ◌+◌, ℕ};
ghost use Rattle.std.specs.Borrow.{ftrue};

use std::marker::Model;

/// Counts touched cells of banks.
///
/// Nothing here makes a ledger or copies one, so code that is generic in its type can only raise
/// the count that it was handed.
pub trait Ledger {
    /// How many ticks it took.
    ghost count: { Self → ℕ };

    /// Raises the count by one.
    fn tick(&mut self)
        ensures { count self.new ≡ count self.old + 1 };
}

/// The ledger of the program. Its count is seen by contracts alone: at run time it has no bytes,
/// and a tick does nothing.
#[derive(Drop)]
pub struct PlainLedger {
    pub ghost ticks: { ℕ },
}

impl Model for PlainLedger {
    ghost also_owns = { λ _. ftrue };
}

impl PlainLedger {
    /// A ledger without ticks.
    pub fn new() -> PlainLedger
        ensures { result.ticks ≡ 0 }
    {
        PlainLedger {}
    }

    fn one_more(_before: &PlainLedger) -> PlainLedger
        ensures { result.ticks ≡ _before.now.ticks + 1 }
    {
        PlainLedger {}
    }
}

impl Ledger for PlainLedger {
    ghost count = { λ l. l.ticks };

    fn tick(&mut self) {
        *self = PlainLedger::one_more(self);
    }
}

/// The ledger under which a run touches cells. Contracts see it as that ledger.
#[derive(Drop)]
pub struct Steps<L> {
    ledger: L,
}

impl<L> Model for Steps<L> {
    ghost Value = { L };

    ghost view = { λ s. s.ledger };
}

impl<L> Steps<L> {
    /// Holds the ledger.
    pub fn new(ledger: L) -> Steps<L>
        ensures { result ≡ ledger }
    {
        Steps { ledger }
    }

    /// The ledger that it holds.
    pub fn ledger(&self) -> &L
        ensures { result.now ≡ self.now }
    {
        &self.ledger
    }
}

impl<L: Ledger> Steps<L> {
    /// Raises the count of the ledger by one.
    pub fn tick(&mut self)
        ensures { L.count self.new ≡ L.count self.old + 1 }
    {
        self.ledger.tick();
    }
}
