//! The laws that the money of every ledger keeps.
ghost use Rattle.ledger.specs.Money.{MoneyLaws};

/// Promises the laws of the money, and does nothing.
pub(crate) fn money_laws()
    ensures { MoneyLaws }
{}
