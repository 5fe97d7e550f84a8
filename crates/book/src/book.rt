ghost use Rattle.ledger.specs.declared.ledger.Ledger.{Ledger};

use ledger::Ledger;
use std::marker::Model;

/// A day book, which in contracts is its ledger.
#[derive(Drop)]
pub struct Book {
    pub(crate) ledger: Ledger,
}

impl Model for Book {
    ghost Value = { Ledger };

    ghost view = { λ b. b.ledger };
}
