// The entries that a secondary has. Only clauses read them, and they take no memory.
ghost use Rattle.std.specs.Prelude.{◌≡◌};
ghost use Rattle.std.specs.Borrow.{ftrue};
ghost use Rattle.global_defs.specs.Entry.{Sequence};
ghost use Rattle.gvn_model.specs.Entries.{transaction_value};
ghost use Rattle.ship_stands.specs.Stories.{idle, told_on};

use gvn_model::{Reigns, Transaction};
use std::marker::Model;

#[derive(Drop)]
pub(crate) struct Story {
    pub(crate) ghost sequence: { Sequence },
}

impl Model for Story {
    ghost also_owns = { λ _. ftrue };
}

impl Story {
    // So many entries that change nothing.
    pub(crate) fn new(_length: u64) -> Story
        ensures { result.sequence ≡ idle _length }
    {
        Story {}
    }

    // The same entries, and the next one, under these reigns.
    pub(crate) fn with(&self, _reigns: &Reigns, _transaction: &Transaction) -> Story
        ensures { result.sequence ≡ told_on self.now.sequence _reigns.now (transaction_value _transaction.now) }
    {
        Story {}
    }
}
