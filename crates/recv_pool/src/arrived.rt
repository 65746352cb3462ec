// What goes through the pool.
use gvn_model::{Reign, Transaction};
use rtrb::Protocol;

/// An entry as it came over a connection.
#[derive(Debug, Drop)]
pub struct Arrived {
    /// Where its frame begins, counted from the connection's first byte.
    pub at: u64,
    /// Its number.
    pub number: u64,
    /// What it does.
    pub transaction: Transaction,
    /// The reign of a HISTORY right before it.
    pub reign: Option<Reign>,
}

/// What is put into a pool is of its form.
pub struct OfForm;

impl Protocol<Arrived> for OfForm {
    ghost use Rattle.ship_defs.specs.Arrivals.{IsArrival};
    ghost use Rattle.recv_pool.specs.Pools.{arrival_value};

    ghost allows = { λ _ x. IsArrival (arrival_value x) };
}
