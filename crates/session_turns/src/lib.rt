//! Turns of the machines of one connection: a Source Server, a Receiver Server and an Update Process, and the receive pool between the last
//! two, stepped one after another in one thread.
//!
//! What a secondary has after each turn is told by laws: it begins with what it had, and is a prefix of what was received, that of what was
//! sent, and that of what the primary has hardened.
#![tactic(auto)]

mod laws;
mod machines;
mod running;

pub use laws::{a_bye_tells_all, sessions_are_in_order};
pub use machines::{Machines, TurnError, Turned};
