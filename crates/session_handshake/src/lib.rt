//! A secondary's HELLO and its primary's answer, over any links.
//!
//! [`greet`] makes a connection and exchanges them over it, so that a section's entries can follow. [`handshake`] asks only: it makes
//! connections until one isn't cut, four at most, and gives them back.
#![tactic(auto)]

mod answer;
mod asking;
mod connection;
mod exchange;
mod greeter;
mod hearing;
mod hello;
mod laws;
mod outgoing;
mod session;

pub use connection::{GreetError, Greeted, greet};
pub use laws::{answers_by_histories, sessions_apart};
pub use session::{SessionError, handshake};
