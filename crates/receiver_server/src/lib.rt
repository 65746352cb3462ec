//! The Receiver Server: it receives a primary's frames over one connection, and puts the entries into the receive pool, step by step.
//!
//! A step hears the next frame that has come, or receives bytes. All that was received is the frames that were heard, those that wait,
//! and bytes behind them; a step that fails drops nothing. A thread may loop over steps, or another loop call them in turn.
#![tactic(auto)]

mod begun;
mod hearer;
mod inbox;
mod laws;
mod receiver;
mod step;

pub use hearer::Purpose;
pub use laws::hearing_is_told;
pub use receiver::Receiver;
pub use step::{Handshake, HearError, Step};
