//! A disk that is read a piece at a time.
#![tactic(auto)]

mod ahead;
mod piece;
mod pieces;

pub use ahead::ReadAhead;
