//! The Source Server: it ships a primary's hardened entries over one connection, step by step.
//!
//! [`Source`] begins behind the connection's RESUME. Each step takes the next entry, where all before it was sent, or sends what is
//! left of the frames made. A thread may loop over steps, or another loop call them in turn.
#![tactic(auto)]

mod entries;
mod framing;
mod laws;
mod reigns;
mod source;

pub use entries::EntrySource;
pub use laws::{entries_stay, shipping_goes_on};
pub use source::{ShipError, Shipped, Source};
