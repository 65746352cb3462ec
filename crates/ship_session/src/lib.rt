//! A session of a section, run to its end by turns in one thread: a primary ships its entries to a secondary over connections, until
//! the secondary has them all, or can't go on.
#![tactic(auto)]

mod connection;
mod end;
mod session;
mod shipping;

pub use end::SessionEnd;
pub use session::finish;
