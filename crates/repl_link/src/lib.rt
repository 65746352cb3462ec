//! Links between a primary and its secondaries, and links in memory over rings.
//!
//! A connection has two directions. `Linker` makes connections, `LinkTx` is an end that sends and `LinkRx` one that receives.
//! What contracts see of them stands in `wire_defs`.
#![tactic(auto)]

mod items;
mod limits;
mod linker;
mod log;
mod mem_rx;
mod mem_tx;
mod traits;

pub use items::{Item, Line};
pub use linker::MemLinker;
pub use mem_rx::MemRx;
pub use mem_tx::MemTx;
pub use traits::{ConnectError, Cut, Ends, LinkRx, LinkTx, Linker, NoMemory, Received};
