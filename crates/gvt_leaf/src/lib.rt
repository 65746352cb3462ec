//! A region's globals in a chain of leaves: an ordered map of encoded keys over the blocks of a database file.
//!
//! # Form
//!
//! Block 0 is the first leaf. Each leaf names the next one, and the last names 0. The keys rise along the chain, and each leaf behind
//! the first has a cell. A block that is no leaf is free, and is taken again before the file grows.
//!
//! # What it keeps
//!
//! - [`Leaves::open`] walks once along the chain. It answers [`ChainError::Broken`] with the first block at which the chain breaks,
//!   exactly where the blocks hold no globals.
//! - A node is found by halves: its leaf among the leaves, and its cell in the leaf.
//! - [`Leaves::reserve`] takes the memory for so many nodes, and [`Leaves::make`] takes none. So [`Leaves::apply_all`] makes a list of
//!   updates whole or, for want of memory, not at all.
//! - The blocks that changes touch are marked in the pool, and [`Leaves::write_out`] writes these alone.
//! - Keys that come in rising order fill their leaves: where the last leaf is full, a key past its keys begins the next one.
//!
//! # Modules
//!
//! `pages` changes single blocks. `chain` keeps the leaves in their order, the free blocks, and empty ones for leaves that are added.
//! `walk` reads a chain. Above it `seats` finds keys, `edits` sets and kills, `touched` tells what a change is
//! about to change, `nodes` lists, and `leaves` is the map.
#![tactic(auto)]

mod chain;
mod edits;
mod error;
mod leaves;
mod nodes;
mod pages;
mod seats;
mod touched;
mod walk;

pub use error::ChainError;
pub use leaves::{Leaves, count_sets, sets_of};
pub use nodes::Node;
