//! Definitions: keys, entries, globals, jobs and extracts. There is no code here but laws, each the contract of a function
//! that does nothing.
#![tactic(auto)]

mod encodings;
pub mod limits;
mod vectors;

pub use encodings::{encoded_keys_collate, sub_bytes_make_subs};
pub use vectors::{collation_vectors_hold, key_vectors_hold, order_holds, text_vectors_hold};
