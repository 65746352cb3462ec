//! What goes over a wire or through the journal pool, byte by byte and word by word: definitions, and worked examples of them.
#![tactic(auto)]

pub mod frames;
pub mod links;
pub mod pool_words;
