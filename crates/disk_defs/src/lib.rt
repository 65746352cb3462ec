//! What contracts see of a disk: files, what a crash may leave of them at each moment, and the text of gated files.
//!
//! The crate has definitions (`specs/`) and lemmas over them (`proofs/`), and no code.
#![tactic(auto)]
