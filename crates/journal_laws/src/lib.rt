//! Laws of what the files of a site stand for.
//!
//! Each function does nothing: its contract states laws over the definitions of `journal_defs` alone, for all files, records and
//! sequences. A crate that needs one of them calls its function.
#![tactic(auto)]

pub mod bodies;
pub mod clean;
pub mod directories;
pub mod epochs;
pub mod files;
pub mod fit;
pub mod fronts;
pub mod generations;
pub mod numbers;
pub mod recoveries;
pub mod sequences;
pub mod soundness;
pub mod splits;
pub mod steps;
pub mod undo;
