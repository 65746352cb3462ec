//! Definitions: what the files of a site stand for, what lies outside their formats and where, and what opening it, a reign, a
//! section and a rollback make of that. There is no command here and no answer, and no code but laws, each the contract of a function that does
//! nothing.
#![tactic(auto)]

mod laws;

pub use laws::{
    epochs_are_taken, limits_hold, modes_hold, openings_hold, regions_begin, rollbacks_hold,
};
