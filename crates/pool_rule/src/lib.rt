//! The rule of the journal pool: words that one writer overwrites in turn, and that any number of readers load beside it.
//!
//! The table has the claimed count, the hardened count and N data words. An entry that is put takes the next words, and the
//! word of address a stands in data word `a mod N`, in place of the one that stood there. A reader that loads the claimed
//! count after it copied words knows by that one number whether any of them had been overwritten.
#![tactic(auto)]

pub mod plays;
pub mod table;
pub mod views;
