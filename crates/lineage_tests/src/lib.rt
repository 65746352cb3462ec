//! Tests of the common length of two histories, and each law called once.
#![tactic(auto)]

#[cfg(test)]
mod histories;
#[cfg(test)]
mod laws;
#[cfg(test)]
mod many;
