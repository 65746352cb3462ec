//! Runs over folders of the machine, which the tests make and remove.
#![tactic(auto)]

#[cfg(test)]
mod ran;
#[cfg(test)]
mod refused;
#[cfg(test)]
mod two_runs;
