//! Random scripts, run over sources and sinks in memory.
#![tactic(auto)]

#[cfg(test)]
mod random;
#[cfg(test)]
mod random_table;
