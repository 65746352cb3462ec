//! The journal pool: worked counts, and reads beside puts in two threads.
#![tactic(auto)]

#[cfg(test)]
mod pools;
