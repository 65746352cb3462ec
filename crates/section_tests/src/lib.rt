//! Jobs decided over a site on a disk in memory that fails.
#![tactic(auto)]

#[cfg(test)]
mod sections;
