//! Journals looked through once, over disks in memory, and what bodies tell.
#![tactic(auto)]

#[cfg(test)]
mod bodies;
#[cfg(test)]
mod entries;
#[cfg(test)]
mod regions;
