//! Worked frames and links in memory, in pieces and between threads.
#![tactic(auto)]

#[cfg(test)]
mod frames;
#[cfg(test)]
mod links;
#[cfg(test)]
mod prefixes;
#[cfg(test)]
mod rows;
