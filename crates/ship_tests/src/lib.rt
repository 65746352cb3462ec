//! Sessions over links in memory, between small stand-ins of a primary and a secondary.
#![tactic(auto)]

#[cfg(test)]
mod chances;
#[cfg(test)]
mod cuts;
#[cfg(test)]
mod ends;
#[cfg(test)]
mod sizes;
#[cfg(test)]
mod told;
