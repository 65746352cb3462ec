//! HELLO and its answer over links in memory, and what a Receiver Server makes of the bytes that come.
#![tactic(auto)]

#[cfg(test)]
mod answers;
#[cfg(test)]
mod histories;
#[cfg(test)]
mod received;
