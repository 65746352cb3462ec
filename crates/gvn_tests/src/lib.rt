//! Worked rows of statements, jobs on globals, lists and copies.
#![tactic(auto)]

#[cfg(test)]
mod copies;
#[cfg(test)]
mod evaluation;
#[cfg(test)]
mod rows;
#[cfg(test)]
mod statements;
