//! Worked rows of keys, their bytes, and texts of bytes.
#![tactic(auto)]

#[cfg(test)]
mod key_bytes;
#[cfg(test)]
mod keys;
#[cfg(test)]
mod rows;
#[cfg(test)]
mod texts;
