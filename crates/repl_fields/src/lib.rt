//! Fields of records, entries and frames, as bytes.
#![tactic(auto)]

mod numbers;
mod pieces;
mod updates;

pub use numbers::{read_u8, read_u16, read_u32, read_u64};
pub use pieces::{read_long, read_short};
pub use updates::{read_key, read_update, read_value, write_long, write_short, write_update};
