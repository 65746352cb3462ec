//! The records of a region's journal, as bytes and back.
#![tactic(auto)]

mod fields;
mod kinds;
mod parts;
mod placed;
mod reading;
mod record;
mod writing;

pub use kinds::VERSION;
pub use placed::PlacedRecord;
pub use reading::decode;
pub use record::{JnlRecord, RecordError};
pub use writing::encode;
