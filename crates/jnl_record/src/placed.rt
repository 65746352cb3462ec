//! Records and the generations in which they stand.
use super::record::JnlRecord;

/// An open record of a region's journals, and the generation in which it stands.
#[derive(Debug, Drop)]
pub struct PlacedRecord {
    /// The generation, from 1 to 65,535.
    pub generation: u32,
    pub what: JnlRecord,
}
