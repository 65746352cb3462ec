//! Signs, and where their records stand.
use crate::sign::Sign;

/// What a record of a region's journals says, and where it stands.
#[derive(Clone, Copy, Debug)]
pub struct PlacedSign {
    /// The generation, from 1 to 65,535.
    pub generation: u32,
    /// The place of the gate before its body, in bytes from the start of the journal of that generation.
    pub offset: u64,
    pub sign: Sign,
}
