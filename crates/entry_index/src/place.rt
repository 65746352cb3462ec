//! Where parts of entries stand.

/// Where the part of an entry stands in a region's journals.
#[derive(Clone, Copy, Debug)]
pub struct PartPlace {
    /// The generation, from 1 to 65,535, or 0 where the region has no part of it.
    pub generation: u32,
    /// The place of the gate before its body, in bytes from the start of that generation's journal.
    pub offset: u64,
}

/// The place of no part.
pub const NOWHERE: PartPlace = PartPlace {
    generation: 0,
    offset: 0,
};
