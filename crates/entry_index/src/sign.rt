//! What records say.
use gvn_model::Origin;

/// How the positions of a record's items lie.
#[derive(Clone, Copy, Debug)]
pub struct Span {
    /// The position of the first item, or 0 where there is none.
    pub first: u16,
    /// How many items there are.
    pub many: u16,
    /// Whether the items have the positions from the first one on, without a gap.
    pub in_a_row: bool,
}

/// What a record says, but for the values and the image in it.
#[derive(Clone, Copy, Debug)]
pub enum Sign {
    /// How the journal of a generation begins.
    Pini {
        /// The region, below 8.
        region: u8,
        /// Whether blocks are kept as they were before they change.
        before: bool,
        /// The generation, from 1 to 65,535.
        generation: u32,
        /// The region's last earlier generation that began, or 0.
        previous: u32,
    },
    /// All blocks stood on the database file.
    Epoch {
        /// Whether the region was closed with it.
        closing: bool,
        /// How many entries had been made, below 2^40.
        number: u64,
        /// How many blocks there were.
        blocks: u32,
    },
    /// A block as it was before a change.
    Pblk {
        /// The block's number.
        block: u32,
    },
    /// What an entry does in the region.
    Tcom {
        /// The entry's number, from 1, below 2^40.
        number: u64,
        /// The regions that have a part of the entry: bit r stands for region r.
        mask: u8,
        /// The job that made the entry.
        origin: Origin,
        /// How many updates the entry has in all regions, from 1 to 256.
        count: u16,
        /// How the positions of the region's updates lie.
        span: Span,
    },
}
