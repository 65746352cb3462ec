//! Records, and why bytes are none.
use gvn_key::{Bytes, NoMemory};
use gvn_model::{Items, Origin};
use thiserror::Error;

/// A record of a region's journal.
#[derive(Debug, Drop)]
pub enum JnlRecord {
    /// How the journal of a generation begins.
    Pini {
        /// The version of the layout, which is 1.
        version: u8,
        /// The region, below 8.
        region: u8,
        /// Whether blocks are kept as they were before they change.
        before: bool,
        /// The generation, from 1 to 65,535.
        generation: u32,
        /// The region's last earlier generation that began, or 0.
        previous: u32,
    },
    /// All blocks stood on the database file.
    Epoch {
        /// Whether the region was closed with it.
        closing: bool,
        /// How many entries had been made, below 2^40.
        number: u64,
        /// How many blocks there were.
        blocks: u32,
    },
    /// A block as it was before a change.
    Pblk {
        /// The block's number.
        block: u32,
        /// Its 4,096 bytes.
        image: Bytes,
    },
    /// What an entry does in the region.
    Tcom {
        /// The entry's number, from 1, below 2^40.
        number: u64,
        /// The regions that have a part of the entry: bit r stands for region r.
        mask: u8,
        /// The job that made the entry.
        origin: Origin,
        /// How many updates the entry has in all regions, from 1 to 256.
        count: u16,
        /// The region's updates, with rising positions below `count`.
        items: Items,
    },
}

/// Why bytes gave no record.
#[derive(Clone, Copy, Debug, PartialEq, Eq, Error)]
pub enum RecordError {
    /// No record has the bytes that were handed in with this offset.
    #[error("no record at {offset}")]
    NotARecord { offset: u64 },
    /// There was no memory.
    #[error("out of memory")]
    NoMemory,
}

impl From<NoMemory> for RecordError {
    ghost use Rattle.std.specs.Prelude.{◌≡◌};
    ghost use Rattle.jnl_record.specs.declared.record.RecordError.TheVariants.{NoMemory};

    ghost from_gives = { λ _ e. e ≡ NoMemory };

    fn from(_: NoMemory) -> Self {
        RecordError::NoMemory
    }
}
