//! Records.
use gvn_key::Bytes;
use gvn_model::{NamedModes, Reign};

/// A record of an instance file.
#[derive(Debug, Drop)]
pub enum InstanceRecord {
    /// The site is made.
    Create {
        /// Its name: a letter, and then letters and digits, at most 15 characters.
        name: Bytes,
        /// Its 1 to 8 regions with their first modes.
        regions: NamedModes,
    },
    /// A reign begins.
    Reign(Reign),
    /// Entries past a length count no more where they stand in an earlier generation, nor do earlier reigns that begin past it.
    Cut {
        /// How many entries stay, below 2^40.
        length: u64,
        /// The generation that begins, from 1 to 65,535.
        generation: u32,
    },
    /// A region takes names.
    Map {
        /// The region, below 8.
        region: u8,
        /// Whether it takes all names that begin with this one.
        star: bool,
        /// The name of a global, at most 31 characters.
        name: Bytes,
    },
    /// A region is journaled in another way from its next generation on.
    Mode {
        /// The region, below 8.
        region: u8,
        /// Whether blocks are kept as they were before they change.
        before: bool,
    },
}
