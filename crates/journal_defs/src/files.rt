//! The numbers of a site's files (docs/FORMATS.md, the files of a site).

/// The instance file.
pub const INSTANCE_FILE: u32 = 0;

/// The number of a region's database file is this and the region, counted from 0.
pub const DATABASE_FILES: u32 = 1;

/// The number of a region's journal is this, 8 times its generation, and the region.
pub const JOURNAL_FILES: u32 = 16;

/// The number of a generation's lost-transaction file is this and the generation.
pub const LOST_FILES: u32 = 1_000_000;

/// The number of a generation's broken-transaction file is this and the generation.
pub const BROKEN_FILES: u32 = 2_000_000;
