//! Limits that clauses and code name: of keys and values, of transactions and entries, of sites and their files, and of scripts.

/// How many characters the name of a global has at most (docs/FORMATS.md, keys).
pub const LONGEST_NAME: usize = 31;

/// How many subscripts a key has at most (docs/FORMATS.md, keys).
pub const MOST_SUBS: usize = 31;

/// How many bytes an encoded key has at most (docs/FORMATS.md, keys).
pub const LONGEST_KEY: usize = 255;

/// How many bytes a value has at most, as it's stored and not as text (docs/FORMATS.md, values).
pub const LONGEST_VALUE: usize = 1500;

/// How many nodes may stand behind an update (docs/SCRIPT.md, jobs).
pub const MOST_NODES: u32 = 100_000;

/// The greatest number of an updater, counted from 1 (docs/FORMATS.md, journal records).
pub const MOST_UPDATERS: u8 = 64;

/// How many updates a transaction has at most (docs/FORMATS.md, journal records).
pub const MOST_UPDATES: u16 = 256;

/// The numbers of entries, counted from 1, are below this one, which is the next number behind the last entry (docs/FORMATS.md, journal
/// records).
pub const NUMBERS_END: u64 = 1 << 40;

/// How many reigns may begin by a length (docs/SCRIPT.md, START).
pub const MOST_REIGNS: usize = 32_768;

/// How many regions a site has at most. The regions of an entry stand in one byte, a bit each (docs/FORMATS.md, journal records).
pub const MOST_REGIONS: u8 = 8;

/// The greatest generation, counted from 1 (docs/FORMATS.md, the files of a site).
pub const MOST_GENERATIONS: u32 = 65_535;

/// How many characters the name of a site and of a region has at most (docs/FORMATS.md, the instance file).
pub const LONGEST_SITE_NAME: usize = 15;

/// How many bytes a block of a database file has (docs/FORMATS.md, the database).
pub const BLOCK: usize = 4096;

/// How many bytes a gated file's record and a frame's body have at most (docs/FORMATS.md, the text of gated files, frames).
pub const LONGEST_BODY: u32 = 1 << 20;

/// How many bytes a line of a script has at most, without its line feed (docs/SCRIPT.md).
pub const LONGEST_LINE: usize = 4096;

/// How many lines a script has at most (docs/SCRIPT.md).
pub const MOST_LINES: u32 = 100_000;

/// How many statements a transaction of a script has at most (docs/SCRIPT.md, jobs).
pub const MOST_STATEMENTS: usize = 1024;

/// The greatest number of a disk's calls in a FUSE (docs/SCRIPT.md, FUSE).
pub const MOST_CALLS: u64 = 1_000_000;

/// How many sites may stand at once, each with a disk of its own (docs/SCRIPT.md, CREATE).
pub const MOST_SITES: usize = 8;
