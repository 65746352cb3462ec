//! The disk below the journals: files that keep a write for good only once it's synced.
#![tactic(auto)]

mod blind;
mod disk;
mod file;
mod log;
mod memdisk;
mod table;

pub use disk::{Disk, Failed, NoMemory};
pub use memdisk::MemDisk;
