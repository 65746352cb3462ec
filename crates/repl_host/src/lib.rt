//! Disks of the machine: each has a folder, and its files stand there under their numbers.
//!
//! What a folder really holds no contract says. So these disks tell no bytes: they meet the trait, and what of a real disk is
//! hoped for beside it stands in the README.
#![tactic(auto)]

mod disk;
mod files;
mod folder;
mod handle;

pub use disk::HostDisk;
