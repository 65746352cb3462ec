//! Definitions: what the files of a site stand for.
//!
//! `specs/` has a topic a file: file numbers, journal records, instance records, the directory, which records survive, the
//! sequence, the broken list, epochs and image states, what keeps these, leaves, sound blocks, a transaction's parts, what
//! files stand for, clean files, growth of records and of files, and what each image of fit disks has.
//!
//! The functions here do nothing: their contracts are worked bytes and small cases.
#![tactic(auto)]

pub mod blocks;
pub mod broken_parts;
pub mod bytes;
pub mod directories;
pub mod entries;
pub mod files;
pub mod survivors;
