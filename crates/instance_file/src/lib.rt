//! A site's instance file: the log of its name, its regions, its reigns and its cuts, as a list of records on a disk.
//!
//! An instance file is a gated file of records that begins with CREATE. Each call that appends a record puts it on the disk
//! before it answers. Whatever a crash leaves, the file has the records that were there before, and perhaps the one that was
//! being appended.
#![tactic(auto)]

mod appending;
mod error;
mod fields;
mod following;
mod instance;
mod kinds;
mod log;
mod reading;
mod record;
mod records;
mod surviving;
mod walking;
mod writing;

pub use error::InstanceError;
pub use instance::Instance;
pub use log::InstanceLog;
pub use record::InstanceRecord;
pub use records::InstanceRecords;
