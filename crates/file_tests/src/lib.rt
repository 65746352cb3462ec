//! The files of a site read, and its newest journals, over disks in memory.
#![tactic(auto)]

#[cfg(test)]
mod files;
#[cfg(test)]
mod newest_journals;
