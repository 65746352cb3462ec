//! Worked bytes of fields, records and gated files, and disks and streams that fail.
#![tactic(auto)]

#[cfg(test)]
mod ahead;
#[cfg(test)]
mod disks;
#[cfg(test)]
mod fields;
#[cfg(test)]
mod gated_files;
#[cfg(test)]
mod records;
#[cfg(test)]
mod rows;
#[cfg(test)]
mod streams;
