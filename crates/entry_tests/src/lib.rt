//! Indexes of entries over disks in memory.
#![tactic(auto)]

#[cfg(test)]
mod drawn;
#[cfg(test)]
mod indexes;
#[cfg(test)]
mod journals;
#[cfg(test)]
mod sites;
