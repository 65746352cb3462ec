//! Sites made, opened, damaged and crashed, over disks in memory.
#![tactic(auto)]

#[cfg(test)]
mod following;
#[cfg(test)]
mod modes;
#[cfg(test)]
mod sites;
