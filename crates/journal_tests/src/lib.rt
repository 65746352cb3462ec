//! Worked bytes of the files of a site, and crashes of them.
#![tactic(auto)]

#[cfg(test)]
mod directories;
#[cfg(test)]
mod instances;
#[cfg(test)]
mod journals;
#[cfg(test)]
mod parts;
#[cfg(test)]
mod recovery;
#[cfg(test)]
mod rows;
