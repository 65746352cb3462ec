//! Regions on blocks through epochs, while their disk fails.
#![tactic(auto)]

#[cfg(test)]
mod joined;
#[cfg(test)]
mod regions;
