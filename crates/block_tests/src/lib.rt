//! Worked blocks, pools written out while the disk fails, leaves beside globals in a tree, and what a change touches.
#![tactic(auto)]

#[cfg(test)]
mod cells;
#[cfg(test)]
mod formats;
#[cfg(test)]
mod keys;
#[cfg(test)]
mod leaves;
#[cfg(test)]
mod pools;
#[cfg(test)]
mod touched;
