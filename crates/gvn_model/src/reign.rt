// Reigns and their stamps.
ghost use Rattle.std.specs.Prelude.{◌≡◌, IfOk};

use gvn_key::{Bytes, NoMemory};

/// What tells one reign of a primary from all others.
#[derive(Debug, Drop)]
pub struct Stamp {
    /// The name of the root primary.
    pub root: Bytes,
    /// Which reign of that site it is, from 1.
    pub cycle: u32,
}

impl Stamp {
    /// An equal stamp.
    pub fn copy(&self) -> Result<Self, NoMemory>
        ensures { IfOk result (λ made. made ≡ self.now) }
    {
        Ok(Stamp {
            root: self.root.copy()?,
            cycle: self.cycle,
        })
    }
}

/// A time in which one site was the root primary.
#[derive(Debug, Drop)]
pub struct Reign {
    /// Which reign it is.
    pub stamp: Stamp,
    /// The number of its first entry, from 1.
    pub start: u64,
}

impl Reign {
    /// An equal reign.
    pub fn copy(&self) -> Result<Self, NoMemory>
        ensures { IfOk result (λ made. made ≡ self.now) }
    {
        Ok(Reign {
            stamp: self.stamp.copy()?,
            start: self.start,
        })
    }
}
