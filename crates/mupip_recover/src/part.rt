//! What an entry does in one region.
ghost use Rattle.std.specs.Prelude.{◌≡◌, ◌<◌, Some};
ghost use Rattle.global_defs.specs.declared.limits.TheConstants.{MOST_REGIONS};
ghost use Rattle.journal_defs.specs.Sequence as defs;
ghost use Rattle.mupip_recover.specs.Parts.{part_value};

use gvn_model::{Items, Origin};

/// What an entry does in one region, as a TCOM record says it.
#[derive(Clone, Copy, Debug)]
pub struct Part<'a> {
    /// The entry's number.
    pub number: u64,
    /// The regions that have a part of the entry: bit r stands for region r.
    pub mask: u8,
    /// The job that made the entry.
    pub origin: Origin,
    /// How many updates the entry has in all regions.
    pub count: u16,
    /// The region's updates.
    pub items: &'a Items,
}

impl Part<'_> {
    /// Whether the entry has a part in a region.
    pub fn is_in(&self, region: u8) -> bool
        requires { region < MOST_REGIONS }
        ensures { result ≡ defs.in_mask self.now.mask region }
    {
        self.mask & (1 << region) != 0
    }

    /// Whether another part has the same mask, count and origin.
    pub fn is_like(&self, other: &Part) -> bool
        ensures { result ≡ defs.is_like (part_value self.now) (Some (part_value other.now)) }
    {
        other.mask == self.mask
            && other.count == self.count
            && other.origin.updater == self.origin.updater
            && other.origin.serial == self.origin.serial
    }
}
