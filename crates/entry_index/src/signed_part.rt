//! What a sign says of the part of an entry.
ghost use Rattle.std.specs.Prelude.{◌≡◌, ◌<◌};
ghost use Rattle.global_defs.specs.declared.limits.TheConstants.{MOST_REGIONS};
ghost use Rattle.journal_defs.specs.Sequence.{in_mask};
ghost use Rattle.entry_index.specs.Signs.{part_sign_in, is_like_sign};

use crate::place::PartPlace;
use crate::placed::PlacedSign;
use crate::sign::{Sign, Span};
use global_defs::limits::MOST_GENERATIONS;
use gvn_model::Origin;

/// What a sign says of the part of an entry, and where that stands.
#[derive(Clone, Copy, Debug)]
pub struct PartSign {
    /// The entry's number.
    pub number: u64,
    /// The regions that have a part of the entry: bit r stands for region r.
    pub mask: u8,
    /// The job that made the entry.
    pub origin: Origin,
    /// How many updates the entry has in all regions.
    pub count: u16,
    /// How the positions of the region's updates lie.
    pub span: Span,
    pub place: PartPlace,
}

/// What a sign says of a part, where it's that of one and of a generation that there may be.
pub fn part_sign(placed: &PlacedSign) -> Option<PartSign>
    ensures { result ≡ part_sign_in placed.now }
{
    let PlacedSign {
        generation,
        offset,
        sign,
    } = *placed;
    if generation == 0 || generation > MOST_GENERATIONS {
        return None;
    }
    match sign {
        Sign::Tcom {
            number,
            mask,
            origin,
            count,
            span,
        } => Some(PartSign {
            number,
            mask,
            origin,
            count,
            span,
            place: PartPlace { generation, offset },
        }),
        _ => None,
    }
}

impl PartSign {
    /// The sign that says this, with its place.
    pub fn placed(self) -> PlacedSign
        ensures { result ≡ record { generation = self.place.generation; offset = self.place.offset; sign = Sign.Tcom self.number self.mask self.origin self.count self.span } }
    {
        PlacedSign {
            generation: self.place.generation,
            offset: self.place.offset,
            sign: Sign::Tcom {
                number: self.number,
                mask: self.mask,
                origin: self.origin,
                count: self.count,
                span: self.span,
            },
        }
    }

    /// Whether the entry has a part in a region.
    pub fn is_in(&self, region: u8) -> bool
        requires { region < MOST_REGIONS }
        ensures { result ≡ in_mask self.now.mask region }
    {
        self.mask & (1 << region) != 0
    }

    /// Whether another part has the same mask, count and origin.
    pub fn is_like(&self, other: &PartSign) -> bool
        ensures { result ≡ is_like_sign self.now other.now }
    {
        other.mask == self.mask
            && other.count == self.count
            && other.origin.updater == self.origin.updater
            && other.origin.serial == self.origin.serial
    }
}
