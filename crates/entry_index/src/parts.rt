//! What TCOM records say, by what stands behind their kind.
ghost use Rattle.std.specs.Prelude.{◌∷◌, ◌≤◌, ◌↔◌, IsTrue};
ghost use Rattle.std.specs.Option.{option_map};
ghost use Rattle.entry_index.specs.Fields.{Reads, head};
ghost use Rattle.entry_index.specs.Telling.{TellsSign, head_fields, IsInRange};

use crate::items::read_items;
use crate::sign::Sign;
use global_defs::limits::{MOST_UPDATERS, MOST_UPDATES, NUMBERS_END};
use gvn_model::Origin;
use repl_fields::{read_u8, read_u16, read_u32, read_u64};

/// How a TCOM begins, behind its kind.
#[derive(Clone, Copy, Drop)]
pub struct Head {
    pub number: u64,
    pub mask: u8,
    pub origin: Origin,
    /// How many updates the whole transaction has.
    pub count: u16,
    /// How many items follow.
    pub items: u16,
}

/// How many bytes the fields have.
const HEAD: usize = 18;

impl Head {
    /// Whether each field is in its range.
    fn is_valid(self) -> bool
        ensures { IsTrue result ↔ IsInRange self }
    {
        (1..NUMBERS_END).contains(&self.number)
            && (1..=MOST_UPDATERS).contains(&self.origin.updater)
            && self.origin.serial >= 1
            && (1..=MOST_UPDATES).contains(&self.count)
    }
}

/// How a TCOM begins, in whatever ranges, and what follows.
#[inline(always)]
fn read_head(bytes: &[u8]) -> Option<(Head, &[u8])>
    ensures { Reads head bytes.now (option_map (λ p. (head_fields p.0, p.1.now)) result) }
{
    if bytes.len() < HEAD {
        return None;
    }
    let (number, rest) = read_u64(bytes)?;
    let (mask, rest) = read_u8(rest)?;
    let (updater, rest) = read_u8(rest)?;
    let (serial, rest) = read_u32(rest)?;
    let (count, rest) = read_u16(rest)?;
    let (items, rest) = read_u16(rest)?;
    let head = Head {
        number,
        mask,
        origin: Origin { updater, serial },
        count,
        items,
    };
    Some((head, rest))
}

/// What a TCOM says.
#[inline(always)]
pub fn part_sign(bytes: &[u8]) -> Option<Sign>
    ensures { TellsSign (5 ∷ bytes.now) result }
{
    let (head, rest) = read_head(bytes)?;
    let (span, rest) = read_items(head.items, head.count, rest)?;
    if !head.is_valid() {
        return None;
    }
    if !rest.is_empty() {
        return None;
    }
    Some(Sign::Tcom {
        number: head.number,
        mask: head.mask,
        origin: head.origin,
        count: head.count,
        span,
    })
}
