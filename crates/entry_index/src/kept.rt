//! The signs of a region's records that are kept.
ghost use Rattle.std.specs.Prelude.{◌≡◌, ◌⊎◌, ◌≤◌, ◌<◌, ◌∷◌, ◌++◌, [], ℕ, List, None, true, false, IfSome, OnOk, IsTrue};
ghost use Rattle.disk_defs.specs.Disk.{Files};
ghost use Rattle.journal_defs.specs.Instance as instances;
ghost use Rattle.journal_defs.specs.Sequence.{Placed, part_of};
ghost use Rattle.journal_defs.specs.Surviving.{survives};
ghost use Rattle.mupip_recover.specs.Cuts.{AreCuts};
ghost use Rattle.entry_index.specs.Places.{IsSignOf};
ghost use Rattle.entry_index.specs.Cursors.{IsDrawn, Keeps, EndsWith, placed_by, stays_by, epoch_said};

use crate::placed::PlacedSign;
use crate::sign::Sign;
use crate::signed_part::PartSign;
use gvn_key::NoMemory;
use mupip_recover::Cuts;
use std::alloc::Global;

/// The signs of a region's records up to a place, but those of parts that are settled or that a CUT dropped and that stand behind another
/// part of their generation, and some before an epoch past which no target goes back: what is behind an epoch, and in which generations,
/// the others tell as well.
#[derive(Drop)]
pub struct Kept {
    /// In journal order.
    pub signs: Vec<PlacedSign>,
    /// The generation of the part right before the place, or 0 where no part stands there.
    pub behind: u32,
    /// How many signs were left when some before an epoch were dropped last.
    pub least: usize,
}

/// An epoch, by its sign.
#[derive(Clone, Copy, Debug)]
pub struct EpochSign {
    /// The generation in which it stands.
    pub generation: u32,
    /// How many entries had been made.
    pub number: u64,
}

/// Whether a sign before an epoch stays where no target goes back past that: that of a PINI does, which tells whether its generation keeps
/// images.
fn stays(sign: &Sign) -> bool
    ensures { result ≡ stays_by sign.now }
{
    match sign {
        Sign::Pini { .. } => true,
        Sign::Tcom { .. } | Sign::Epoch { .. } | Sign::Pblk { .. } => false,
    }
}

/// The epoch that a sign is of, if it's of one.
fn epoch_of(placed: &PlacedSign) -> Option<EpochSign>
    ensures { result ≡ epoch_said placed.now.generation placed.now.sign }
{
    match placed.sign {
        Sign::Epoch { number, .. } => Some(EpochSign {
            generation: placed.generation,
            number,
        }),
        _ => None,
    }
}

impl Kept {
    /// Those of no records.
    pub fn none(alloc: Global) -> Kept
        ensures { (files : Files) (instance : List instances.InstanceRecord) (lowest region n : ℕ) → Keeps files instance lowest region n result [] }
    {
        Kept {
            signs: Vec::new(alloc),
            behind: 0,
            least: 0,
        }
    }

    /// Keeps the sign of the next record.
    pub fn keep(&mut self, placed: PlacedSign) -> Result<(), NoMemory>
        ensures { OnOk result ((files : Files) (instance : List instances.InstanceRecord) (lowest region n : ℕ) (before : List Placed) (x : Placed) → IsDrawn x → IsSignOf files region placed x
            → Keeps files instance lowest region n self.old before → Keeps files instance lowest region n self.new (before ++ x ∷ [])) }
    {
        self.behind = match placed.sign {
            Sign::Tcom { .. } => placed.generation,
            _ => 0,
        };
        self.signs.push(placed)?;
        Ok(())
    }

    /// Keeps the sign of the next record, a part, unless that is settled, or dropped by a CUT, and stands behind another part of its
    /// generation.
    pub fn keep_part(&mut self, part: &PartSign, settled: bool) -> Result<(), NoMemory>
        ensures { OnOk result ((files : Files) (instance : List instances.InstanceRecord) (lowest region n : ℕ) (before : List Placed) (x : Placed) → (IsTrue settled → (part.now.number ≤ n) ⊎ (survives instance part.now.place.generation part.now.number ≡ false)) → IsDrawn x → IsSignOf files region (placed_by part.now) x
            → Keeps files instance lowest region n self.old before → Keeps files instance lowest region n self.new (before ++ x ∷ [])) }
    {
        if settled && self.behind == part.place.generation {
            return Ok(());
        }
        self.keep(part.placed())
    }

    /// The epoch that is the last record, where one is.
    fn last_epoch(&self) -> Option<EpochSign>
        ensures { IfSome result (EndsWith self.now.signs.items) }
    {
        epoch_of(self.signs.last()?)
    }

    /// Whether there are twice as many signs as were left the last time.
    fn has_doubled(&self) -> bool {
        self.signs.len() / 2 >= self.least
    }

    /// Drops signs before the last one, which is that of an epoch past which no target goes back.
    fn forget(&mut self) -> Result<(), NoMemory>
        ensures { OnOk result ((files : Files) (instance : List instances.InstanceRecord) (lowest region n : ℕ) (before : List Placed) (e : EpochSign) → EndsWith self.old.signs.items e → survives instance e.generation e.number ≡ true → e.number ≤ lowest → e.number ≤ n
            → ((m : ℕ) → n < m → part_of instance m before ≡ None) → Keeps files instance lowest region n self.old before → Keeps files instance lowest region n self.new before) }
    {
        let Some(last) = self.signs.pop() else {
            return Ok(());
        };
        self.signs.retain(|placed| stays(&placed.sign));
        self.signs.push(last)?;
        self.least = self.signs.len();
        Ok(())
    }

    /// Whether to read no further for now: the last record is a surviving epoch to which a target may go back, and past the first `settled`
    /// entries. Where it's one of these entries', signs before it are dropped, of surviving parts that are all of these entries: once there
    /// are twice as many as were left the last time, so that each sign is looked at a few times at most. `lowest` is the lowest target that
    /// may be asked for.
    #[inline(never)]
    pub fn rests(&mut self, cuts: &Cuts, settled: u64, lowest: u64) -> Result<bool, NoMemory>
        requires cuts { (rs : List instances.InstanceRecord) × AreCuts rs cuts.now }
        ensures { OnOk result ((files : Files) (instance : List instances.InstanceRecord) → AreCuts instance cuts.now → (region : ℕ) (before : List Placed)
            → ((m : ℕ) → settled < m → part_of instance m before ≡ None) → Keeps files instance lowest region settled self.old before → Keeps files instance lowest region settled self.new before) }
    {
        let Some(epoch) = self.last_epoch() else {
            return Ok(false);
        };
        if epoch.number > lowest {
            return Ok(false);
        }
        if epoch.number > settled {
            return Ok(cuts.spare(epoch.generation, epoch.number));
        }
        if self.has_doubled() && cuts.spare(epoch.generation, epoch.number) {
            self.forget()?;
        }
        Ok(false)
    }
}
