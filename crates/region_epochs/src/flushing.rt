//! The changed blocks of all regions, written out.
ghost use Rattle.std.specs.Prelude.{◌≡◌, ◌<◌, ◌^◌, ◌++◌, ◌∷◌, [], ℕ, length, IfSome, IfOk, OnOk, IsErrOf};
ghost use Rattle.global_defs.specs.declared.limits.TheConstants.{NUMBERS_END};
ghost use Rattle.disk_defs.specs.Disk.{Image, From, AtEachMoment, IsDurable, MayFailUncounted};
ghost use Rattle.disk_defs.specs.Frames.{OthersStay};
ghost use Rattle.journal_defs.specs.Numbers.{database_file};
ghost use Rattle.journal_defs.specs.Epochs.{Chosen};
ghost use Rattle.region_store.specs.Region.{HoldsRegion, IsHeld, flushed};
ghost use Rattle.region_store.specs.Joined.{region_at};
ghost use Rattle.region_epochs.specs.Files.{IsDatabaseFile};
ghost use Rattle.region_epochs.specs.Flushed.{AreWritable, AreEpochs, AreRestored, AreCutShort};
ghost use Rattle.region_epochs.specs.Taken.{HasSameNodes};

use crate::error::EpochError;
use before_image::Imaged;
use gvn_key::NoMemory;
use jnl_record::JnlRecord;
use region_store::Regions;
use repl_disk::Disk;
use std::alloc::Global;

/// What is kept of regions that are written out, by region.
#[derive(Drop)]
pub(crate) struct Flushed {
    /// The EPOCH of each.
    pub(crate) epochs: Vec<JnlRecord>,
    /// Marks of no image for each.
    pub(crate) images: Vec<Imaged>,
}

impl Flushed {
    /// Nothing yet.
    fn new(alloc: Global) -> Self
        ensures epochs { result.epochs.items ≡ [] }
        ensures images { result.images.items ≡ [] }
    {
        Flushed {
            epochs: Vec::new(alloc),
            images: Vec::new(alloc),
        }
    }

    /// Keeps what is kept of one region more.
    fn push(&mut self, epoch: JnlRecord, images: Imaged) -> Result<(), NoMemory>
        ensures epochs { OnOk result (self.new.epochs.items ≡ self.old.epochs.items ++ epoch ∷ []) }
        ensures images { OnOk result (self.new.images.items ≡ self.old.images.items ++ images ∷ []) }
    {
        self.epochs.push(epoch)?;
        self.images.push(images)?;
        Ok(())
    }
}

/// Writes the changed blocks of each region and syncs its file. Each of the blocks may be written.
pub(crate) fn flush_regions<D: Disk>(
    alloc: Global,
    disk: &mut D,
    regions: &mut Regions,
    number: u64,
    closing: bool,
) -> Result<Flushed, EpochError>
    requires number { number < NUMBERS_END }
    requires writable { AreWritable regions.old }
    requires held { (r : ℕ) → r < length regions.old.regions → IfSome (D.disk disk.old).content (IsHeld (region_at regions.old r)) }
    ensures flushed { IfOk result (λ _. (r : ℕ) → r < length regions.old.regions → region_at regions.new r ≡ flushed (region_at regions.old r)) }
    ensures epochs { IfOk result (AreEpochs closing number regions.old) }
    ensures restores { IfOk result (λ _. IfSome (D.disk disk.new).content (AreRestored regions.new)) }
    ensures durable { IfOk result (λ _. IfSome (D.disk disk.new).content (λ files. (r : ℕ) → r < length regions.old.regions → IsDurable (D.disk disk.new) (database_file r) (files (database_file r)))) }
    ensures held { IfOk result (λ _. (r : ℕ) → r < length regions.old.regions → IfSome (D.disk disk.new).content (IsHeld (region_at regions.new r))) }
    ensures holds { IfOk result (λ _. (r : ℕ) (e : Chosen) → r < length regions.old.regions → IfSome (D.disk disk.old).content (λ files. HoldsRegion e (files (database_file r)) (region_at regions.old r)) → IfSome (D.disk disk.new).content (λ files. HoldsRegion e (files (database_file r)) (region_at regions.new r))) }
    ensures same { HasSameNodes regions.old regions.new }
    ensures any_moment { AtEachMoment (D.disk disk.old) (D.disk disk.new) (From (Image (D.disk disk.old)) (AreCutShort regions.old)) }
    ensures frame { OthersStay (IsDatabaseFile (length regions.old.regions)) (D.disk disk.old) (D.disk disk.new) }
    ensures faults { MayFailUncounted (D.disk disk.old).faults (D.disk disk.new).faults (IsErrOf result EpochError.Failed) }
{
    let mut made = Flushed::new(alloc);
    for region in 0..regions.count() {
        let epoch = regions.flush(region, disk, closing, number)?;
        let blocks = regions.region(region).blocks();
        made.push(epoch, Imaged::new(alloc, blocks)?)?;
    }
    Ok(made)
}
