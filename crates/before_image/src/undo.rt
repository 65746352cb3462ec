//! Undoing what changed after an epoch.
ghost use Rattle.std.specs.Prelude.{◌≡◌, ◌≤◌, ◌<◌, ◌+◌, ◌*◌, ℕ, length, map, max, replicate, is_some, Some, None, IfOk, OnOk, OnErr, IfSome};
ghost use Rattle.std.specs.Ordering.{nat_cmp};
ghost use Rattle.std.specs.BTreeMap.{get};
ghost use Rattle.disk_defs.specs.Disk.{Reads, HasCause};
ghost use Rattle.journal_defs.specs.Epochs.{Chosen, image_state, block_of};
ghost use Rattle.before_image.specs.Undoing.{images_below, oldest_of, with_oldest, Undoes};

use crate::imaged::Imaged;
use gvn_key::{Bytes, NoMemory};
use repl_disk::{Disk, Failed};
use std::alloc::Global;
use std::collections::BTreeMap;
use std::marker::Model;

/// How many bytes a block has on the file.
const BLOCK: u64 = global_defs::limits::BLOCK as u64;

/// A mark for each of so many blocks, set where it has an image.
fn marks_of(
    alloc: Global,
    blocks: u32,
    oldest: &BTreeMap<u32, Bytes>,
) -> Result<Vec<bool>, NoMemory>
    ensures { IfOk result (λ made. made.items ≡ map is_some (images_below blocks (get nat_cmp oldest.now))) }
{
    let mut marks = Vec::new(alloc);
    for block in 0..blocks {
        marks.push(oldest.contains_key(&block))?;
    }
    Ok(marks)
}

/// Writes zeros over all bytes.
fn put_zeros(out: &mut [u8])
    ensures { out.new ≡ replicate (length out.old) 0 }
{
    out.fill(0);
}

/// The oldest image of each block below an epoch's `blocks`. Its memory goes by the images that there are.
#[derive(Debug, Drop)]
pub struct Undo {
    alloc: Global,
    /// How many blocks the epoch has.
    count: u32,
    oldest: BTreeMap<u32, Bytes>,
}

impl Model for Undo {
    ghost use Rattle.std.specs.Prelude.{◌≡◌, ℕ, length, IfSome};
    ghost use Rattle.std.specs.Ordering.{nat_cmp};
    ghost use Rattle.std.specs.BTreeMap.{get};
    ghost use Rattle.std.specs.Coded.{coded_list, coded_option, coded_ℕ};
    ghost use Rattle.before_image.specs.Undoing.{Oldest, images_below};

    ghost Value = { Oldest };

    ghost coded = { coded_list (coded_option (coded_list coded_ℕ)) };

    ghost view = { λ u. images_below u.count (get nat_cmp u.oldest) };

    ghost invariant = { λ u. (b : ℕ) → IfSome (get nat_cmp u.oldest b) (λ image. length image ≡ 4096) };
}

impl Undo {
    /// No image of so many blocks: what stands below an epoch that is the last record. It takes no memory yet.
    pub fn new(alloc: Global, blocks: u32) -> Self
        ensures { result ≡ replicate blocks None }
    {
        Undo {
            alloc,
            count: blocks,
            oldest: BTreeMap::new(alloc),
        }
    }

    /// Whether a block has an image.
    pub fn has_image(&self, block: u32) -> bool
        ensures { result ≡ is_some (oldest_of self.now block) }
    {
        block < self.count && self.oldest.contains_key(&block)
    }

    /// Takes an image, in journal order: it counts where its block has none yet.
    pub fn take_image(&mut self, block: u32, image: &[u8]) -> Result<(), NoMemory>
        requires { length image.now ≡ 4096 }
        ensures ok { OnOk result (self.new ≡ with_oldest self.old block image.now) }
        ensures err { OnErr result (self.new ≡ self.old) }
    {
        if block >= self.count {
            return Ok(());
        }
        if self.oldest.contains_key(&block) {
            return Ok(());
        }
        let image = Bytes::of(self.alloc, image)?;
        self.oldest.insert(block, image)?;
        Ok(())
    }

    /// Reads a block as it stands below the epoch: its oldest image, or the file's block where it has none. With no blocks the
    /// first one is zeros.
    pub fn read_block<D: Disk>(
        &self,
        disk: &mut D,
        file: u32,
        block: u32,
        out: &mut [u8],
    ) -> Result<(), Failed>
        requires size { length out.old ≡ 4096 }
        requires inside { block < max 1 (length self.now) }
        requires whole { IfSome (D.disk disk.old).content (λ files. block < length self.now → oldest_of self.now block ≡ None → 4096 * block + 4096 ≤ length (files file)) }
        ensures block { OnOk result (IfSome (D.disk disk.old).content (λ files. (e : Chosen) → Undoes self.now e → image_state e (block_of (files file)) block ≡ Some out.new)) }
        ensures reads { Reads (D.disk disk.old) (D.disk disk.new) }
        ensures cause { HasCause (D.disk disk.old).faults (D.disk disk.new).faults result }
    {
        if block >= self.count {
            put_zeros(out);
            return Ok(());
        }
        match self.oldest.get(&block) {
            Some(image) => {
                out.copy_from_slice(image.as_slice());
                Ok(())
            }
            None => disk.read_at(file, BLOCK * block as u64, out),
        }
    }

    /// Which blocks have an image. The marks take memory for all blocks, so it's for after they were read.
    pub fn imaged(&self) -> Result<Imaged, NoMemory>
        ensures { IfOk result (λ made. made ≡ map is_some self.now) }
    {
        Ok(Imaged::of(marks_of(self.alloc, self.count, &self.oldest)?))
    }
}
