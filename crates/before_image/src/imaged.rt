//! Which blocks were imaged.
ghost use Rattle.std.specs.Prelude.{◌≡◌, ◌≤◌, ◌+◌, ◌*◌, ◌++◌, ◌∷◌, List, [], true, false, length, replicate, IfOk, OnOk, OnErr, IsErrOf, IfSome, MatchBool};
ghost use Rattle.disk_defs.specs.Disk.{Reads, MayFailUncounted};
ghost use Rattle.journal_defs.specs.Journal.{Before};
ghost use Rattle.journal_defs.specs.Epochs.{Chosen, block_of};
ghost use Rattle.journal_defs.specs.Undo.{MayWrite};
ghost use Rattle.before_image.specs.Images.{is_free, with_image, first_image, Knows};

use crate::error::ImageError;
use gvn_key::NoMemory;
use repl_disk::Disk;
use std::alloc::Global;
use std::marker::Model;

/// How many bytes a block has on the file.
const BLOCK: u64 = global_defs::limits::BLOCK as u64;

/// What images of blocks are logged to, as the records that wait for a region's journal.
pub trait Log {
    /// The images that were logged, in order.
    ghost images: { Self → List Before };

    /// Logs the bytes that a block has before its change.
    fn log(&mut self, block: u32, image: &[u8]) -> Result<(), NoMemory>
        requires { length image.now ≡ 4096 }
        ensures ok { OnOk result (images self.new ≡ images self.old ++ record { block = block; bytes = image.now } ∷ []) }
        ensures err { OnErr result (images self.new ≡ images self.old) };
}

/// Which blocks have an image after an epoch: a mark for each block below the epoch's `blocks`.
#[derive(Debug, Drop)]
pub struct Imaged {
    marks: Vec<bool>,
}

impl Model for Imaged {
    ghost use Rattle.std.specs.Prelude.{List, Bool};

    ghost Value = { List Bool };

    ghost view = { λ i. i.marks.items };
}

impl Imaged {
    /// No block of so many has an image: those of an epoch that is the last record.
    pub fn new(alloc: Global, blocks: u32) -> Result<Self, NoMemory>
        ensures { IfOk result (λ made. made ≡ replicate blocks false) }
    {
        let mut marks = Vec::new(alloc);
        marks.resize(blocks as usize, false)?;
        Ok(Imaged { marks })
    }

    /// The marks of blocks.
    pub(crate) fn of(marks: Vec<bool>) -> Self
        ensures { result ≡ marks.items }
    {
        Imaged { marks }
    }

    /// Whether a block may be written: it isn't below the epoch's `blocks`, or has an image after the epoch.
    pub fn may_write(&self, block: u32) -> bool
        ensures test { result ≡ is_free self.now block }
        ensures exact { (e : Chosen) → Knows self.now e → MatchBool result (MayWrite e block) (MayWrite e block → ⊥) }
    {
        match self.marks.get(block as usize) {
            Some(mark) => *mark,
            None => true,
        }
    }

    /// Sets a block's mark: its image was logged.
    pub fn mark(&mut self, block: u32)
        ensures marked { self.new ≡ with_image self.old block }
        ensures free { is_free self.new block ≡ true }
    {
        let number = block as usize;
        if number < self.marks.len() {
            self.marks[number] = true;
        }
    }

    /// Logs a block's bytes as they stand on the database file, unless it may be written. It sets no mark, so that what was logged
    /// can be given up.
    ///
    /// # Errors
    /// `Failed` only where the disk's count rose, and `NoMemory`: nothing was logged then.
    pub fn log_image<D: Disk, L: Log>(
        &self,
        disk: &mut D,
        file: u32,
        block: u32,
        log: &mut L,
    ) -> Result<(), ImageError>
        requires { IfSome (D.disk disk.old).content (λ files. is_free self.now block ≡ false → 4096 * block + 4096 ≤ length (files file)) }
        ensures logged { OnOk result (IfSome (D.disk disk.old).content (λ files. L.images log.new ≡ L.images log.old ++ first_image self.now block (block_of (files file) block))) }
        ensures none { OnErr result (L.images log.new ≡ L.images log.old) }
        ensures reads { Reads (D.disk disk.old) (D.disk disk.new) }
        ensures faults { MayFailUncounted (D.disk disk.old).faults (D.disk disk.new).faults (IsErrOf result ImageError.Failed) }
    {
        if self.may_write(block) {
            return Ok(());
        }
        let mut image = [0; 4096];
        disk.read_at(file, BLOCK * block as u64, &mut image)?;
        log.log(block, &image)?;
        Ok(())
    }

    /// Logs a block's bytes as they stand on the database file, unless it may be written, and sets its mark. The block may be written
    /// once the image is in the journal for good.
    ///
    /// # Errors
    /// `Failed` only where the disk's count rose, and `NoMemory`: nothing was logged or marked then.
    pub fn log_first<D: Disk, L: Log>(
        &mut self,
        disk: &mut D,
        file: u32,
        block: u32,
        log: &mut L,
    ) -> Result<(), ImageError>
        requires { IfSome (D.disk disk.old).content (λ files. is_free self.old block ≡ false → 4096 * block + 4096 ≤ length (files file)) }
        ensures marked { OnOk result (self.new ≡ with_image self.old block) }
        ensures logged { OnOk result (IfSome (D.disk disk.old).content (λ files. L.images log.new ≡ L.images log.old ++ first_image self.old block (block_of (files file) block))) }
        ensures err { OnErr result (self.new ≡ self.old) }
        ensures none { OnErr result (L.images log.new ≡ L.images log.old) }
        ensures reads { Reads (D.disk disk.old) (D.disk disk.new) }
        ensures faults { MayFailUncounted (D.disk disk.old).faults (D.disk disk.new).faults (IsErrOf result ImageError.Failed) }
    {
        self.log_image(disk, file, block, log)?;
        self.mark(block);
        Ok(())
    }
}
