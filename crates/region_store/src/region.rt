//! A region on blocks.
ghost use Rattle.std.specs.Prelude.{◌≡◌, ◌≤◌, ◌+◌, ◌*◌, ◌++◌, ◌⊎◌, ℕ, List, true, false, length, map, max, filter, fold, replicate, option_map, IfOk, IfSome, OnOk, OnErr, IsErrOf};
ghost use Rattle.std.specs.Option.{option_copied};
ghost use Rattle.std.specs.List.{AllByRecursion};
ghost use Rattle.std.specs.FinMap as globals;
ghost use Rattle.disk_defs.specs.Disk.{Reads, Image, From, OnFile, AtEachMoment, ReadsAfter, IsDurable, MayFail};
ghost use Rattle.disk_defs.specs.Frames.{Only, OthersStay};
ghost use Rattle.global_defs.specs.Key.{sub_of};
ghost use Rattle.global_defs.specs.Valid.{is_key};
ghost use Rattle.global_defs.specs.Entry.{is_under, apply};
ghost use Rattle.global_defs.specs.Fields.{IsUpdate};
ghost use Rattle.global_defs.specs.Evaluation as evaluation;
ghost use Rattle.gvn_key.specs.Terms.{update_value};
ghost use Rattle.gvn_key.specs.Faults.{child_of};
ghost use Rattle.gvn_globals.specs.Walks.{after};
ghost use Rattle.journal_defs.specs.Journal as journal;
ghost use Rattle.journal_defs.specs.Journal.{Mark};
ghost use Rattle.journal_defs.specs.Epochs.{Chosen, image_state, block_of};
ghost use Rattle.journal_defs.specs.Leaves.{Decodes};
ghost use Rattle.journal_defs.specs.Undo.{fresh};
ghost use Rattle.journal_defs.specs.Sound.{Restores};
ghost use Rattle.site_defs.specs.OutsideBlocks.{IsOutsideAt};
ghost use Rattle.block_laws.specs.Nodes.{AreFormed, HaveKeys};
ghost use Rattle.block_laws.specs.Several.{logged_all};
ghost use Rattle.before_image.specs.Images.{is_free, with_image, first_image, placed_images};
ghost use Rattle.gvt_leaf.specs.Listed.{node_value};
ghost use Rattle.gvt_leaf.specs.Stored.{HasRoom, sets_of, blocks_in};
ghost use Rattle.jnl_record.specs.Values.{record_value, placed_value};
ghost use Rattle.region_store.specs.Laid.{epoch_at, AreLaid};
ghost use Rattle.region_store.specs.Region.{HoldsRegion, IsHeld, IsSameRegion, IsChanged, stored_in, AreLogged, IsFlushed, IsCutShort, IsReplayed, flushed, with_marks, images_below, changed_images, logged_marks};

use super::error::RegionError;
use super::flushing::{mark_dirty, sync_file, write_changed};
use super::reading::{read_blocks, undo_of};
use before_image::{ImageError, Imaged, Log};
use block_pool::BlockPool;
use gvn_globals::Lookup;
use gvn_key::terms::Update;
use gvn_key::{Bytes, Key, NoMemory};
use gvt_leaf::{ChainError, Leaves, Node};
use jnl_record::{JnlRecord, PlacedRecord};
use repl_disk::Disk;
use std::alloc::Global;
use std::marker::Model;

/// How many bytes a block has on the file.
const BLOCK: u64 = global_defs::limits::BLOCK as u64;

/// A region's globals on the blocks of its database file, of which some may have changed since they were written.
#[derive(Debug, Drop)]
pub struct Region {
    /// The number of the database file.
    file: u32,
    leaves: Leaves,
    imaged: Imaged,
}

impl Model for Region {
    ghost use Rattle.region_store.specs.Region as defs;

    ghost Value = { defs.Standing };

    ghost coded = { defs.standing_code };

    ghost view = { λ r. record { file = r.file; globals = r.leaves.globals; pool = r.leaves.pool; imaged = r.imaged } };
}

/// The globals of the blocks that were read of a database file.
///
/// # Errors
/// `NotAFile` with the block at which the chain of leaves breaks.
fn leaves_of(alloc: Global, file: u32, pool: BlockPool) -> Result<Leaves, RegionError>
    ensures blocks { IfOk result (λ made. made.pool.leaves ≡ pool.leaves) }
    ensures dirty { IfOk result (λ made. made.pool.dirty ≡ pool.dirty) }
    ensures restores { IfOk result (λ made. (e : Chosen) (bytes : List ℕ) → AreLaid e bytes pool (max 1 e.blocks) → Restores (image_state e (block_of bytes)) made.globals) }
    ensures keys { IfOk result (λ made. HaveKeys made.globals) }
    ensures place { (f offset : ℕ) → IsErrOf result (RegionError.NotAFile f offset) → f ≡ file }
    ensures outside { (f offset : ℕ) → IsErrOf result (RegionError.NotAFile f offset) → (e : Chosen) (bytes : List ℕ) → AreLaid e bytes pool (max 1 e.blocks) → (b : ℕ) × (offset ≡ 4096 * b) × IsOutsideAt (image_state e (block_of bytes)) b }
    ensures no_fault { (fault : ℕ) → IsErrOf result (RegionError.Failed fault) → ⊥ }
{
    match Leaves::open(alloc, pool) {
        Ok(leaves) => Ok(leaves),
        Err(ChainError::Broken { block }) => Err(RegionError::NotAFile {
            file,
            offset: BLOCK * block as u64,
        }),
        Err(ChainError::NoMemory) => Err(RegionError::NoMemory),
    }
}

impl Region {
    /// Goes back to an epoch of a database file, with so many blocks and these records behind it in the region's journals, and makes
    /// the updates of the entries behind it. It writes nothing: the blocks go back in memory alone.
    ///
    /// # Errors
    /// `NotAFile` with the file and the place of a block that is outside the format, exactly where the blocks of the epoch hold no
    /// globals; `Failed` only where the disk's count of faults rose; `NoMemory`.
    pub fn open<D: Disk>(
        alloc: Global,
        disk: &mut D,
        file: u32,
        blocks: u32,
        behind: &[PlacedRecord],
        updates: &[Update],
    ) -> Result<Self, RegionError>
        requires behind { AreFormed (map placed_value behind.now) }
        requires updates { AllByRecursion IsUpdate (map update_value updates.now) }
        ensures file { IfOk result (λ made. made.file ≡ file) }
        // the region's blocks are those of the epoch and the file
        ensures holds { IfOk result (λ made. IfSome (D.disk disk.old).content (λ files. (number : ℕ) → HoldsRegion (epoch_at number blocks behind.now) (files file) made)) }
        // the globals are those of the blocks below the epoch, with the updates made
        ensures globals { IfOk result (λ made. IfSome (D.disk disk.old).content (λ files. (number : ℕ) → IsReplayed (image_state (epoch_at number blocks behind.now) (block_of (files file))) (map update_value updates.now) made.globals)) }
        ensures place { (f offset : ℕ) → IsErrOf result (RegionError.NotAFile f offset) → f ≡ file }
        ensures outside { (f offset : ℕ) → IsErrOf result (RegionError.NotAFile f offset) → IfSome (D.disk disk.old).content (λ files. (number : ℕ) → (b : ℕ) × (offset ≡ 4096 * b) × IsOutsideAt (image_state (epoch_at number blocks behind.now) (block_of (files file))) b) }
        ensures reads { Reads (D.disk disk.old) (D.disk disk.new) }
        ensures faults { MayFail (D.disk disk.old).faults (D.disk disk.new).faults (λ fault. IsErrOf result (RegionError.Failed fault)) }
    {
        let undo = undo_of(alloc, blocks, behind)?;
        let pool = read_blocks(alloc, &undo, disk, file, blocks)?;
        let imaged = undo.imaged()?;
        let mut leaves = leaves_of(alloc, file, pool)?;
        leaves.apply_all(updates)?;
        Ok(Region {
            file,
            leaves,
            imaged,
        })
    }

    /// How many nodes have values.
    pub fn nodes(&self) -> u32
        ensures { result ≡ globals.len self.now.globals }
    {
        self.leaves.nodes()
    }

    /// The node's value, if it has one.
    pub fn get(&self, key: &Key) -> Option<&[u8]>
        ensures { option_copied result ≡ globals.get self.now.globals key.now }
    {
        self.leaves.get(key)
    }

    /// Whether the node has a value, and whether it has descendants: 0, 1, 10 or 11.
    pub fn defined(&self, key: &Key) -> u8
        ensures { result ≡ evaluation.defined self.now.globals key.now }
    {
        self.leaves.defined(key)
    }

    /// The first node of the same name past the key, if there is one.
    pub fn after(&self, key: &Key) -> Result<Option<Key>, NoMemory>
        ensures { IfOk result (λ found. found ≡ after self.now.globals key.now) }
    {
        self.leaves.after(key)
    }

    /// The next subscript at the level below the node, past the last one, by its own bytes: of a number its numeral. An
    /// empty last one comes before all.
    pub fn order(&self, key: &Key, last: &[u8]) -> Result<Option<Bytes>, NoMemory>
        ensures next { IfOk result (λ found. option_map sub_of found ≡ evaluation.order self.now.globals key.now last.now) }
        ensures a_key { IfOk result (λ found. IfSome found (λ sub. is_key (child_of key.now (sub_of sub)) ≡ true)) }
    {
        self.leaves.order(key, last)
    }

    /// All nodes with their values, in M collation.
    pub fn list(&self, alloc: Global) -> Result<Vec<Node<'_>>, NoMemory>
        ensures { IfOk result (λ made. map node_value made.items ≡ globals.entries self.now.globals) }
    {
        self.leaves.list(alloc)
    }

    /// The node and those below it with their values, in M collation.
    pub fn list_under(&self, alloc: Global, top: &Key) -> Result<Vec<Node<'_>>, NoMemory>
        ensures { IfOk result (λ made. map node_value made.items ≡ filter (λ e. is_under top.now e.0) (globals.entries self.now.globals)) }
    {
        self.leaves.list_under(alloc, top)
    }

    /// Makes room for changes that set so many nodes. More than `u32::MAX` nodes take more memory than there is.
    pub fn reserve(&mut self, sets: usize) -> Result<(), NoMemory>
        ensures ok { OnOk result (HasRoom (stored_in self.new) sets) }
        ensures same { IsSameRegion self.old self.new }
        ensures changed { IsChanged self.old self.new }
    {
        self.leaves.reserve(sets)
    }

    /// Makes one change, for which there is room. It takes no memory, and the blocks that it changes are marked.
    pub fn make_one(&mut self, update: &Update)
        requires form { IsUpdate (update_value update.now) }
        requires room { HasRoom (stored_in self.old) (sets_of (update_value update.now)) }
        ensures made { self.new.globals ≡ apply self.old.globals (update_value update.now) }
        ensures room { self.old.pool.room ≤ self.new.pool.room + sets_of (update_value update.now) }
        ensures numbers { globals.len self.new.globals ≤ globals.len self.old.globals + sets_of (update_value update.now) }
        ensures changed { IsChanged self.old self.new }
    {
        self.leaves.make_one(update);
    }

    /// Makes these changes in order, all of them or, without memory, none. The blocks that they change are marked.
    pub fn apply(&mut self, updates: &[Update]) -> Result<(), NoMemory>
        requires { AllByRecursion IsUpdate (map update_value updates.now) }
        ensures ok { OnOk result (self.new.globals ≡ fold apply self.old.globals (map update_value updates.now)) }
        ensures err { OnErr result (self.new.globals ≡ self.old.globals) }
        ensures blocks { OnErr result (self.new.pool.leaves ≡ self.old.pool.leaves) }
        ensures dirty { OnErr result (self.new.pool.dirty ≡ self.old.pool.dirty) }
        ensures file { self.new.file ≡ self.old.file }
        ensures imaged { self.new.imaged ≡ self.old.imaged }
        ensures holds { (e : Chosen) (bytes : List ℕ) → HoldsRegion e bytes self.old → HoldsRegion e bytes self.new }
    {
        self.leaves.apply_all(updates)
    }

    /// How many blocks there are. They spell the globals.
    pub fn blocks(&self) -> u32
        ensures count { result ≡ length self.now.pool.leaves }
        ensures decodes { Decodes (blocks_in self.now.pool.leaves) self.now.globals }
    {
        self.leaves.pool().count()
    }

    /// Adds a block to a list where it needs an image before it's written.
    fn list_unlogged(&self, block: u32, list: &mut Vec<u32>) -> Result<(), NoMemory>
        requires { AllByRecursion (λ b. is_free self.now.imaged b ≡ false) list.old.items }
        ensures { AllByRecursion (λ b. is_free self.now.imaged b ≡ false) list.new.items }
    {
        if !self.imaged.may_write(block) {
            list.push(block)?;
        }
        Ok(())
    }

    /// The blocks that a change is about to change first behind the epoch, each of which needs an image before it's written. It tells
    /// those that one change by itself changes: what others change before it in the same list may come besides, and has its image when
    /// the blocks are [flushed](Region::log_changed).
    pub fn unlogged(&self, alloc: Global, update: &Update) -> Result<Vec<u32>, NoMemory>
        ensures { IfOk result (λ made. AllByRecursion (λ b. is_free self.now.imaged b ≡ false) made.items) }
    {
        let mut list = Vec::new(alloc);
        for block in self.leaves.touched(update) {
            self.list_unlogged(*block, &mut list)?;
        }
        if let Some(block) = self.leaves.taken(update) {
            self.list_unlogged(block, &mut list)?;
        }
        Ok(list)
    }

    /// Logs the bytes of a block as they stand on the file, where it may not be written yet. It sets no mark, so that what was logged
    /// can be given up: [`mark_image`](Region::mark_image) is for when the journal has it.
    ///
    /// # Errors
    /// `Failed` only where the disk's count of faults rose, and `NoMemory`: nothing was logged then.
    pub fn log_image<D: Disk, L: Log>(
        &self,
        disk: &mut D,
        block: u32,
        log: &mut L,
    ) -> Result<(), RegionError>
        requires held { IfSome (D.disk disk.old).content (IsHeld self.now) }
        ensures logged { OnOk result (IfSome (D.disk disk.old).content (λ files. L.images log.new ≡ L.images log.old ++ first_image self.now.imaged block (block_of (files self.now.file) block))) }
        ensures none { OnErr result (L.images log.new ≡ L.images log.old) }
        ensures place { (f offset : ℕ) → IsErrOf result (RegionError.NotAFile f offset) → ⊥ }
        ensures reads { Reads (D.disk disk.old) (D.disk disk.new) }
        ensures faults { MayFail (D.disk disk.old).faults (D.disk disk.new).faults (λ fault. IsErrOf result (RegionError.Failed fault)) }
    {
        match self.imaged.log_image(disk, self.file, block, log) {
            Ok(()) => Ok(()),
            Err(ImageError::Failed) => Err(RegionError::Failed {
                fault: disk.faults(),
            }),
            Err(ImageError::NoMemory) => Err(RegionError::NoMemory),
        }
    }

    /// Keeps that a block has an image: what [`log_image`](Region::log_image) logged is in the journal.
    pub fn mark_image(&mut self, block: u32)
        ensures marks { self.new ≡ with_marks self.old (with_image self.old.imaged block) }
        // behind the image, in whichever generation, the region's blocks are those of the same epoch
        ensures holds { (e : Chosen) (bytes : List ℕ) (g : ℕ) → HoldsRegion e bytes self.old → HoldsRegion (logged_all e (placed_images g (first_image self.old.imaged block (block_of bytes block)))) bytes self.new }
    {
        self.imaged.mark(block);
    }

    /// Logs what the file has of each block that has changed and may not be written yet, in the blocks' order. It sets no mark, so that
    /// what was logged can be given up: [`mark_logged`](Region::mark_logged) is for when the journal has it.
    ///
    /// # Errors
    /// `Failed` only where the disk's count of faults rose, and `NoMemory`: the first few of the images may be logged then, and are to
    /// be given up.
    pub fn log_changed<D: Disk, L: Log>(&self, disk: &mut D, log: &mut L) -> Result<(), RegionError>
        requires held { IfSome (D.disk disk.old).content (IsHeld self.now) }
        ensures logged { OnOk result (IfSome (D.disk disk.old).content (λ files. L.images log.new ≡ L.images log.old ++ changed_images self.now (files self.now.file))) }
        ensures front { OnErr result (IfSome (D.disk disk.old).content (λ files. (n : ℕ) × (L.images log.new ≡ L.images log.old ++ images_below self.now (files self.now.file) n))) }
        ensures place { (f offset : ℕ) → IsErrOf result (RegionError.NotAFile f offset) → ⊥ }
        ensures reads { Reads (D.disk disk.old) (D.disk disk.new) }
        ensures faults { MayFail (D.disk disk.old).faults (D.disk disk.new).faults (λ fault. IsErrOf result (RegionError.Failed fault)) }
    {
        let numbers = self.leaves.pool().dirty_numbers();
        for number in numbers {
            self.log_image(disk, *number, log)?;
        }
        Ok(())
    }

    /// Keeps that each block that has changed has an image: what [`log_changed`](Region::log_changed) logged is in the journal.
    pub fn mark_logged(&mut self)
        ensures marks { self.new ≡ with_marks self.old (logged_marks self.old) }
        ensures logged { AreLogged self.new }
        // behind the images, in whichever generation, the region's blocks are those of the same epoch
        ensures holds { (e : Chosen) (bytes : List ℕ) (g : ℕ) → HoldsRegion e bytes self.old → HoldsRegion (logged_all e (placed_images g (changed_images self.old bytes))) bytes self.new }
    {
        mark_dirty(&mut self.imaged, self.leaves.pool());
    }

    /// Writes the blocks that have changed, each of which stands past the epoch or has an image, and syncs the file. It answers the
    /// record of an EPOCH of so many entries, which may be appended then: the file's blocks below it hold exactly the globals.
    ///
    /// The images have to be in the journal for good before. A crash in the midst leaves of the file what goes back by them.
    ///
    /// # Errors
    /// `Failed` only where the disk's count of faults rose, and `NoMemory`. The region has the same globals in the same blocks, which
    /// are still those of the epoch and the file, and another flush may follow.
    pub fn flush<D: Disk>(
        &mut self,
        disk: &mut D,
        closing: bool,
        number: u64,
    ) -> Result<JnlRecord, RegionError>
        requires held { IfSome (D.disk disk.old).content (IsHeld self.old) }
        requires logged { AreLogged self.old }
        ensures ok { OnOk result (self.new ≡ flushed self.old) }
        ensures err { OnErr result ((self.new ≡ self.old) ⊎ (self.new ≡ flushed self.old)) }
        ensures logged { AreLogged self.new }
        ensures holds { (e : Chosen) → IfSome (D.disk disk.old).content (λ files. HoldsRegion e (files self.old.file) self.old) → IfSome (D.disk disk.new).content (λ files. HoldsRegion e (files self.old.file) self.new) }
        ensures epoch { IfOk result (λ made. record_value made ≡ journal.Epoch (record { closing = closing; number = number; blocks = length self.old.pool.leaves })) }
        ensures restores { OnOk result (IfSome (D.disk disk.new).content (λ files. (m : Mark) → m.blocks ≡ length self.old.pool.leaves → Restores (image_state (fresh m) (block_of (files self.old.file))) self.old.globals)) }
        ensures durable { OnOk result (IfSome (D.disk disk.new).content (λ files. IsDurable (D.disk disk.new) self.old.file (files self.old.file))) }
        // as the file reads, and in each image at each moment of the call, at most blocks have changed that may be written
        ensures content { ReadsAfter (OnFile self.old.file (IsCutShort self.old)) (D.disk disk.old).content (D.disk disk.new).content }
        ensures any_moment { AtEachMoment (D.disk disk.old) (D.disk disk.new) (From (Image (D.disk disk.old)) (OnFile self.old.file (IsCutShort self.old))) }
        ensures frame { OthersStay (Only self.old.file) (D.disk disk.old) (D.disk disk.new) }
        ensures place { (f offset : ℕ) → IsErrOf result (RegionError.NotAFile f offset) → ⊥ }
        ensures faults { MayFail (D.disk disk.old).faults (D.disk disk.new).faults (λ fault. IsErrOf result (RegionError.Failed fault)) }
    {
        write_changed(&mut self.leaves, disk, self.file)?;
        sync_file(disk, self.file)?;
        Ok(JnlRecord::Epoch {
            closing,
            number,
            blocks: self.blocks(),
        })
    }

    /// No image of any block, as behind an EPOCH of all of them. They are made before it is appended, so that
    /// [`begin_epoch`](Region::begin_epoch) takes no memory.
    pub fn no_images(&self, alloc: Global) -> Result<Imaged, NoMemory>
        ensures { IfOk result (λ made. made ≡ replicate (length self.now.pool.leaves) false) }
    {
        Imaged::new(alloc, self.blocks())
    }

    /// Counts images anew: the EPOCH of a flush is in the journal for good. No block has changed since.
    pub fn begin_epoch(&mut self, images: Imaged)
        requires flushed { IsFlushed self.old }
        requires none { images ≡ replicate (length self.old.pool.leaves) false }
        ensures begun { self.new ≡ with_marks self.old (replicate (length self.old.pool.leaves) false) }
        ensures logged { AreLogged self.new }
        // the region's blocks are those of that EPOCH
        ensures holds { (e : Chosen) (bytes : List ℕ) (m : Mark) → m.blocks ≡ length self.old.pool.leaves → HoldsRegion e bytes self.old → HoldsRegion (fresh m) bytes self.new }
    {
        self.imaged = images;
    }
}

impl Lookup for Region {
    ghost seen = { λ r. r.globals };

    fn get(&self, key: &Key) -> Option<&[u8]> {
        Region::get(self, key)
    }

    fn defined(&self, key: &Key) -> u8 {
        Region::defined(self, key)
    }

    fn order(&self, key: &Key, last: &[u8]) -> Result<Option<Bytes>, NoMemory> {
        Region::order(self, key, last)
    }

    fn nodes(&self) -> u32 {
        Region::nodes(self)
    }

    fn after(&self, key: &Key) -> Result<Option<Key>, NoMemory> {
        Region::after(self, key)
    }
}
