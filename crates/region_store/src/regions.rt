//! A site's regions.
ghost use Rattle.std.specs.Prelude.{◌≡◌, ◌⊎◌, ◌<◌, ◌∷◌, ◌++◌, [], ℕ, List, true, false, length, map, filter, fold, replicate, option_map, slice_get, Some, IfOk, IfSome, OnOk, OnErr, IsErrOf};
ghost use Rattle.std.specs.Option.{option_copied};
ghost use Rattle.std.specs.List.{AllByRecursion};
ghost use Rattle.std.specs.FinMap as globals;
ghost use Rattle.disk_defs.specs.Disk.{Image, From, OnFile, AtEachMoment, Reads, ReadsAfter, IsDurable, MayFail};
ghost use Rattle.disk_defs.specs.Frames.{Only, OthersStay};
ghost use Rattle.global_defs.specs.Key.{sub_of};
ghost use Rattle.global_defs.specs.Valid.{is_key};
ghost use Rattle.global_defs.specs.Entry as entry;
ghost use Rattle.global_defs.specs.Entry.{Sequence, is_under, apply, state};
ghost use Rattle.global_defs.specs.Fields.{IsUpdate};
ghost use Rattle.global_defs.specs.Evaluation as evaluation;
ghost use Rattle.gvn_key.specs.Terms.{update_value};
ghost use Rattle.gvn_key.specs.Faults.{child_of};
ghost use Rattle.gvn_globals.specs.Walks.{after};
ghost use Rattle.journal_defs.specs.Journal as journal;
ghost use Rattle.journal_defs.specs.Journal.{Mark};
ghost use Rattle.journal_defs.specs.Directory.{region_of};
ghost use Rattle.journal_defs.specs.Fit.{key_of};
ghost use Rattle.journal_defs.specs.Epochs.{Chosen, image_state, block_of};
ghost use Rattle.journal_defs.specs.Sound.{Restores};
ghost use Rattle.journal_defs.specs.Undo.{fresh};
ghost use Rattle.gvt_leaf.specs.Listed.{node_value};
ghost use Rattle.gvt_leaf.specs.Stored.{HasRoom, sets_in};
ghost use Rattle.block_laws.specs.Nodes.{updates_in};
ghost use Rattle.block_laws.specs.Several.{logged_all};
ghost use Rattle.before_image.specs.Images.{is_free, with_image, first_image, placed_images};
ghost use Rattle.jnl_record.specs.Values.{record_value};
ghost use Rattle.region_store.specs.Region.{Standing, HoldsRegion, IsHeld, AreLogged, IsFlushed, IsCutShort, stored_in, flushed, with_marks, changed_images, images_below, logged_marks};
ghost use Rattle.region_store.specs.Joined.{joined, AreJoined, ArePartsOf, HasRoomFor, IsSameJoined, IsSameElsewhere, AreChanged, region_at};

use super::counting::{count_nodes, count_sets_in, name_of};
use super::merging::merged;
use crate::error::RegionError;
use crate::region::Region;
use before_image::{Imaged, Log};
use global_dir::Directory;
use gvn_globals::Lookup;
use gvn_key::terms::Update;
use gvn_key::{Bytes, Key, NoMemory};
use gvt_leaf::{Node, count_sets};
use jnl_record::JnlRecord;
use repl_disk::Disk;
use std::alloc::Global;
use std::marker::Model;

/// The regions of a site, and the global directory that gives each name its region.
#[derive(Debug, Drop)]
pub struct Regions {
    directory: Directory,
    regions: Vec<Region>,
}

impl Model for Regions {
    ghost use Rattle.region_store.specs.Joined as defs;
    ghost use Rattle.region_store.specs.Inside.{regions_of, IsKept};

    ghost Value = { defs.Joined };

    ghost coded = { defs.joined_code };

    ghost view = { regions_of };

    ghost invariant = { IsKept };
}

impl Regions {
    /// The regions of a site by their numbers, which have the parts of one state. More than `u32::MAX` nodes take more memory than
    /// there is.
    pub fn new(directory: Directory, regions: Vec<Region>) -> Result<Self, NoMemory>
        requires count { length regions.items ≡ directory.regions }
        requires within { AllByRecursion (λ p. p.region < directory.regions) directory.patterns }
        requires parts { (seq : Sequence) × ArePartsOf directory.patterns regions.items seq }
        ensures patterns { IfOk result (λ made. made.patterns ≡ directory.patterns) }
        ensures regions { IfOk result (λ made. made.regions ≡ regions.items) }
        // all nodes are those of the state
        ensures joined { (seq : Sequence) → ArePartsOf directory.patterns regions.items seq → IfOk result (λ made. joined made ≡ state seq) }
    {
        let _ = directory.regions();
        if count_nodes(&regions) > u64::from(u32::MAX) {
            return Err(NoMemory);
        }
        Ok(Regions { directory, regions })
    }

    /// How many regions there are. They have the parts of one state.
    pub fn count(&self) -> usize
        ensures count { result ≡ length self.now.regions }
        ensures joined { AreJoined self.now }
        ensures there { (name : List ℕ) → region_of self.now.patterns name < result }
    {
        self.regions.len()
    }

    /// The region of this number.
    pub fn region(&self, number: usize) -> &Region
        requires { number < length self.now.regions }
        ensures there { slice_get self.now.regions number ≡ Some result.now }
        ensures at { region_at self.now number ≡ result.now }
    {
        &self.regions[number]
    }

    /// The region of a name. The regions have the parts of one state.
    pub fn region_of(&self, name: &[u8]) -> &Region
        ensures region { slice_get self.now.regions (region_of self.now.patterns name.now) ≡ Some result.now }
        ensures joined { AreJoined self.now }
    {
        &self.regions[self.directory.region_of(name) as usize]
    }

    /// How many nodes have values.
    pub fn nodes(&self) -> u32
        ensures { result ≡ globals.len (joined self.now) }
    {
        count_nodes(&self.regions) as u32
    }

    /// The node's value, if it has one.
    pub fn get(&self, key: &Key) -> Option<&[u8]>
        ensures { option_copied result ≡ globals.get (joined self.now) key.now }
    {
        self.region_of(key.name()).get(key)
    }

    /// Whether the node has a value, and whether it has descendants: 0, 1, 10 or 11.
    pub fn defined(&self, key: &Key) -> u8
        ensures { result ≡ evaluation.defined (joined self.now) key.now }
    {
        self.region_of(key.name()).defined(key)
    }

    /// The first node of the same name past the key, if there is one.
    pub fn after(&self, key: &Key) -> Result<Option<Key>, NoMemory>
        ensures { IfOk result (λ found. found ≡ after (joined self.now) key.now) }
    {
        self.region_of(key.name()).after(key)
    }

    /// The next subscript at the level below the node, past the last one, by its own bytes: of a number its numeral. An
    /// empty last one comes before all.
    pub fn order(&self, key: &Key, last: &[u8]) -> Result<Option<Bytes>, NoMemory>
        ensures next { IfOk result (λ found. option_map sub_of found ≡ evaluation.order (joined self.now) key.now last.now) }
        ensures a_key { IfOk result (λ found. IfSome found (λ sub. is_key (child_of key.now (sub_of sub)) ≡ true)) }
    {
        self.region_of(key.name()).order(key, last)
    }

    /// All nodes with their values, in M collation: the lists of the regions, merged.
    pub fn list(&self, alloc: Global) -> Result<Vec<Node<'_>>, NoMemory>
        ensures { IfOk result (λ made. map node_value made.items ≡ globals.entries (joined self.now)) }
    {
        let mut all = Vec::new(alloc);
        for region in &self.regions {
            all = merged(alloc, all, region.list(alloc)?)?;
        }
        Ok(all)
    }

    /// The node and those below it with their values, in M collation.
    pub fn list_under(&self, alloc: Global, top: &Key) -> Result<Vec<Node<'_>>, NoMemory>
        ensures { IfOk result (λ made. map node_value made.items ≡ filter (λ e. is_under top.now e.0) (globals.entries (joined self.now))) }
    {
        self.region_of(top.name()).list_under(alloc, top)
    }

    /// How many nodes these updates set in a region.
    fn sets_in(&self, number: usize, updates: &[Update]) -> usize
        ensures { result ≡ sets_in (updates_in self.now.patterns number (map update_value updates.now)) }
    {
        count_sets_in(&self.directory, number, updates)
    }

    /// Makes room in one region for changes that set so many nodes there.
    fn reserve_in(&mut self, number: usize, sets: usize) -> Result<(), NoMemory>
        requires { number < length self.old.regions }
        ensures ok { OnOk result ((s : Standing) → slice_get self.new.regions number ≡ Some s → HasRoom (stored_in s) sets) }
        ensures others { (r : ℕ) → (r ≡ number → ⊥) → slice_get self.new.regions r ≡ slice_get self.old.regions r }
        ensures same { IsSameJoined self.old self.new }
        ensures changed { AreChanged self.old self.new }
    {
        self.regions[number].reserve(sets)
    }

    /// Makes room in each region for its own among these updates.
    ///
    /// # Errors
    /// `NoMemory`, also where more than `u32::MAX` nodes might have values.
    pub fn reserve(&mut self, updates: &[Update]) -> Result<(), NoMemory>
        ensures ok { OnOk result (HasRoomFor self.new (map update_value updates.now)) }
        ensures same { IsSameJoined self.old self.new }
        ensures changed { AreChanged self.old self.new }
    {
        if ((u32::MAX - self.nodes()) as usize) < count_sets(updates) {
            return Err(NoMemory);
        }
        for number in 0..self.count() {
            let sets = self.sets_in(number, updates);
            self.reserve_in(number, sets)?;
        }
        Ok(())
    }

    /// Makes one change in the region of its name, where there is room. It takes no memory.
    pub fn make_one(&mut self, update: &Update)
        requires form { IsUpdate (update_value update.now) }
        requires room { HasRoomFor self.old (update_value update.now ∷ []) }
        ensures made { joined self.new ≡ apply (joined self.old) (update_value update.now) }
        ensures room { (more : List entry.Update) → HasRoomFor self.old (update_value update.now ∷ more) → HasRoomFor self.new more }
        ensures changed { AreChanged self.old self.new }
    {
        let number = self.directory.region_of(name_of(update)) as usize;
        self.regions[number].make_one(update);
    }

    /// Makes these changes in order, each in the region of its name, where there is room for them. It takes no memory.
    pub fn make(&mut self, updates: &[Update])
        requires forms { AllByRecursion IsUpdate (map update_value updates.now) }
        requires room { HasRoomFor self.old (map update_value updates.now) }
        ensures made { joined self.new ≡ fold apply (joined self.old) (map update_value updates.now) }
        ensures changed { AreChanged self.old self.new }
    {
        for update in updates {
            self.make_one(update);
        }
    }

    /// Makes these changes in order, each in the region of its name: all of them or, without memory, none.
    pub fn apply(&mut self, updates: &[Update]) -> Result<(), NoMemory>
        requires { AllByRecursion IsUpdate (map update_value updates.now) }
        ensures ok { OnOk result (joined self.new ≡ fold apply (joined self.old) (map update_value updates.now)) }
        ensures err { OnErr result (IsSameJoined self.old self.new) }
        ensures changed { AreChanged self.old self.new }
    {
        self.reserve(updates)?;
        self.make(updates);
        Ok(())
    }

    /// The number of the region in which a change is made.
    pub fn number_of(&self, update: &Update) -> usize
        ensures number { result ≡ region_of self.now.patterns (key_of (update_value update.now)).name }
        ensures inside { result < length self.now.regions }
    {
        self.directory.region_of(name_of(update)) as usize
    }

    /// The blocks of one region that a change there is about to change first behind the epoch, each of which needs an image before it's
    /// written.
    pub fn unlogged(
        &self,
        number: usize,
        alloc: Global,
        update: &Update,
    ) -> Result<Vec<u32>, NoMemory>
        requires { number < length self.now.regions }
        ensures { IfOk result (λ made. AllByRecursion (λ b. is_free (region_at self.now number).imaged b ≡ false) made.items) }
    {
        self.region(number).unlogged(alloc, update)
    }

    /// Logs the bytes of a block of one region as they stand on the file, where it may not be written yet. It sets no mark, so that what
    /// was logged can be given up: [`mark_image`](Regions::mark_image) is for when the journal has it.
    ///
    /// # Errors
    /// `Failed` only where the disk's count of faults rose, and `NoMemory`: nothing was logged then.
    pub fn log_image<D: Disk, L: Log>(
        &self,
        number: usize,
        disk: &mut D,
        block: u32,
        log: &mut L,
    ) -> Result<(), RegionError>
        requires inside { number < length self.now.regions }
        requires held { IfSome (D.disk disk.old).content (IsHeld (region_at self.now number)) }
        ensures logged { OnOk result (IfSome (D.disk disk.old).content (λ files. L.images log.new ≡ L.images log.old ++ first_image (region_at self.now number).imaged block (block_of (files (region_at self.now number).file) block))) }
        ensures none { OnErr result (L.images log.new ≡ L.images log.old) }
        ensures place { (f offset : ℕ) → IsErrOf result (RegionError.NotAFile f offset) → ⊥ }
        ensures reads { Reads (D.disk disk.old) (D.disk disk.new) }
        ensures faults { MayFail (D.disk disk.old).faults (D.disk disk.new).faults (λ fault. IsErrOf result (RegionError.Failed fault)) }
    {
        self.region(number).log_image(disk, block, log)
    }

    /// Keeps that a block of one region has an image: what [`log_image`](Regions::log_image) logged is in the journal.
    pub fn mark_image(&mut self, number: usize, block: u32)
        requires inside { number < length self.old.regions }
        ensures marks { region_at self.new number ≡ with_marks (region_at self.old number) (with_image (region_at self.old number).imaged block) }
        // behind the image, in whichever generation, the region's blocks are those of the same epoch
        ensures holds { (e : Chosen) (bytes : List ℕ) (g : ℕ) → HoldsRegion e bytes (region_at self.old number) → HoldsRegion (logged_all e (placed_images g (first_image (region_at self.old number).imaged block (block_of bytes block)))) bytes (region_at self.new number) }
        ensures same { IsSameElsewhere number self.old self.new }
    {
        self.regions[number].mark_image(block);
    }

    /// Logs what the file of one region has of each of its blocks that has changed and may not be written yet, in the blocks' order. It
    /// sets no mark, so that what was logged can be given up: [`mark_logged`](Regions::mark_logged) is for when the journal has it.
    ///
    /// # Errors
    /// `Failed` only where the disk's count of faults rose, and `NoMemory`: the first few of the images may be logged then, and are to
    /// be given up.
    pub fn log_changed<D: Disk, L: Log>(
        &self,
        number: usize,
        disk: &mut D,
        log: &mut L,
    ) -> Result<(), RegionError>
        requires inside { number < length self.now.regions }
        requires held { IfSome (D.disk disk.old).content (IsHeld (region_at self.now number)) }
        ensures logged { OnOk result (IfSome (D.disk disk.old).content (λ files. L.images log.new ≡ L.images log.old ++ changed_images (region_at self.now number) (files (region_at self.now number).file))) }
        ensures front { OnErr result (IfSome (D.disk disk.old).content (λ files. (n : ℕ) × (L.images log.new ≡ L.images log.old ++ images_below (region_at self.now number) (files (region_at self.now number).file) n))) }
        ensures place { (f offset : ℕ) → IsErrOf result (RegionError.NotAFile f offset) → ⊥ }
        ensures reads { Reads (D.disk disk.old) (D.disk disk.new) }
        ensures faults { MayFail (D.disk disk.old).faults (D.disk disk.new).faults (λ fault. IsErrOf result (RegionError.Failed fault)) }
    {
        self.region(number).log_changed(disk, log)
    }

    /// Keeps that each block of one region that has changed has an image: what [`log_changed`](Regions::log_changed) logged is in the
    /// journal.
    pub fn mark_logged(&mut self, number: usize)
        requires inside { number < length self.old.regions }
        ensures marks { region_at self.new number ≡ with_marks (region_at self.old number) (logged_marks (region_at self.old number)) }
        ensures logged { AreLogged (region_at self.new number) }
        // behind the images, in whichever generation, the region's blocks are those of the same epoch
        ensures holds { (e : Chosen) (bytes : List ℕ) (g : ℕ) → HoldsRegion e bytes (region_at self.old number) → HoldsRegion (logged_all e (placed_images g (changed_images (region_at self.old number) bytes))) bytes (region_at self.new number) }
        ensures same { IsSameElsewhere number self.old self.new }
    {
        self.regions[number].mark_logged();
    }

    /// Writes the blocks of one region that have changed, each of which stands past the epoch or has an image, and syncs the file. It
    /// answers the record of an EPOCH of so many entries, which may be appended then: the file's blocks below it hold exactly the
    /// region's globals.
    ///
    /// The images have to be in the journal for good before. A crash in the midst leaves of the file what goes back by them.
    ///
    /// # Errors
    /// `Failed` only where the disk's count of faults rose, and `NoMemory`. The region has the same globals in the same blocks, which
    /// are still those of the epoch and the file, and another flush may follow.
    pub fn flush<D: Disk>(
        &mut self,
        number: usize,
        disk: &mut D,
        closing: bool,
        entries: u64,
    ) -> Result<JnlRecord, RegionError>
        requires inside { number < length self.old.regions }
        requires held { IfSome (D.disk disk.old).content (IsHeld (region_at self.old number)) }
        requires logged { AreLogged (region_at self.old number) }
        ensures ok { OnOk result (region_at self.new number ≡ flushed (region_at self.old number)) }
        ensures err { OnErr result ((region_at self.new number ≡ region_at self.old number) ⊎ (region_at self.new number ≡ flushed (region_at self.old number))) }
        ensures logged { AreLogged (region_at self.new number) }
        ensures holds { (e : Chosen) → IfSome (D.disk disk.old).content (λ files. HoldsRegion e (files (region_at self.old number).file) (region_at self.old number)) → IfSome (D.disk disk.new).content (λ files. HoldsRegion e (files (region_at self.old number).file) (region_at self.new number)) }
        ensures same { IsSameElsewhere number self.old self.new }
        ensures epoch { IfOk result (λ made. record_value made ≡ journal.Epoch (record { closing = closing; number = entries; blocks = length (region_at self.old number).pool.leaves })) }
        ensures restores { OnOk result (IfSome (D.disk disk.new).content (λ files. (m : Mark) → m.blocks ≡ length (region_at self.old number).pool.leaves → Restores (image_state (fresh m) (block_of (files (region_at self.old number).file))) (region_at self.old number).globals)) }
        ensures durable { OnOk result (IfSome (D.disk disk.new).content (λ files. IsDurable (D.disk disk.new) (region_at self.old number).file (files (region_at self.old number).file))) }
        // as the file reads, and in each image at each moment of the call, at most blocks have changed that may be written
        ensures content { ReadsAfter (OnFile (region_at self.old number).file (IsCutShort (region_at self.old number))) (D.disk disk.old).content (D.disk disk.new).content }
        ensures any_moment { AtEachMoment (D.disk disk.old) (D.disk disk.new) (From (Image (D.disk disk.old)) (OnFile (region_at self.old number).file (IsCutShort (region_at self.old number)))) }
        ensures frame { OthersStay (Only (region_at self.old number).file) (D.disk disk.old) (D.disk disk.new) }
        ensures place { (f offset : ℕ) → IsErrOf result (RegionError.NotAFile f offset) → ⊥ }
        ensures faults { MayFail (D.disk disk.old).faults (D.disk disk.new).faults (λ fault. IsErrOf result (RegionError.Failed fault)) }
    {
        self.regions[number].flush(disk, closing, entries)
    }

    /// Counts the images of one region anew: the EPOCH of a flush is in the journal for good. No block of the region has changed since.
    pub fn begin_epoch(&mut self, number: usize, images: Imaged)
        requires inside { number < length self.old.regions }
        requires flushed { IsFlushed (region_at self.old number) }
        requires none { images ≡ replicate (length (region_at self.old number).pool.leaves) false }
        ensures begun { region_at self.new number ≡ with_marks (region_at self.old number) (replicate (length (region_at self.old number).pool.leaves) false) }
        ensures logged { AreLogged (region_at self.new number) }
        // the region's blocks are those of that EPOCH
        ensures holds { (e : Chosen) (bytes : List ℕ) (m : Mark) → m.blocks ≡ length (region_at self.old number).pool.leaves → HoldsRegion e bytes (region_at self.old number) → HoldsRegion (fresh m) bytes (region_at self.new number) }
        ensures same { IsSameElsewhere number self.old self.new }
    {
        self.regions[number].begin_epoch(images);
    }
}

impl Lookup for Regions {
    ghost seen = { joined };

    fn get(&self, key: &Key) -> Option<&[u8]> {
        Regions::get(self, key)
    }

    fn defined(&self, key: &Key) -> u8 {
        Regions::defined(self, key)
    }

    fn order(&self, key: &Key, last: &[u8]) -> Result<Option<Bytes>, NoMemory> {
        Regions::order(self, key, last)
    }

    fn nodes(&self) -> u32 {
        Regions::nodes(self)
    }

    fn after(&self, key: &Key) -> Result<Option<Key>, NoMemory> {
        Regions::after(self, key)
    }
}
