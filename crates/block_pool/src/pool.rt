//! The blocks of a file.
ghost use Rattle.std.specs.Prelude.{◌≡◌, ◌≤◌, ◌<◌, ◌+◌, ◌*◌, ◌∷◌, ◌++◌, [], List, Bool, true, false, length, map, replicate, slice_index_or, slice_set, vec_len, vec_capacity, if◌then◌else◌, IsOk, OnOk, OnErr, IsErrOf, IfSome};
ghost use Rattle.std.specs.Borrow.{sem};
ghost use Rattle.disk_defs.specs.Disk.{Image, From, OnFile, AtEachMoment, ReadsAfter, HasCause, MayFailUncounted, written, Torn, Passes, RoomUsed};
ghost use Rattle.disk_defs.specs.Frames.{Only, OthersStay};
ghost use Rattle.journal_defs.specs.Leaves.{IsLeaf, spelled_leaf};
ghost use Rattle.block_pool.specs.Pool.{leaf_at, is_dirty, marked, changed, IsAdded, cleaned, CleanStand, AllStand, StandBelow, ChangesDirty, numbers_from, dirty_numbers, dirty_from, WritesDirty};

use crate::error::PoolError;
use block_fmt::Block;
use gvn_key::NoMemory;
use repl_disk::{Disk, Failed};
use std::alloc::Global;
use std::marker::Model;

/// How many bytes a block has on the file.
const BLOCK: u64 = global_defs::limits::BLOCK as u64;

/// Writes a block's bytes at its place.
fn write_block<D: Disk>(
    block: &Block,
    disk: &mut D,
    file: u32,
    number: u32,
    buffer: &mut [u8],
) -> Result<(), Failed>
    requires buffer { length buffer.old ≡ 4096 }
    requires place { IfSome (D.disk disk.old).content (λ files. 4096 * number ≤ length (files file)) }
    requires room { (D.disk disk.old).has_room file 1 4096 }
    ensures wrote { OnOk result (ReadsAfter (OnFile file (λ old new. new ≡ written old (4096 * number) (spelled_leaf block.now))) (D.disk disk.old).content (D.disk disk.new).content) }
    ensures content { ReadsAfter (OnFile file (Torn (4096 * number) 4096)) (D.disk disk.old).content (D.disk disk.new).content }
    ensures passes { Passes (OnFile file (Torn (4096 * number) 4096)) (D.disk disk.old) (D.disk disk.new) }
    ensures room { RoomUsed file 4096 (D.disk disk.old) (D.disk disk.new) }
    ensures form { IsLeaf block.now }
    ensures cause { HasCause (D.disk disk.old).faults (D.disk disk.new).faults result }
{
    block.encode(buffer);
    disk.write_at(file, BLOCK * number as u64, buffer)
}

/// A block, and whether it may differ from the file.
#[derive(Debug, Drop)]
struct Page {
    block: Block,
    dirty: bool,
}

/// Blocks by their numbers, from 0 on without a gap, each with a mark where it may differ from the file.
#[derive(Debug, Drop)]
pub struct BlockPool {
    pages: Vec<Page>,
    /// The numbers of the marked blocks, in rising order.
    changed: Vec<u32>,
}

/// Puts the number of a block that is to be marked to its place among the changed ones, unless it's marked already.
fn list_number(changed: &mut Vec<u32>, dirty: bool, number: u32)
    requires room { dirty ≡ false → vec_len changed.old < vec_capacity changed.old }
    ensures listed { (marks : List Bool) → changed.old.items ≡ numbers_from 0 marks → number < length marks → slice_index_or marks number false ≡ dirty → changed.new.items ≡ numbers_from 0 (slice_set marks number true) }
    ensures capacity { vec_capacity changed.new ≡ vec_capacity changed.old }
{
    if dirty {
        return;
    }
    if let Err(place) = changed.binary_search(&number) {
        if changed.insert(place, number).is_err() {
            unreachable!();
        }
    }
}

/// Puts the number of a block behind those of the changed ones, where it's to be marked.
fn list_last(changed: &mut Vec<u32>, dirty: bool, number: u32)
    requires room { vec_len changed.old < vec_capacity changed.old }
    ensures items { changed.new.items ≡ (if dirty then changed.old.items ++ number ∷ [] else changed.old.items) }
    ensures capacity { vec_capacity changed.new ≡ vec_capacity changed.old }
{
    if dirty {
        changed.push_reserved(number);
    }
}

/// Takes the marks of the changed pages away.
fn take_marks(pages: &mut [Page], changed: &[u32])
    requires { changed.now ≡ numbers_from 0 (map (λ q. q.dirty) pages.old) }
    ensures blocks { map (λ q. q.block) pages.new ≡ map (λ q. q.block) pages.old }
    ensures marks { map (λ q. q.dirty) pages.new ≡ replicate (length pages.old) false }
{
    for number in changed {
        pages[*number as usize].dirty = false;
    }
}

impl Model for BlockPool {
    ghost use Rattle.block_pool.specs.Code as defs;

    ghost Value = { defs.Pool };

    ghost coded = { defs.pool_code };

    ghost use Rattle.block_pool.specs.Inside.{pool_of, IsPool};

    ghost view = { pool_of };

    ghost invariant = { IsPool };
}

impl BlockPool {
    ghost use Rattle.block_pool.specs.Lending.{LendsBlock};

    /// A pool of no blocks. It takes no memory yet.
    pub fn new(alloc: Global) -> Self
        ensures leaves { result.leaves ≡ [] }
        ensures dirty { result.dirty ≡ [] }
    {
        BlockPool {
            pages: Vec::new(alloc),
            changed: Vec::new(alloc),
        }
    }

    /// How many blocks there are.
    pub fn count(&self) -> u32
        ensures count { result ≡ length self.now.leaves }
        ensures marks { length self.now.dirty ≡ length self.now.leaves }
    {
        self.pages.len() as u32
    }

    /// The block of this number.
    pub fn block(&self, number: u32) -> &Block
        requires { number < length self.now.leaves }
        ensures { result.now ≡ leaf_at self.now number }
    {
        &self.pages[number as usize].block
    }

    /// Whether the block of this number may differ from the file.
    pub fn is_dirty(&self, number: u32) -> bool
        requires { number < length self.now.leaves }
        ensures { result ≡ is_dirty self.now number }
    {
        self.pages[number as usize].dirty
    }

    /// The numbers of the blocks that may differ from the file, in rising order.
    pub fn dirty_numbers(&self) -> &[u32]
        ensures numbers { result.now ≡ dirty_numbers self.now }
        ensures marks { length self.now.dirty ≡ length self.now.leaves }
    {
        &self.changed
    }

    /// Marks the block of this number.
    pub fn mark(&mut self, number: u32)
        requires { number < length self.old.leaves }
        ensures { self.new ≡ marked self.old number }
    {
        let dirty = self.pages[number as usize].dirty;
        list_number(&mut self.changed, dirty, number);
        self.pages[number as usize].dirty = true;
    }

    /// Puts another block in place of the one of this number, and marks it. It takes no memory, and answers Ok.
    pub fn change(&mut self, number: u32, to: Block) -> Result<(), NoMemory>
        requires { number < length self.old.leaves }
        ensures done { IsOk result }
        ensures changed { self.new ≡ changed self.old number to }
    {
        let dirty = self.pages[number as usize].dirty;
        list_number(&mut self.changed, dirty, number);
        self.pages[number as usize] = Page {
            block: to,
            dirty: true,
        };
        Ok(())
    }

    /// The block of this number, to be changed in its place. It is marked.
    pub fn block_mut(&mut self, number: u32) -> &mut Block
        requires { number < length self.old.leaves }
        ensures* writes_back { sem 𝓛 (LendsBlock self.entry number result) }
        ensures block { result.now ≡ leaf_at self.old number }
    {
        let page = &mut self.pages[number as usize];
        list_number(&mut self.changed, page.dirty, number);
        page.dirty = true;
        &mut page.block
    }

    /// Makes room for so many more blocks, or answers [`NoMemory`], where there are no numbers for them too.
    pub fn reserve(&mut self, more: u32) -> Result<(), NoMemory>
        ensures room { OnOk result (more ≤ self.new.room) }
        ensures leaves { self.new.leaves ≡ self.old.leaves }
        ensures dirty { self.new.dirty ≡ self.old.dirty }
        ensures kept { self.old.room ≤ self.new.room }
        ensures enough { more ≤ self.old.room → IsOk result }
    {
        if u32::MAX as usize - self.pages.len() < more as usize {
            return Err(NoMemory);
        }
        self.pages.reserve(more as usize)?;
        self.changed
            .reserve(self.pages.len() + more as usize - self.changed.len())?;
        Ok(())
    }

    /// Adds a block behind the others, under the next number. One that stands on the file isn't marked. Where there is room it
    /// takes no memory, and answers Ok.
    pub fn add(&mut self, block: Block, dirty: bool) -> Result<(), NoMemory>
        ensures added { OnOk result (IsAdded self.old self.new block dirty) }
        ensures err { OnErr result (self.new ≡ self.old) }
        ensures room { 1 ≤ self.old.room → IsOk result }
    {
        if self.pages.len() >= u32::MAX as usize {
            return Err(NoMemory);
        }
        self.pages.reserve(1)?;
        let number = self.pages.len();
        self.changed.reserve(number + 1 - self.changed.len())?;
        list_last(&mut self.changed, dirty, number as u32);
        if self.pages.push(Page { block, dirty }).is_err() {
            unreachable!();
        }
        Ok(())
    }

    /// How many blocks are marked.
    fn count_dirty(&self) -> u32
        ensures { result ≡ dirty_from self.now 0 }
    {
        self.changed.len() as u32
    }

    /// Writes a block where it is marked, and the blocks below it stand on the file.
    fn write_one<D: Disk>(
        &self,
        disk: &mut D,
        file: u32,
        number: u32,
        buffer: &mut [u8],
    ) -> Result<(), Failed>
        requires inside { number < length self.now.leaves }
        requires buffer { length buffer.old ≡ 4096 }
        requires below { IfSome (D.disk disk.old).content (λ files. StandBelow self.now number (files file)) }
        requires clean { IfSome (D.disk disk.old).content (λ files. CleanStand self.now (files file)) }
        requires room { (D.disk disk.old).has_room file (dirty_from self.now number) (4096 * dirty_from self.now number) }
        ensures below { OnOk result (IfSome (D.disk disk.new).content (λ files. StandBelow self.now (number + 1) (files file))) }
        ensures clean { OnOk result (IfSome (D.disk disk.new).content (λ files. CleanStand self.now (files file))) }
        ensures room { OnOk result ((D.disk disk.new).has_room file (dirty_from self.now (number + 1)) (4096 * dirty_from self.now (number + 1))) }
        ensures writes { WritesDirty self.now file (D.disk disk.old) (D.disk disk.new) }
        ensures cause { HasCause (D.disk disk.old).faults (D.disk disk.new).faults result }
    {
        let page = &self.pages[number as usize];
        if !page.dirty {
            return Ok(());
        }
        write_block(&page.block, disk, file, number, buffer)
    }

    /// Writes the marked blocks, in rising order.
    fn write_dirty<D: Disk>(&self, disk: &mut D, file: u32) -> Result<(), Failed>
        requires clean { IfSome (D.disk disk.old).content (λ files. CleanStand self.now (files file)) }
        requires room { (D.disk disk.old).has_room file (dirty_from self.now 0) (4096 * dirty_from self.now 0) }
        ensures all { OnOk result (IfSome (D.disk disk.new).content (λ files. AllStand self.now (files file))) }
        ensures writes { WritesDirty self.now file (D.disk disk.old) (D.disk disk.new) }
        ensures cause { HasCause (D.disk disk.old).faults (D.disk disk.new).faults result }
    {
        let mut buffer = [0; 4096];
        let numbers = self.dirty_numbers();
        for number in numbers {
            self.write_one(disk, file, *number, &mut buffer)?;
        }
        Ok(())
    }

    /// Takes all marks away.
    fn clean(&mut self)
        ensures { self.new ≡ cleaned self.old }
    {
        take_marks(&mut self.pages, &self.changed);
        self.changed.clear();
    }

    /// Writes the dirty blocks to a file, in rising order, and takes their marks away. It syncs nothing.
    ///
    /// # Errors
    /// `Failed` only where the disk's count rose: the marks stay then, and the blocks can be written again. `NoMemory` before
    /// anything is written.
    pub fn write_out<D: Disk>(&mut self, disk: &mut D, file: u32) -> Result<(), PoolError>
        requires clean { IfSome (D.disk disk.old).content (λ files. CleanStand self.old (files file)) }
        ensures ok { OnOk result (self.new ≡ cleaned self.old) }
        ensures err { OnErr result (self.new ≡ self.old) }
        ensures written { OnOk result (IfSome (D.disk disk.new).content (λ files. AllStand self.new (files file))) }
        // as the file reads, and in each image at each moment of the call, at most the dirty blocks have other bytes than before
        ensures content { ReadsAfter (OnFile file (ChangesDirty self.old)) (D.disk disk.old).content (D.disk disk.new).content }
        ensures any_moment { AtEachMoment (D.disk disk.old) (D.disk disk.new) (From (Image (D.disk disk.old)) (OnFile file (ChangesDirty self.old))) }
        ensures frame { OthersStay (Only file) (D.disk disk.old) (D.disk disk.new) }
        ensures faults { MayFailUncounted (D.disk disk.old).faults (D.disk disk.new).faults (IsErrOf result PoolError.Failed) }
        ensures no_memory { IsErrOf result PoolError.NoMemory → (D.disk disk.new).content ≡ (D.disk disk.old).content }
    {
        let dirty = self.count_dirty();
        if disk.room(file, dirty, BLOCK * dirty as u64).is_err() {
            return Err(PoolError::NoMemory);
        }
        self.write_dirty(disk, file)?;
        self.clean();
        Ok(())
    }
}
