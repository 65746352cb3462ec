//! The leaves of a pool in the order of their chain.
ghost use Rattle.std.specs.Prelude.{◌≡◌, ◌≢◌, ◌≤◌, ◌<◌, ◌+◌, ◌-◌, ℕ, true, [], ◌∷◌, length, take, drop, IfOk, IfErr, IfSome, OnOk, OnErr, IsErrOf};
ghost use Rattle.std.specs.List.{AllByRecursion};
ghost use Rattle.std.specs.Ordering.{nat_cmp};
ghost use Rattle.std.specs.Cmp.Lexicographic.{slice_cmp};
ghost use Rattle.std.specs.FinMap as globals;
ghost use Rattle.global_defs.specs.declared.limits.TheConstants.{LONGEST_VALUE};
ghost use Rattle.disk_defs.specs.Disk.{Image, From, OnFile, AtEachMoment, ReadsAfter, MayFailUncounted};
ghost use Rattle.disk_defs.specs.Frames.{Only, OthersStay};
ghost use Rattle.global_defs.specs.Entry.{Globals};
ghost use Rattle.journal_defs.specs.Leaves.{ROOM, IsEncoded, IsCell, Decodes, cells_of};
ghost use Rattle.block_fmt.specs.Cells.{blank, size_of, without_between, StandsIn, BelongsAt};
ghost use Rattle.block_pool.specs.Pool.{cleaned, CleanStand, AllStand, ChangesDirty};
ghost use Rattle.gvt_leaf.specs.Chained.{leaf_cells, all_cells, replaced};
ghost use Rattle.gvt_leaf.specs.Clean.{KeepsClean};
ghost use Rattle.gvt_leaf.specs.Order.{AreRising};
ghost use Rattle.gvt_leaf.specs.Stored.{blocks_in};
ghost use Rattle.gvt_leaf.specs.Walked.{BreaksAt};

use super::error::ChainError;
use super::pages::{cut_in, move_out, put_in, relink, settle};
use super::walk::{Walked, unseen, walk};
use block_fmt::Block;
use block_pool::{BlockPool, PoolError};
use gvn_key::NoMemory;
use repl_disk::Disk;
use std::alloc::Global;
use std::marker::Model;

/// The leaves of a region in the order of their chain, which begins with block 0.
#[derive(Debug, Drop)]
pub(crate) struct Chain {
    pool: BlockPool,
    /// The leaves' blocks.
    order: Vec<u32>,
    /// The blocks that are no leaves.
    free: Vec<u32>,
    /// Empty blocks for leaves that are added.
    spare: Vec<Block>,
}

impl Model for Chain {
    ghost use Rattle.gvt_leaf.specs.Chained as defs;

    ghost Value = { defs.Chained };

    ghost coded = { defs.chained_code };

    ghost use Rattle.gvt_leaf.specs.Inside.{chained, IsChained};

    ghost view = { chained };

    ghost invariant = { IsChained };
}

impl Chain {
    /// How many leaves there are, one at least.
    pub(crate) fn len(&self) -> usize
        ensures len { result ≡ length self.now.leaves }
        ensures some { 0 < length self.now.leaves }
        ensures forms { AllByRecursion IsCell (all_cells self.now.leaves) }
    {
        self.order.len()
    }

    /// The leaf at a place.
    pub(crate) fn leaf(&self, i: usize) -> &Block
        requires { i < length self.now.leaves }
        ensures { result.now.cells ≡ leaf_cells self.now.leaves i }
    {
        self.pool.block(self.order[i])
    }

    /// The blocks of the leaves from a place up to the one before another.
    pub(crate) fn blocks(&self, from: usize, to: usize) -> &[u32]
        requires order { from ≤ to }
        requires inside { to ≤ length self.now.leaves }
        ensures { length result.now ≡ to - from }
    {
        &self.order[from..to]
    }

    /// The block that is no leaf and that the next new leaf takes, if there is one.
    pub(crate) fn next_free(&self) -> Option<u32> {
        self.free.last().copied()
    }

    /// Puts a cell into the leaf at a place.
    pub(crate) fn put(&mut self, i: usize, key: &[u8], value: &[u8])
        requires inside { i < length self.old.leaves }
        requires fits { size_of (globals.put (slice_cmp nat_cmp) key.now value.now (leaf_cells self.old.leaves i)) ≤ ROOM }
        requires key { IsEncoded key.now }
        requires value { length value.now ≤ LONGEST_VALUE }
        ensures leaves { self.new.leaves ≡ replaced self.old.leaves i (globals.put (slice_cmp nat_cmp) key.now value.now (leaf_cells self.old.leaves i) ∷ []) }
        ensures room { self.new.pool.room ≡ self.old.pool.room }
        ensures clean { KeepsClean self.old.pool self.new.pool }
    {
        let place = self.leaf(i).find(key);
        self.put_at(i, place, key, value);
    }

    /// Puts a cell into the leaf at a place, where it is known what [`find`](Block::find) answers of its key there.
    pub(crate) fn put_at(&mut self, i: usize, place: Result<u32, u32>, key: &[u8], value: &[u8])
        requires inside { i < length self.old.leaves }
        requires found { IfOk place (StandsIn (leaf_cells self.old.leaves i) key.now) }
        requires place { IfErr place (BelongsAt (leaf_cells self.old.leaves i) key.now) }
        requires fits { size_of (globals.put (slice_cmp nat_cmp) key.now value.now (leaf_cells self.old.leaves i)) ≤ ROOM }
        requires key { IsEncoded key.now }
        requires value { length value.now ≤ LONGEST_VALUE }
        ensures leaves { self.new.leaves ≡ replaced self.old.leaves i (globals.put (slice_cmp nat_cmp) key.now value.now (leaf_cells self.old.leaves i) ∷ []) }
        ensures room { self.new.pool.room ≡ self.old.pool.room }
        ensures clean { KeepsClean self.old.pool self.new.pool }
    {
        put_in(&mut self.pool, self.order[i], place, key, value);
    }

    /// Takes cells of the leaf at a place away.
    pub(crate) fn cut(&mut self, i: usize, from: u32, to: u32)
        requires inside { i < length self.old.leaves }
        requires order { from ≤ to }
        requires cells { to ≤ length (leaf_cells self.old.leaves i) }
        ensures leaves { self.new.leaves ≡ replaced self.old.leaves i (without_between (leaf_cells self.old.leaves i) from to ∷ []) }
        ensures room { self.new.pool.room ≡ self.old.pool.room }
        ensures clean { KeepsClean self.old.pool self.new.pool }
    {
        cut_in(&mut self.pool, self.order[i], from, to);
    }

    /// Cuts the leaf at a place in two: its cells from one on go into a new leaf behind it. It uses up room.
    pub(crate) fn split(&mut self, i: usize, at: u32)
        requires inside { i < length self.old.leaves }
        requires cells { at ≤ length (leaf_cells self.old.leaves i) }
        requires room { 1 ≤ self.old.pool.room }
        ensures leaves { self.new.leaves ≡ replaced self.old.leaves i (take at (leaf_cells self.old.leaves i) ∷ drop at (leaf_cells self.old.leaves i) ∷ []) }
        ensures room { self.old.pool.room ≡ self.new.pool.room + 1 }
        ensures clean { KeepsClean self.old.pool self.new.pool }
    {
        let here = self.order[i];
        let Some(mut fresh) = self.spare.pop() else {
            unreachable!();
        };
        fresh.set_next(self.pool.block(here).next());
        move_out(&mut self.pool, here, at, &mut fresh);
        let there = settle(&mut self.pool, &mut self.free, fresh);
        relink(&mut self.pool, here, there);
        if self.order.insert(i + 1, there).is_err() {
            unreachable!();
        }
    }

    /// Takes the leaf behind a place out of the chain.
    pub(crate) fn unlink_behind(&mut self, i: usize)
        requires { i + 1 < length self.old.leaves }
        ensures leaves { self.new.leaves ≡ replaced self.old.leaves (i + 1) [] }
        ensures room { self.new.pool.room ≡ self.old.pool.room }
        ensures clean { KeepsClean self.old.pool self.new.pool }
    {
        let here = self.order[i];
        let gone = self.order.remove(i + 1);
        let next = self.pool.block(gone).next();
        relink(&mut self.pool, here, next);
        if self.free.push(gone).is_err() {
            unreachable!();
        }
    }

    /// One empty leaf, in a block of its own.
    pub(crate) fn new(alloc: Global) -> Result<Self, NoMemory>
        ensures leaves { IfOk result (λ made. made.leaves ≡ [] ∷ []) }
        ensures blocks { IfOk result (λ made. made.pool.leaves ≡ blank ∷ []) }
        ensures dirty { IfOk result (λ made. made.pool.dirty ≡ true ∷ []) }
    {
        let mut pool = BlockPool::new(alloc);
        pool.add(Block::new(alloc, 0)?, true)?;
        let mut order = Vec::new(alloc);
        order.push(0)?;
        let mut free = Vec::new(alloc);
        free.reserve(1)?;
        Ok(Chain {
            pool,
            order,
            free,
            spare: Vec::new(alloc),
        })
    }

    /// The chain of a pool's leaves from block 0 on.
    ///
    /// # Errors
    /// `Broken` with the first block at which the chain breaks, and `NoMemory`.
    pub(crate) fn open(alloc: Global, pool: BlockPool) -> Result<Self, ChainError>
        ensures rising { IfOk result (λ made. AreRising made.leaves) }
        ensures forms { IfOk result (λ made. AllByRecursion IsCell (all_cells made.leaves)) }
        ensures decodes { (g : Globals) → IfOk result (λ made. all_cells made.leaves ≡ cells_of g → Decodes (blocks_in pool.leaves) g) }
        ensures blocks { IfOk result (λ made. made.pool.leaves ≡ pool.leaves) }
        ensures dirty { IfOk result (λ made. made.pool.dirty ≡ pool.dirty) }
        ensures broken { (block : ℕ) → IsErrOf result (ChainError.Broken block) → BreaksAt pool block }
    {
        let _ = pool.count();
        let Walked { mut order, seen } = walk(alloc, &pool)?;
        let mut free = unseen(alloc, seen.as_slice())?;
        order.reserve(free.len())?;
        free.reserve(order.len())?;
        Ok(Chain {
            pool,
            order,
            free,
            spare: Vec::new(alloc),
        })
    }

    /// Makes room for so many leaves more.
    pub(crate) fn reserve(&mut self, more: usize) -> Result<(), NoMemory>
        ensures room { OnOk result (more ≤ self.new.pool.room) }
        ensures kept { self.old.pool.room ≤ self.new.pool.room }
        ensures leaves { self.new.leaves ≡ self.old.leaves }
        ensures blocks { self.new.pool.leaves ≡ self.old.pool.leaves }
        ensures dirty { self.new.pool.dirty ≡ self.old.pool.dirty }
    {
        while self.spare.len() < more {
            self.add_spare()?;
        }
        Ok(())
    }

    /// Makes room for one leaf more.
    fn add_spare(&mut self) -> Result<(), NoMemory>
        ensures room { OnOk result (self.new.pool.room ≡ self.old.pool.room + 1) }
        ensures kept { self.old.pool.room ≤ self.new.pool.room }
        ensures leaves { self.new.leaves ≡ self.old.leaves }
        ensures blocks { self.new.pool.leaves ≡ self.old.pool.leaves }
        ensures dirty { self.new.pool.dirty ≡ self.old.pool.dirty }
    {
        let spare = self.spare.len() + 1;
        let Ok(more) = u32::try_from(spare) else {
            return Err(NoMemory);
        };
        self.pool.reserve(more)?;
        let all = self.pool.count() as usize + spare;
        self.order.reserve(all - self.order.len())?;
        self.free.reserve(all - self.free.len())?;
        let block = Block::new(*self.order.allocator(), 0)?;
        self.spare.push(block)?;
        Ok(())
    }

    /// The blocks.
    pub(crate) fn pool(&self) -> &BlockPool
        ensures blocks { result.now.leaves ≡ self.now.pool.leaves }
        ensures dirty { result.now.dirty ≡ self.now.pool.dirty }
        ensures decodes { (g : Globals) → AllByRecursion (λ l. l ≢ []) (drop 1 self.now.leaves) → all_cells self.now.leaves ≡ cells_of g
            → Decodes (blocks_in self.now.pool.leaves) g }
    {
        &self.pool
    }

    /// Writes the dirty blocks to a file.
    pub(crate) fn write_out<D: Disk>(&mut self, disk: &mut D, file: u32) -> Result<(), PoolError>
        requires clean { IfSome (D.disk disk.old).content (λ files. CleanStand self.old.pool (files file)) }
        ensures ok { OnOk result (self.new ≡ record { leaves = self.old.leaves; pool = cleaned self.old.pool }) }
        ensures err { OnErr result (self.new ≡ self.old) }
        ensures written { OnOk result (IfSome (D.disk disk.new).content (λ files. AllStand self.new.pool (files file))) }
        ensures content { ReadsAfter (OnFile file (ChangesDirty self.old.pool)) (D.disk disk.old).content (D.disk disk.new).content }
        ensures any_moment { AtEachMoment (D.disk disk.old) (D.disk disk.new) (From (Image (D.disk disk.old)) (OnFile file (ChangesDirty self.old.pool))) }
        ensures frame { OthersStay (Only file) (D.disk disk.old) (D.disk disk.new) }
        ensures faults { MayFailUncounted (D.disk disk.old).faults (D.disk disk.new).faults (IsErrOf result PoolError.Failed) }
        ensures no_memory { IsErrOf result PoolError.NoMemory → (D.disk disk.new).content ≡ (D.disk disk.old).content }
    {
        self.pool.write_out(disk, file)
    }

    /// How many cells there are. More than `u32::MAX` take more memory than there is.
    pub(crate) fn count_cells(&self) -> Result<u32, NoMemory>
        ensures { IfOk result (λ count. count ≡ length (all_cells self.now.leaves)) }
    {
        let mut count: u32 = 0;
        for i in 0..self.len() {
            let Some(more) = count.checked_add(self.leaf(i).len()) else {
                return Err(NoMemory);
            };
            count = more;
        }
        Ok(count)
    }
}
