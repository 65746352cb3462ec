//! Globals in a chain of leaves.
ghost use Rattle.std.specs.Prelude.{◌≡◌, ◌≤◌, ◌<◌, ◌+◌, ◌∷◌, [], ℕ, true, Some, is_some, nat_eq, if◌then◌else◌, map, filter, fold, option_map, IfOk, IfSome, OnOk, OnErr, IsErrOf};
ghost use Rattle.std.specs.Option.{option_copied};
ghost use Rattle.std.specs.List.{AllByRecursion, starts_with};
ghost use Rattle.std.specs.Ordering.{nat_cmp, eq_by_cmp};
ghost use Rattle.std.specs.Cmp.Lexicographic.{slice_cmp};
ghost use Rattle.std.specs.FinMap as globals;
ghost use Rattle.disk_defs.specs.Disk.{Image, From, OnFile, AtEachMoment, ReadsAfter, MayFailUncounted};
ghost use Rattle.disk_defs.specs.Frames.{Only, OthersStay};
ghost use Rattle.global_defs.specs.Key.{sub_of};
ghost use Rattle.global_defs.specs.Valid.{is_key};
ghost use Rattle.global_defs.specs.Entry.{Globals, is_under, apply};
ghost use Rattle.global_defs.specs.Fields.{IsUpdate};
ghost use Rattle.global_defs.specs.Encoded.{encoded};
ghost use Rattle.global_defs.specs.Evaluation as evaluation;
ghost use Rattle.gvn_key.specs.Terms.{update_value};
ghost use Rattle.gvn_key.specs.Faults.{child_of};
ghost use Rattle.gvn_globals.specs.Walks.{after, tested, sub_under};
ghost use Rattle.journal_defs.specs.Leaves.{Decodes, IsEncoded};
ghost use Rattle.block_laws.specs.Nodes.{HaveKeys, HaveShortValues};
ghost use Rattle.block_fmt.specs.Cells.{blank};
ghost use Rattle.block_pool.specs.Pool.{cleaned, CleanStand, AllStand, ChangesDirty};
ghost use Rattle.gvt_leaf.specs.Nodes.{key_in};
ghost use Rattle.gvt_leaf.specs.Clean.{KeepsClean};
ghost use Rattle.gvt_leaf.specs.Listed.{node_value};
ghost use Rattle.gvt_leaf.specs.Stored.{blocks_in, sets_of, sets_in, HasRoom, IsSame};
ghost use Rattle.gvt_leaf.specs.Walked.{BreaksAt};

use super::chain::Chain;
use super::edits::{kill, remove, set};
use super::error::ChainError;
use super::nodes::{Node, key_of, nodes_under};
use super::seats::{first_past, seat, value_of};
use super::touched::{touched_by_kill, touched_by_removal, touched_by_set};
use block_pool::{BlockPool, PoolError};
use gvn_globals::Lookup;
use gvn_key::terms::Update;
use gvn_key::{Bytes, Key, NoMemory};
use repl_disk::Disk;
use std::alloc::Global;
use std::cmp::Ordering;
use std::marker::Model;

/// A region's globals in a chain of leaves, ordered by their encoded keys. A node is found, set or removed in a time that grows with
/// the logarithm of how many there are.
#[derive(Debug, Drop)]
pub struct Leaves {
    chain: Chain,
    nodes: u32,
}

impl Model for Leaves {
    ghost use Rattle.gvt_leaf.specs.Stored as defs;

    ghost Value = { defs.Stored };

    ghost coded = { defs.stored_code };

    ghost use Rattle.gvt_leaf.specs.StoredInside.{stored, IsStored};

    ghost view = { stored };

    ghost invariant = { IsStored };
}

impl Leaves {
    /// No nodes, in one empty leaf.
    pub fn new(alloc: Global) -> Result<Self, NoMemory>
        ensures globals { IfOk result (λ made. made.globals ≡ globals.empty) }
        ensures blocks { IfOk result (λ made. made.pool.leaves ≡ blank ∷ []) }
        ensures dirty { IfOk result (λ made. made.pool.dirty ≡ true ∷ []) }
    {
        Ok(Leaves {
            chain: Chain::new(alloc)?,
            nodes: 0,
        })
    }

    /// The globals of a pool's blocks.
    ///
    /// # Errors
    /// `Broken` with the first block at which the chain of leaves breaks, exactly where the blocks hold no globals, and `NoMemory`,
    /// which more than `u32::MAX` nodes take too.
    pub fn open(alloc: Global, pool: BlockPool) -> Result<Self, ChainError>
        ensures decodes { IfOk result (λ made. Decodes (blocks_in pool.leaves) made.globals) }
        ensures keys { IfOk result (λ made. HaveKeys made.globals) }
        ensures blocks { IfOk result (λ made. made.pool.leaves ≡ pool.leaves) }
        ensures dirty { IfOk result (λ made. made.pool.dirty ≡ pool.dirty) }
        ensures broken { (block : ℕ) → IsErrOf result (ChainError.Broken block) → BreaksAt pool block }
        ensures none { (block : ℕ) (g : Globals) → IsErrOf result (ChainError.Broken block) → HaveKeys g → Decodes (blocks_in pool.leaves) g → ⊥ }
    {
        let chain = Chain::open(alloc, pool)?;
        let nodes = chain.count_cells()?;
        Ok(Leaves { chain, nodes })
    }

    /// The blocks, which spell these globals.
    pub fn pool(&self) -> &BlockPool
        ensures blocks { result.now.leaves ≡ self.now.pool.leaves }
        ensures dirty { result.now.dirty ≡ self.now.pool.dirty }
        ensures decodes { Decodes (blocks_in self.now.pool.leaves) self.now.globals }
        ensures keys { HaveKeys self.now.globals }
        ensures values { HaveShortValues self.now.globals }
    {
        self.chain.pool()
    }

    /// Writes the dirty blocks to a file, in rising order, and marks no block any more. It syncs nothing.
    pub fn write_out<D: Disk>(&mut self, disk: &mut D, file: u32) -> Result<(), PoolError>
        requires clean { IfSome (D.disk disk.old).content (λ files. CleanStand self.old.pool (files file)) }
        ensures ok { OnOk result (self.new ≡ record { globals = self.old.globals; pool = cleaned self.old.pool }) }
        ensures err { OnErr result (self.new ≡ self.old) }
        ensures written { OnOk result (IfSome (D.disk disk.new).content (λ files. AllStand self.new.pool (files file))) }
        // as the file reads, and in each image at each moment of the call, at most the dirty blocks have other bytes than before
        ensures content { ReadsAfter (OnFile file (ChangesDirty self.old.pool)) (D.disk disk.old).content (D.disk disk.new).content }
        ensures any_moment { AtEachMoment (D.disk disk.old) (D.disk disk.new) (From (Image (D.disk disk.old)) (OnFile file (ChangesDirty self.old.pool))) }
        ensures frame { OthersStay (Only file) (D.disk disk.old) (D.disk disk.new) }
        ensures faults { MayFailUncounted (D.disk disk.old).faults (D.disk disk.new).faults (IsErrOf result PoolError.Failed) }
        ensures no_memory { IsErrOf result PoolError.NoMemory → (D.disk disk.new).content ≡ (D.disk disk.old).content }
    {
        self.chain.write_out(disk, file)
    }

    /// How many nodes have values.
    pub fn nodes(&self) -> u32
        ensures { result ≡ globals.len self.now.globals }
    {
        self.nodes
    }

    /// The node's value, if it has one.
    pub fn get(&self, key: &Key) -> Option<&[u8]>
        ensures { option_copied result ≡ globals.get self.now.globals key.now }
    {
        value_of(&self.chain, key.as_encoded())
    }

    /// Whether the node has a value, and whether it has descendants: 0, 1, 10 or 11.
    pub fn defined(&self, key: &Key) -> u8
        ensures { result ≡ evaluation.defined self.now.globals key.now }
    {
        u8::from(self.get(key).is_some()) + tens(first_past(&self.chain, key.as_encoded()), key)
    }

    /// The first node of the same name past the key, if there is one.
    pub fn after(&self, key: &Key) -> Result<Option<Key>, NoMemory>
        ensures { IfOk result (λ found. found ≡ after self.now.globals key.now) }
    {
        let Some(found) = first_past(&self.chain, key.as_encoded()) else {
            return Ok(None);
        };
        let found = key_of(key.code().allocator(), found)?;
        Ok(if_named(found, key.name()))
    }

    /// The next subscript at the level below the node, past the last one, by its own bytes: of a number its numeral. An
    /// empty last one comes before all.
    pub fn order(&self, key: &Key, last: &[u8]) -> Result<Option<Bytes>, NoMemory>
        ensures next { IfOk result (λ found. option_map sub_of found ≡ evaluation.order self.now.globals key.now last.now) }
        ensures a_key { IfOk result (λ found. IfSome found (λ sub. is_key (child_of key.now (sub_of sub)) ≡ true)) }
    {
        if last.is_empty() {
            sub_below(first_past(&self.chain, key.as_encoded()), key)
        } else {
            let past = key.past(last)?;
            sub_below(first_past(&self.chain, past.as_slice()), key)
        }
    }

    /// The blocks of the leaves that a change is about to change, in the chain's order: those with cells of its nodes, and the one
    /// before them where one of them is emptied, since its link changes then. A KILL of a node that isn't there changes none. A leaf that's
    /// cut in two has its other part in a new block or in the one that [`taken`](Leaves::taken) tells.
    pub fn touched(&self, update: &Update) -> &[u32] {
        let span = match update {
            Update::Set(key, _) => touched_by_set(&self.chain, key.as_encoded()),
            Update::Kill(key) => touched_by_kill(&self.chain, key.as_encoded()),
            Update::ZKill(key) => touched_by_removal(&self.chain, key.as_encoded()),
        };
        self.chain.blocks(span.from, span.to)
    }

    /// The block of no leaf that a change takes for the other part of a leaf that it cuts in two, where it does and there is one.
    pub fn taken(&self, update: &Update) -> Option<u32> {
        let free = self.chain.next_free()?;
        match update {
            Update::Set(key, value) if !self.has_place(key, value.as_slice()) => Some(free),
            _ => None,
        }
    }

    /// Whether a node's leaf has room for its cell with this value.
    fn has_place(&self, key: &Key, value: &[u8]) -> bool {
        let leaf = seat(&self.chain, key.as_encoded());
        self.chain.leaf(leaf).fits(key.as_encoded(), value)
    }

    /// Makes room for changes that set so many nodes. More than `u32::MAX` nodes take more memory than there is.
    pub fn reserve(&mut self, sets: usize) -> Result<(), NoMemory>
        ensures ok { OnOk result (HasRoom self.new sets) }
        ensures same { IsSame self.old self.new }
    {
        if ((u32::MAX - self.nodes) as usize) < sets {
            return Err(NoMemory);
        }
        self.chain.reserve(sets)
    }

    /// Makes one change for which there is room. It takes no memory.
    pub fn make_one(&mut self, update: &Update)
        requires form { IsUpdate (update_value update.now) }
        requires room { HasRoom self.old (sets_of (update_value update.now)) }
        ensures made { self.new.globals ≡ apply self.old.globals (update_value update.now) }
        ensures room { self.old.pool.room ≤ self.new.pool.room + sets_of (update_value update.now) }
        ensures numbers { globals.len self.new.globals ≤ globals.len self.old.globals + sets_of (update_value update.now) }
        ensures clean { KeepsClean self.old.pool self.new.pool }
    {
        match update {
            Update::Set(key, value) => {
                let is_new = set(&mut self.chain, key.as_encoded(), value.as_slice());
                self.nodes += u32::from(is_new);
            }
            Update::Kill(key) => {
                let gone = kill(&mut self.chain, key.as_encoded());
                self.nodes -= gone;
            }
            Update::ZKill(key) => {
                let was = remove(&mut self.chain, key.as_encoded());
                self.nodes -= u32::from(was);
            }
        }
    }

    /// Makes these changes in order, for which there is room. It takes no memory.
    pub fn make(&mut self, updates: &[Update])
        requires forms { AllByRecursion IsUpdate (map update_value updates.now) }
        requires room { HasRoom self.old (sets_in (map update_value updates.now)) }
        ensures made { self.new.globals ≡ fold apply self.old.globals (map update_value updates.now) }
        // blocks that aren't dirty are as they were
        ensures clean { KeepsClean self.old.pool self.new.pool }
    {
        for update in updates {
            self.make_one(update);
        }
    }

    /// Makes these changes in order, all of them or, without memory, none.
    pub fn apply_all(&mut self, updates: &[Update]) -> Result<(), NoMemory>
        requires { AllByRecursion IsUpdate (map update_value updates.now) }
        ensures ok { OnOk result (self.new.globals ≡ fold apply self.old.globals (map update_value updates.now)) }
        ensures err { OnErr result (IsSame self.old self.new) }
        ensures clean { KeepsClean self.old.pool self.new.pool }
    {
        self.reserve(count_sets(updates))?;
        self.make(updates);
        Ok(())
    }

    /// Makes one change.
    pub fn apply(&mut self, update: &Update) -> Result<(), NoMemory>
        requires { IsUpdate (update_value update.now) }
        ensures ok { OnOk result (self.new.globals ≡ apply self.old.globals (update_value update.now)) }
        ensures err { OnErr result (IsSame self.old self.new) }
        ensures clean { KeepsClean self.old.pool self.new.pool }
    {
        self.reserve(sets_of(update))?;
        self.make_one(update);
        Ok(())
    }

    /// All nodes with their values, in M collation.
    pub fn list(&self, alloc: Global) -> Result<Vec<Node<'_>>, NoMemory>
        ensures { IfOk result (λ made. map node_value made.items ≡ globals.entries self.now.globals) }
    {
        nodes_under(alloc, &self.chain, &[])
    }

    /// The node and those below it with their values, in M collation.
    pub fn list_under(&self, alloc: Global, top: &Key) -> Result<Vec<Node<'_>>, NoMemory>
        ensures { IfOk result (λ made. map node_value made.items ≡ filter (λ e. is_under top.now e.0) (globals.entries self.now.globals)) }
    {
        nodes_under(alloc, &self.chain, top.as_encoded())
    }
}

/// How many nodes a change sets.
pub fn sets_of(update: &Update) -> usize
    ensures { result ≡ sets_of (update_value update.now) }
{
    match update {
        Update::Set(_, _) => 1,
        Update::Kill(_) | Update::ZKill(_) => 0,
    }
}

/// How many nodes changes set, each as often as it is set.
pub fn count_sets(updates: &[Update]) -> usize
    ensures { result ≡ sets_in (map update_value updates.now) }
{
    let mut sets = 0;
    for update in updates {
        sets += sets_of(update);
    }
    sets
}

/// 10 where the encoded key is that of a descendant of the top node, else 0.
fn tens(found: Option<&[u8]>, top: &Key) -> u8
    ensures { result ≡ (if is_some (tested (λ code. starts_with nat_eq code (encoded top.now)) (option_copied found.entry)) then 10 else 0) }
{
    match found {
        Some(code) if code.starts_with(top.as_encoded()) => 10,
        _ => 0,
    }
}

/// The key where it has this name.
fn if_named(found: Key, name: &[u8]) -> Option<Key>
    ensures { result ≡ tested (λ k. eq_by_cmp (slice_cmp nat_cmp) name.now k.name) (Some found) }
{
    if name.cmp(found.name()) == Ordering::Equal {
        Some(found)
    } else {
        None
    }
}

/// The bytes of the subscript at the level below the top node, where the encoded key is that of a descendant.
fn sub_below(found: Option<&[u8]>, top: &Key) -> Result<Option<Bytes>, NoMemory>
    requires { IfSome (option_copied found) IsEncoded }
    ensures next { IfOk result (λ sub. option_map sub_of sub ≡ sub_under top.now (option_map key_in (option_copied found.entry))) }
    ensures a_key { IfOk result (λ sub. IfSome sub (λ bytes. is_key (child_of top.now (sub_of bytes)) ≡ true)) }
{
    match found {
        Some(code) => top.next_sub(code),
        None => Ok(None),
    }
}

impl Lookup for Leaves {
    ghost seen = { λ s. s.globals };

    fn get(&self, key: &Key) -> Option<&[u8]> {
        Leaves::get(self, key)
    }

    fn defined(&self, key: &Key) -> u8 {
        Leaves::defined(self, key)
    }

    fn order(&self, key: &Key, last: &[u8]) -> Result<Option<Bytes>, NoMemory> {
        Leaves::order(self, key, last)
    }

    fn nodes(&self) -> u32 {
        Leaves::nodes(self)
    }

    fn after(&self, key: &Key) -> Result<Option<Key>, NoMemory> {
        Leaves::after(self, key)
    }
}
