// Globals as nodes in a tree, by their encoded keys.
ghost use Rattle.std.specs.declared.cmp.Ordering.TheVariants.{Less};
ghost use Rattle.std.specs.Prelude.{◌≡◌, ◌<◌, ◌^◌, [], true, drop, length, map, filter, option_map, is_some, IsTrue, IfOk, IfSome, OnOk, OnErr, not, if◌then◌else◌};
ghost use Rattle.std.specs.Ordering.{is_lt, nat_cmp, eq_by_cmp};
ghost use Rattle.std.specs.Cmp.Lexicographic.{slice_cmp};
ghost use Rattle.std.specs.Option.{option_copied};
ghost use Rattle.std.specs.List.{find};
ghost use Rattle.std.specs.BTreeMap.{IsOrdered};
ghost use Rattle.std.specs.FinMap as globals;
ghost use Rattle.global_defs.specs.Key.{sub_of};
ghost use Rattle.global_defs.specs.Valid.{is_key};
ghost use Rattle.global_defs.specs.Entry.{is_under, apply};
ghost use Rattle.global_defs.specs.Evaluation.{first_sub};
ghost use Rattle.global_defs.specs.Evaluation as evaluation;
ghost use Rattle.gvn_key.specs.Terms.{update_value};
ghost use Rattle.gvn_key.specs.Faults.{child_of};
ghost use Rattle.gvn_globals.specs.Walks.{after, tested, is_behind, sub_under};
ghost use Rattle.gvn_globals.specs.Nodes.{node_key, entries_of, is_between};
ghost use Rattle.gvn_globals.specs.Overlaid.{with_all};
ghost use Rattle.gvn_globals.specs.Together.{AreNew, IsMore, IsLess, AreHeld};
ghost use Rattle.gvn_globals.specs.Lists.{listed_value};
ghost use Rattle.gvn_globals.specs.Undoing.{undo_of};

use super::lookup::{Lookup, Walk, subtree};
use gvn_key::terms::Update;
use gvn_key::{Bytes, Key, NoMemory};
use std::alloc::Global;
use std::cmp::Ordering;
use std::collections::BTreeMap;
use std::marker::Model;
use std::ops::Bound;

/// How many nodes may stand: so many that a `u32` counts them.
const MOST_NODES: usize = 0xffff_ffff;

/// A node with its value.
#[derive(Debug, Drop)]
struct Node {
    key: Key,
    value: Bytes,
}

/// Nodes with their values, at most `u32::MAX`. A call that answers [`NoMemory`] changes nothing. A node is found, set or
/// removed in a time that grows with the logarithm of how many there are.
#[derive(Debug, Drop)]
pub struct Globals {
    nodes: BTreeMap<Bytes, Node>,
}

impl Model for Globals {
    ghost use Rattle.std.specs.Prelude.{IsTrue, length, ◌<◌, ◌^◌};
    ghost use Rattle.std.specs.List.{list_all};
    ghost use Rattle.global_defs.specs.Entry as defs;
    ghost use Rattle.gvn_globals.specs.Codes.{globals_code};

    ghost Value = { defs.Globals };

    ghost coded = { globals_code };

    ghost use Rattle.gvn_globals.specs.Nodes.{globals_of, is_coded};

    ghost view = { λ g. globals_of g.nodes.entries };

    ghost invariant = { λ g. IsTrue (list_all is_coded g.nodes.entries) × (length g.nodes.entries < 2 ^ 32) };
}

/// The first node past an encoded key, or past other bytes.
fn first_past<'a>(nodes: &'a BTreeMap<Bytes, Node>, code: &Bytes) -> Option<&'a Node>
    ensures node { option_copied result ≡ option_map (λ e. e.1) (find (λ e. is_lt (slice_cmp nat_cmp code.now e.0)) nodes.now.entries) }
    ensures ordered { IsOrdered (slice_cmp nat_cmp) nodes.now }
{
    match nodes
        .range((Bound::Excluded(code), Bound::Unbounded))
        .next()
    {
        Some((_, node)) => Some(node),
        None => None,
    }
}

/// The node's key, where it has that name.
fn if_named(found: Option<&Node>, name: &[u8]) -> Result<Option<Key>, NoMemory>
    ensures { IfOk result (λ key. key ≡ tested (λ k. eq_by_cmp (slice_cmp nat_cmp) name.now k.name) (option_map node_key (option_copied found.entry))) }
{
    match found {
        Some(node) if name.cmp(node.key.name()) == Ordering::Equal => Ok(Some(node.key.copy()?)),
        _ => Ok(None),
    }
}

/// A node among others, with its value.
#[derive(Clone, Copy, Debug)]
pub struct Listed<'a> {
    pub key: &'a Key,
    pub value: &'a [u8],
}

/// All nodes, in the order of their encoded keys.
fn list_all_nodes(alloc: Global, nodes: &BTreeMap<Bytes, Node>) -> Result<Vec<Listed<'_>>, NoMemory>
    ensures list { IfOk result (λ made. map listed_value made.items ≡ entries_of nodes.now.entries) }
    ensures ordered { IsOrdered (slice_cmp nat_cmp) nodes.now }
{
    let mut list = Vec::new(alloc);
    for (_, node) in nodes.iter() {
        list.push(Listed {
            key: &node.key,
            value: node.value.as_slice(),
        })?;
    }
    Ok(list)
}

/// The nodes from one code on up to another, in the order of their encoded keys.
fn list_between<'a>(
    alloc: Global,
    nodes: &'a BTreeMap<Bytes, Node>,
    from: &Bytes,
    to: &Bytes,
) -> Result<Vec<Listed<'a>>, NoMemory>
    requires { slice_cmp nat_cmp from.now to.now ≡ Less }
    ensures list { IfOk result (λ made. map listed_value made.items ≡ entries_of (filter (λ e. is_between from.now to.now e.0) nodes.now.entries)) }
    ensures ordered { IsOrdered (slice_cmp nat_cmp) nodes.now }
{
    let mut list = Vec::new(alloc);
    for (_, node) in nodes.range(from..to) {
        list.push(Listed {
            key: &node.key,
            value: node.value.as_slice(),
        })?;
    }
    Ok(list)
}

/// Those of these nodes that are the top one or lie below it.
fn only_under<'a>(
    alloc: Global,
    nodes: &[Listed<'a>],
    top: &Key,
) -> Result<Vec<Listed<'a>>, NoMemory>
    ensures { IfOk result (λ made. map listed_value made.items ≡ filter (λ e. is_under top.now e.0) (map listed_value nodes.now)) }
{
    let mut list = Vec::new(alloc);
    for node in nodes {
        if node.key.is_under(top) {
            list.push(*node)?;
        }
    }
    Ok(list)
}

/// A node that goes into a tree in which its key stands, without memory.
#[derive(Drop)]
pub(crate) struct Ready {
    code: Bytes,
    node: Node,
}

impl Model for Ready {
    ghost use Rattle.std.specs.Prelude.{IsTrue, ℕ, List};
    ghost use Rattle.global_defs.specs.Key as defs;
    ghost use Rattle.gvn_globals.specs.Codes.{node_code};
    ghost use Rattle.gvn_globals.specs.Nodes.{is_coded};

    ghost Value = { defs.Key × List ℕ };

    ghost coded = { node_code };

    ghost view = { λ r. (r.node.key, r.node.value) };

    ghost invariant = { λ r. IsTrue (is_coded (r.code, r.node)) };
}

impl Ready {
    /// A copy of this node.
    fn of(alloc: Global, node: &Listed<'_>) -> Result<Self, NoMemory>
        ensures { IfOk result (λ ready. ready ≡ listed_value node.now) }
    {
        let key = node.key.copy()?;
        let value = Bytes::of(alloc, node.value)?;
        let code = key.code().copy()?;
        Ok(Ready {
            code,
            node: Node { key, value },
        })
    }
}

/// What takes back that a node was set.
#[derive(Drop)]
pub(crate) enum Undo {
    /// It had this value.
    Put(Ready),
    /// It had none.
    Remove(Key),
}

impl Globals {
    /// No nodes. It takes no memory yet.
    pub fn new(alloc: Global) -> Self
        ensures { result ≡ globals.empty }
    {
        Globals {
            nodes: BTreeMap::new(alloc),
        }
    }

    /// The node's value, if it has one.
    pub fn get(&self, key: &Key) -> Option<&[u8]>
        ensures { option_copied result ≡ globals.get self.now key.now }
    {
        match self.nodes.get(key.code()) {
            Some(node) => Some(node.value.as_slice()),
            None => None,
        }
    }

    /// Gives the node that value.
    pub(crate) fn set(&mut self, key: Key, value: Bytes) -> Result<(), NoMemory>
        ensures ok { OnOk result (self.new ≡ globals.insert self.old key value) }
        ensures err { OnErr result (self.new ≡ self.old) }
    {
        let code = key.code().copy()?;
        if MOST_NODES <= self.nodes.len() {
            return Err(NoMemory);
        }
        self.nodes.insert(code, Node { key, value })?;
        Ok(())
    }

    /// Gives the node that value, and hands out what takes that back.
    pub(crate) fn replace(&mut self, key: &Key, value: Bytes) -> Result<Undo, NoMemory>
        ensures ok { OnOk result (self.new ≡ globals.insert self.old key.now value) }
        ensures undo { IfOk result (λ undo. undo ≡ undo_of key.now (globals.get self.old key.now)) }
        ensures err { OnErr result (self.new ≡ self.old) }
    {
        let code = key.code().copy()?;
        let again = key.code().copy()?;
        let kept = key.copy()?;
        let key = key.copy()?;
        if MOST_NODES <= self.nodes.len() {
            return Err(NoMemory);
        }
        match self.nodes.insert(code, Node { key, value })? {
            Some(Node { key: _, value }) => Ok(Undo::Put(Ready {
                code: again,
                node: Node { key: kept, value },
            })),
            None => Ok(Undo::Remove(kept)),
        }
    }

    /// Takes the node's own value away.
    pub(crate) fn remove(&mut self, key: &Key)
        ensures { self.new ≡ globals.remove self.old key.now }
    {
        self.nodes.remove(key.code());
    }

    /// Takes the node and all its descendants away.
    pub(crate) fn kill(&mut self, top: &Key) -> Result<(), NoMemory>
        ensures ok { OnOk result (self.new ≡ globals.retain_keys self.old (λ k. not (is_under top.now k))) }
        ensures err { OnErr result (self.new ≡ self.old) }
    {
        let keys = subtree(self, top)?;
        for key in &keys {
            self.remove(key);
        }
        Ok(())
    }

    /// Makes one change. More than `u32::MAX` nodes take more memory than there is.
    pub fn apply(&mut self, update: &Update) -> Result<(), NoMemory>
        ensures ok { OnOk result (self.new ≡ apply self.old (update_value update.now)) }
        ensures err { OnErr result (self.new ≡ self.old) }
    {
        match update {
            Update::Set(key, value) => self.set(key.copy()?, value.copy()?),
            Update::Kill(key) => self.kill(key),
            Update::ZKill(key) => {
                self.remove(key);
                Ok(())
            }
        }
    }

    /// All nodes with their values, in M collation. It takes memory for so many references.
    pub fn list(&self, alloc: Global) -> Result<Vec<Listed<'_>>, NoMemory>
        ensures { IfOk result (λ made. map listed_value made.items ≡ globals.entries self.now) }
    {
        list_all_nodes(alloc, &self.nodes)
    }

    /// The node and those below it with their values, in M collation. No other node is looked at.
    pub fn list_under(&self, alloc: Global, top: &Key) -> Result<Vec<Listed<'_>>, NoMemory>
        ensures { IfOk result (λ made. map listed_value made.items ≡ filter (λ e. is_under top.now e.0) (globals.entries self.now)) }
    {
        let mut end = top.code().copy()?;
        end.push(255)?;
        let list = list_between(alloc, &self.nodes, top.code(), &end)?;
        only_under(alloc, &list, top)
    }

    /// Copies of all nodes.
    pub(crate) fn ready(&self, alloc: Global) -> Result<Vec<Ready>, NoMemory>
        ensures { IfOk result (λ made. made.items ≡ globals.entries self.now) }
    {
        let mut all = Vec::new(alloc);
        let list = self.list(alloc)?;
        for node in &list {
            all.push(Ready::of(alloc, node)?)?;
        }
        Ok(all)
    }

    /// The keys of those nodes that the other globals don't have.
    pub(crate) fn beyond(&self, alloc: Global, other: &Globals) -> Result<Vec<Key>, NoMemory>
        ensures { IfOk result (λ keys. keys.items ≡ filter (λ k. not (globals.contains_key other.now k)) (globals.keys self.now)) }
    {
        let mut keys = Vec::new(alloc);
        let list = self.list(alloc)?;
        for node in &list {
            if other.get(node.key).is_none() {
                keys.push(node.key.copy()?)?;
            }
        }
        Ok(keys)
    }

    /// Takes the own values of these nodes away.
    pub(crate) fn remove_all(&mut self, keys: &[Key])
        ensures { IsLess self.old keys.now self.new }
    {
        for key in keys {
            self.remove(key);
        }
    }

    /// Gives the node an empty value.
    fn add(&mut self, alloc: Global, key: &Key) -> Result<(), NoMemory>
        ensures ok { OnOk result (self.new ≡ globals.insert self.old key.now []) }
        ensures err { OnErr result (self.new ≡ self.old) }
    {
        self.set(key.copy()?, Bytes::new(alloc))
    }

    /// Gives these nodes, which have no values, empty ones.
    pub(crate) fn add_all(&mut self, alloc: Global, keys: &[Key]) -> Result<(), NoMemory>
        requires { AreNew self.old keys.now }
        ensures ok { OnOk result (IsMore self.old keys.now self.new) }
        ensures err { OnErr result (self.new ≡ self.old) }
    {
        for key in keys {
            if let Err(refused) = self.add(alloc, key) {
                self.remove_all(keys);
                return Err(refused);
            }
        }
        Ok(())
    }

    /// Gives a node that has a value another one. It takes no memory.
    pub(crate) fn put(&mut self, ready: Ready)
        requires { globals.contains_key self.old ready.0 ≡ true }
        ensures { self.new ≡ globals.insert self.old ready.0 ready.1 }
    {
        // Only a new key takes memory.
        match self.nodes.insert(ready.code, ready.node) {
            Ok(_) => {}
            Err(_) => {}
        }
    }

    /// Gives nodes that have values others. It takes no memory.
    pub(crate) fn put_all(&mut self, mut all: Vec<Ready>)
        requires { AreHeld self.old all.items }
        ensures { self.new ≡ with_all self.old all.items }
    {
        while let Some(ready) = all.pop() {
            self.put(ready);
        }
    }

    /// How many nodes have values.
    pub fn nodes(&self) -> u32
        ensures { result ≡ globals.len self.now }
    {
        self.nodes.len() as u32
    }

    /// The first node past the key.
    fn past(&self, key: &Key) -> Option<&Node>
        ensures first { option_map node_key (option_copied result) ≡ find (is_behind key.now) (globals.keys self.now) }
        ensures child { sub_under key.now (option_map node_key (option_copied result)) ≡ evaluation.order self.now key.now [] }
    {
        first_past(&self.nodes, key.code())
    }

    /// The first node past all those that have the key and then this subscript.
    fn past_sub(&self, key: &Key, sub: &[u8]) -> Result<Option<&Node>, NoMemory>
        requires { 0 < length sub.now }
        ensures { IfOk result (λ found. sub_under key.now (option_map node_key (option_copied found)) ≡ evaluation.order self.now key.now sub.now) }
    {
        let past = key.past(sub)?;
        Ok(first_past(&self.nodes, &past))
    }

    /// The first node of the same name past the key, if there is one.
    pub fn after(&self, key: &Key) -> Result<Option<Key>, NoMemory>
        ensures { IfOk result (λ found. found ≡ after self.now key.now) }
    {
        if_named(self.past(key), key.name())
    }

    /// Whether the node has a value, and whether it has descendants: 0, 1, 10 or 11.
    pub fn defined(&self, key: &Key) -> u8
        ensures { result ≡ evaluation.defined self.now key.now }
    {
        ones(self.get(key)) + tens(self.past(key), key)
    }

    /// The next subscript at the level below the node, past the last one, by its own bytes: of a number its numeral. An
    /// empty last one comes before all.
    pub fn order(&self, key: &Key, last: &[u8]) -> Result<Option<Bytes>, NoMemory>
        ensures next { IfOk result (λ found. option_map sub_of found ≡ evaluation.order self.now key.now last.now) }
        ensures a_key { IfOk result (λ found. IfSome found (λ sub. is_key (child_of key.now (sub_of sub)) ≡ true)) }
    {
        let found = if last.is_empty() {
            self.past(key)
        } else {
            self.past_sub(key, last)?
        };
        sub_below(found, key)
    }
}

/// 1 where there is a value, else 0.
pub(crate) fn ones(found: Option<&[u8]>) -> u8
    ensures { result ≡ (if is_some (option_copied found.entry) then 1 else 0) }
{
    match found {
        Some(_) => 1,
        None => 0,
    }
}

/// 10 where the node is below the top one, else 0.
fn tens(found: Option<&Node>, top: &Key) -> u8
    ensures { result ≡ (if is_some (tested (is_under top.now) (option_map node_key (option_copied found.entry))) then 10 else 0) }
{
    match found {
        Some(node) if node.key.is_under(top) => 10,
        _ => 0,
    }
}

/// The bytes of the node's subscript at the level below the top one, where it's a descendant of that.
fn sub_below(found: Option<&Node>, top: &Key) -> Result<Option<Bytes>, NoMemory>
    ensures next { IfOk result (λ sub. option_map sub_of sub ≡ sub_under top.now (option_map node_key (option_copied found.entry))) }
    ensures a_key { IfOk result (λ sub. IfSome sub (λ bytes. is_key (child_of top.now (sub_of bytes)) ≡ true)) }
{
    match found {
        Some(node) if node.key.is_under(top) => sub_at(&node.key, top),
        _ => Ok(None),
    }
}

/// The bytes of a key's subscript at the level below the top one.
pub(crate) fn sub_at(key: &Key, top: &Key) -> Result<Option<Bytes>, NoMemory>
    requires { is_under top.now key.now ≡ true }
    ensures next { IfOk result (λ sub. option_map sub_of sub ≡ first_sub (drop (length top.now.subs) key.now.subs)) }
    ensures a_key { IfOk result (λ sub. IfSome sub (λ bytes. is_key (child_of top.now (sub_of bytes)) ≡ true)) }
{
    top.next_sub(key.as_encoded())
}

impl Lookup for Globals {
    ghost seen = { λ g. g };

    fn get(&self, key: &Key) -> Option<&[u8]> {
        Globals::get(self, key)
    }

    fn defined(&self, key: &Key) -> u8 {
        Globals::defined(self, key)
    }

    fn order(&self, key: &Key, last: &[u8]) -> Result<Option<Bytes>, NoMemory> {
        Globals::order(self, key, last)
    }

    fn nodes(&self) -> u32 {
        Globals::nodes(self)
    }

    fn after(&self, key: &Key) -> Result<Option<Key>, NoMemory> {
        Globals::after(self, key)
    }
}

impl Walk for Globals {
    ghost walked = { λ g. g };

    fn has(&self, key: &Key) -> bool {
        Globals::get(self, key).is_some()
    }

    fn next(&self, key: &Key) -> Result<Option<Key>, NoMemory> {
        Globals::after(self, key)
    }
}
