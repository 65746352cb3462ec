// Changes that are made all together or not at all.
ghost use Rattle.std.specs.Prelude.{true, ◌≡◌, map, fold, not, IfOk, OnOk, OnErr};
ghost use Rattle.std.specs.List.{list_all};
ghost use Rattle.std.specs.FinMap as globals;
ghost use Rattle.global_defs.specs.Encoded.{encoded};
ghost use Rattle.global_defs.specs.Valid.{is_key};
ghost use Rattle.global_defs.specs.Entry.{is_under};
ghost use Rattle.global_defs.specs.Entry as defs;
ghost use Rattle.gvn_key.specs.Terms.{update_value};
ghost use Rattle.gvn_globals.specs.Overlaid.{kept, overlaid, AreGone};
ghost use Rattle.gvn_globals.specs.Together.{AreNoted};
ghost use Rattle.gvn_globals.specs.Walks.{IsSubtree};

use super::globals::Globals;
use super::lookup::{Walk, subtree};
use super::overlay::kept_after;
use gvn_key::terms::Update;
use gvn_key::{Bytes, Key, NoMemory};
use std::alloc::Global;
use std::marker::Model;

/// Globals without the nodes that are gone.
#[derive(Drop)]
struct Kept<'a> {
    on: &'a Globals,
    gone: &'a Globals,
}

impl<'a> Model for Kept<'a> {
    ghost use Rattle.global_defs.specs.Entry as defs;
    ghost use Rattle.gvn_globals.specs.Codes.{globals_code};
    ghost use Rattle.gvn_globals.specs.Overlaid.{kept, AreGone};

    ghost Value = { defs.Globals };

    ghost coded = { globals_code };

    ghost view = { λ k. kept k.on.now k.gone.now };

    ghost invariant = { λ k. AreGone k.on.now k.gone.now };
}

impl<'a> Walk for Kept<'a> {
    ghost walked = { λ k. k };

    fn has(&self, key: &Key) -> bool {
        is_kept(self.on, self.gone, key)
    }

    fn next(&self, key: &Key) -> Result<Option<Key>, NoMemory> {
        kept_after(self.on, self.gone, key)
    }
}

/// Whether the node has a value there and isn't gone.
fn is_kept(on: &Globals, gone: &Globals, key: &Key) -> bool
    ensures { result ≡ globals.contains_key (kept on.now gone.now) key.now }
{
    if gone.get(key).is_some() {
        false
    } else {
        on.get(key).is_some()
    }
}

/// The nodes at and below the top one that aren't gone.
fn kept_subtree(on: &Globals, gone: &Globals, top: &Key) -> Result<Vec<Key>, NoMemory>
    requires { AreGone on.now gone.now }
    ensures { IfOk result (λ keys. IsSubtree (kept on.now gone.now) top.now keys.items) }
{
    subtree(&Kept { on, gone }, top)
}

/// Notes that the node is gone, with the code of the last one that goes with it.
fn note(gone: &mut Globals, key: &Key, last: &Key) -> Result<(), NoMemory>
    ensures made { OnOk result (gone.new ≡ globals.insert gone.old key.now (encoded last.now)) }
    ensures valid { is_key last.now ≡ true }
{
    let end = last.code().copy()?;
    gone.set(key.copy()?, end)
}

/// Notes that these nodes are gone, which are those at and below the top one.
fn note_all(gone: &mut Globals, top: &Key, keys: &[Key]) -> Result<(), NoMemory>
    requires { list_all (is_under top.now) keys.now ≡ true }
    ensures { OnOk result (AreNoted gone.old top.now keys.now gone.new) }
{
    for key in keys {
        note(gone, key, &keys[keys.len() - 1])?;
    }
    Ok(())
}

/// What changes come to, beside the globals that they are for.
#[derive(Drop)]
struct Changes {
    /// The nodes that are set, with their values.
    sets: Globals,
    /// The nodes that are removed, and perhaps set again. A node's value is empty, or the code of a later one, as in an
    /// overlay.
    gone: Globals,
}

impl Changes {
    /// No changes.
    fn new(alloc: Global) -> Self
        ensures none { (base : defs.Globals) → overlaid base result.sets result.gone ≡ base }
        ensures ends { (base : defs.Globals) → AreGone base result.gone }
    {
        Changes {
            sets: Globals::new(alloc),
            gone: Globals::new(alloc),
        }
    }

    /// Gives the node that value.
    fn set(&mut self, key: Key, value: Bytes) -> Result<(), NoMemory>
        ensures made { OnOk result ((base : defs.Globals) → overlaid base self.new.sets self.new.gone ≡ globals.insert (overlaid base self.old.sets self.old.gone) key value) }
        ensures ends { self.new.gone ≡ self.old.gone }
    {
        self.sets.set(key, value)
    }

    /// Takes the node's own value away.
    fn remove(&mut self, key: &Key) -> Result<(), NoMemory>
        ensures made { OnOk result ((base : defs.Globals) → overlaid base self.new.sets self.new.gone ≡ globals.remove (overlaid base self.old.sets self.old.gone) key.now) }
        ensures ends { OnOk result ((base : defs.Globals) → AreGone base self.old.gone → AreGone base self.new.gone) }
    {
        let none = Bytes::new(key.code().allocator());
        self.gone.set(key.copy()?, none)?;
        self.sets.remove(key);
        Ok(())
    }

    /// Takes the node and all its descendants away, of those globals and of what is set. What is gone already is passed over.
    fn kill(&mut self, base: &Globals, top: &Key) -> Result<(), NoMemory>
        requires { AreGone base.now self.old.gone }
        ensures made { OnOk result (overlaid base.now self.new.sets self.new.gone ≡ defs.apply (overlaid base.now self.old.sets self.old.gone) (defs.Kill top.now)) }
        ensures ends { OnOk result (AreGone base.now self.new.gone) }
    {
        let below = kept_subtree(base, &self.gone, top)?;
        note_all(&mut self.gone, top, &below)?;
        self.sets.kill(top)
    }

    /// Makes one change.
    fn apply(&mut self, base: &Globals, update: &Update) -> Result<(), NoMemory>
        requires { AreGone base.now self.old.gone }
        ensures made { OnOk result (overlaid base.now self.new.sets self.new.gone ≡ defs.apply (overlaid base.now self.old.sets self.old.gone) (update_value update.now)) }
        ensures ends { OnOk result (AreGone base.now self.new.gone) }
    {
        match update {
            Update::Set(key, value) => self.set(key.copy()?, value.copy()?),
            Update::Kill(key) => self.kill(base, key),
            Update::ZKill(key) => self.remove(key),
        }
    }

    /// What these changes of the globals come to, made in order.
    fn of(alloc: Global, base: &Globals, updates: &[Update]) -> Result<Self, NoMemory>
        ensures { IfOk result (λ made. overlaid base.now made.sets made.gone ≡ fold defs.apply base.now (map update_value updates.now)) }
    {
        let mut changes = Changes::new(alloc);
        for update in updates {
            changes.apply(base, update)?;
        }
        Ok(changes)
    }
}

impl Globals {
    /// Makes these changes in order, of any kind, all of them or, without memory, none.
    fn change_all(&mut self, alloc: Global, updates: &[Update]) -> Result<(), NoMemory>
        ensures ok { OnOk result (self.new ≡ fold defs.apply self.old (map update_value updates.now)) }
        ensures err { OnErr result (self.new ≡ self.old) }
    {
        let Changes { sets, gone } = Changes::of(alloc, self, updates)?;
        let added = sets.beyond(alloc, self)?;
        let removed = gone.beyond(alloc, &sets)?;
        let all = sets.ready(alloc)?;
        self.add_all(alloc, &added)?;
        self.remove_all(&removed);
        self.put_all(all);
        Ok(())
    }

    /// Makes these changes in order, all of them or, without memory, none. It takes memory for a copy of each node that they
    /// set, and the time grows with how many nodes they reach, times the logarithm of how many there are.
    pub fn apply_all(&mut self, alloc: Global, updates: &[Update]) -> Result<(), NoMemory>
        ensures ok { OnOk result (self.new ≡ fold defs.apply self.old (map update_value updates.now)) }
        ensures err { OnErr result (self.new ≡ self.old) }
    {
        if let [update] = updates {
            return self.apply(update);
        }
        if self.set_all(alloc, updates)? {
            return Ok(());
        }
        self.change_all(alloc, updates)
    }
}
