// Nodes that are set one after another, and taken back where memory runs out.
ghost use Rattle.std.specs.Prelude.{◌≡◌, [], map, fold, reverse, IsTrue, IfOk, OnErr, MatchBool};
ghost use Rattle.global_defs.specs.Entry as defs;
ghost use Rattle.gvn_key.specs.Terms.{update_value};
ghost use Rattle.gvn_globals.specs.Undoing.{undone, CanUndo};

use super::globals::{Globals, Undo};
use gvn_key::NoMemory;
use gvn_key::terms::Update;
use std::alloc::Global;

impl Globals {
    /// Takes back what was set, the last first. It takes no memory.
    fn undo_all(&mut self, mut done: Vec<Undo>)
        requires { CanUndo self.old (reverse done.items) }
        ensures { self.new ≡ undone self.old (reverse done.items) }
    {
        while let Some(undo) = done.pop() {
            match undo {
                Undo::Put(ready) => self.put(ready),
                Undo::Remove(key) => self.remove(&key),
            }
        }
    }

    /// Makes these changes in order up to the first that doesn't set a node, and notes what takes them back. Whether all were made.
    fn set_each(&mut self, updates: &[Update], done: &mut Vec<Undo>) -> Result<bool, NoMemory>
        requires { done.old.items ≡ [] }
        ensures can { CanUndo self.new (reverse done.new.items) }
        ensures back { undone self.new (reverse done.new.items) ≡ self.old }
        ensures all { IfOk result (λ all. IsTrue all → self.new ≡ fold defs.apply self.old (map update_value updates.now)) }
    {
        for update in updates {
            let Update::Set(key, value) = update else {
                return Ok(false);
            };
            let value = value.copy()?;
            done.reserve(1)?;
            let undo = self.replace(key, value)?;
            if done.push(undo).is_err() {
                unreachable!();
            }
        }
        Ok(true)
    }

    /// Makes changes that only set nodes, all of them or, without memory, none. Whether they were made; changes of another kind
    /// aren't.
    pub(crate) fn set_all(&mut self, alloc: Global, updates: &[Update]) -> Result<bool, NoMemory>
        ensures done { IfOk result (λ done. MatchBool done (self.new ≡ fold defs.apply self.old (map update_value updates.now)) (self.new ≡ self.old)) }
        ensures err { OnErr result (self.new ≡ self.old) }
    {
        if !updates.iter().all(|u| matches!(u, Update::Set(..))) {
            return Ok(false);
        }
        let mut done = Vec::new(alloc);
        done.reserve(updates.len())?;
        match self.set_each(updates, &mut done) {
            Ok(true) => Ok(true),
            Ok(false) => {
                self.undo_all(done);
                Ok(false)
            }
            Err(refused) => {
                self.undo_all(done);
                Err(refused)
            }
        }
    }
}
