// Lists of entries.
ghost use Rattle.std.specs.Prelude.{◌≡◌, ◌==◌, ◌<◌, [], ◌∷◌, ◌++◌, length, map, Some, slice_get, IfOk, OnOk, OnErr};
ghost use Rattle.gvn_model.specs.Numbered.{numbered};

use super::entry::Entry;
use gvn_key::NoMemory;
use std::alloc::Global;
use std::marker::Model;

/// Entries with their numbers, in order. A call that answers [`NoMemory`] changes nothing.
#[derive(Debug, Drop)]
pub struct Entries {
    items: Vec<Entry>,
}

impl Model for Entries {
    ghost use Rattle.std.specs.Prelude.{List, ℕ, map};
    ghost use Rattle.global_defs.specs.Entry as defs;
    ghost use Rattle.gvn_model.specs.Numbered.{numbered};

    ghost Value = { List (ℕ × defs.Entry) };

    ghost view = { λ list. map numbered list.items.items };
}

impl Entries {
    /// An empty list. It takes no memory yet.
    pub fn new(alloc: Global) -> Self
        ensures { result ≡ [] }
    {
        Entries {
            items: Vec::new(alloc),
        }
    }

    /// How many entries there are.
    pub fn len(&self) -> usize
        ensures { result ≡ length self.now }
    {
        self.items.len()
    }

    /// Whether there is no entry.
    pub fn is_empty(&self) -> bool
        ensures { result ≡ (length self.now == 0) }
    {
        self.items.is_empty()
    }

    /// The entry at place `i`, from 0.
    pub fn item(&self, i: usize) -> &Entry
        requires { i < length self.now }
        ensures { slice_get self.now i ≡ Some (numbered result.now) }
    {
        &self.items[i]
    }

    /// All the entries.
    pub fn as_slice(&self) -> &[Entry]
        ensures { map numbered result.now ≡ self.now }
    {
        &self.items
    }

    /// The entries alone.
    pub fn into_items(self) -> Vec<Entry>
        ensures { map numbered result.items ≡ self }
    {
        self.items
    }

    /// Adds an entry at the end.
    pub fn push(&mut self, entry: Entry) -> Result<(), NoMemory>
        ensures ok { OnOk result (self.new ≡ self.old ++ numbered entry ∷ []) }
        ensures err { OnErr result (self.new ≡ self.old) }
    {
        self.items.push(entry)?;
        Ok(())
    }

    /// An equal list.
    pub fn copy(&self) -> Result<Self, NoMemory>
        ensures { IfOk result (λ made. made ≡ self.now) }
    {
        Ok(Entries {
            items: copy_all(*self.items.allocator(), &self.items)?,
        })
    }
}

fn copy_all(alloc: Global, entries: &[Entry]) -> Result<Vec<Entry>, NoMemory>
    ensures { IfOk result (λ made. made.items ≡ entries.now) }
{
    let mut made = Vec::new(alloc);
    for entry in entries {
        made.push(entry.copy()?)?;
    }
    Ok(made)
}
