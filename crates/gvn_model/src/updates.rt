// Lists of updates.
ghost use Rattle.std.specs.Prelude.{◌≡◌, ◌==◌, ◌<◌, [], ◌∷◌, ◌++◌, length, map, Some, slice_get, IfOk, OnOk, OnErr};
ghost use Rattle.gvn_key.specs.Terms.{update_value};

use gvn_key::NoMemory;
use gvn_key::terms::Update;
use std::alloc::Global;
use std::marker::Model;

/// The updates of a job, in order. A call that answers [`NoMemory`] changes nothing.
#[derive(Debug, Drop)]
pub struct Updates {
    items: Vec<Update>,
}

impl Model for Updates {
    ghost use Rattle.std.specs.Prelude.{List, map};
    ghost use Rattle.global_defs.specs.Entry as defs;
    ghost use Rattle.gvn_key.specs.Terms.{update_value};

    ghost Value = { List defs.Update };

    ghost view = { λ u. map update_value u.items.items };
}

impl Updates {
    /// An empty list. It takes no memory yet.
    pub fn new(alloc: Global) -> Self
        ensures { result ≡ [] }
    {
        Updates {
            items: Vec::new(alloc),
        }
    }

    /// An empty list with room for so many updates.
    pub fn with_capacity(alloc: Global, updates: usize) -> Result<Self, NoMemory>
        ensures { IfOk result (λ made. made ≡ []) }
    {
        Ok(Updates {
            items: Vec::with_capacity(alloc, updates)?,
        })
    }

    /// How many updates there are.
    pub fn len(&self) -> usize
        ensures { result ≡ length self.now }
    {
        self.items.len()
    }

    /// Whether there is no update.
    pub fn is_empty(&self) -> bool
        ensures { result ≡ (length self.now == 0) }
    {
        self.items.is_empty()
    }

    /// The update at place `i`, from 0.
    pub fn item(&self, i: usize) -> &Update
        requires { i < length self.now }
        ensures { slice_get self.now i ≡ Some (update_value result.now) }
    {
        &self.items[i]
    }

    /// All the updates.
    pub fn as_slice(&self) -> &[Update]
        ensures { map update_value result.now ≡ self.now }
    {
        &self.items
    }

    /// Adds an update at the end.
    pub fn push(&mut self, update: Update) -> Result<(), NoMemory>
        ensures ok { OnOk result (self.new ≡ self.old ++ update_value update ∷ []) }
        ensures err { OnErr result (self.new ≡ self.old) }
    {
        self.items.push(update)?;
        Ok(())
    }

    /// An equal list.
    pub fn copy(&self) -> Result<Self, NoMemory>
        ensures { IfOk result (λ made. made ≡ self.now) }
    {
        Ok(Updates {
            items: copy_all(*self.items.allocator(), &self.items)?,
        })
    }
}

fn copy_all(alloc: Global, updates: &[Update]) -> Result<Vec<Update>, NoMemory>
    ensures { IfOk result (λ made. made.items ≡ updates.now) }
{
    let mut made = Vec::with_capacity(alloc, updates.len())?;
    for update in updates {
        made.push(copy_of(update)?)?;
    }
    Ok(made)
}

/// An equal update.
fn copy_of(update: &Update) -> Result<Update, NoMemory>
    ensures { IfOk result (λ made. made ≡ update.now) }
{
    Ok(match update {
        Update::Set(key, value) => Update::Set(key.copy()?, value.copy()?),
        Update::Kill(key) => Update::Kill(key.copy()?),
        Update::ZKill(key) => Update::ZKill(key.copy()?),
    })
}
