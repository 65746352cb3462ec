// Names of regions with their ways of journaling.
ghost use Rattle.std.specs.Prelude.{◌≡◌, ◌==◌, ◌<◌, [], ◌∷◌, ◌++◌, length, Some, slice_get, IfOk, OnOk, OnErr};

use gvn_key::{Bytes, NoMemory};
use std::alloc::Global;
use std::marker::Model;

/// Names of regions, each with whether it is journaled with images of its blocks before they change (BEFORE).
/// A call that answers [`NoMemory`] changes nothing.
#[derive(Debug, Drop)]
pub struct NamedModes {
    items: Vec<(Bytes, bool)>,
}

impl Model for NamedModes {
    ghost use Rattle.std.specs.Prelude.{List, ℕ, Bool};

    ghost Value = { List (List ℕ × Bool) };

    ghost view = { λ m. m.items.items };
}

impl NamedModes {
    /// An empty list. It takes no memory yet.
    pub fn new(alloc: Global) -> Self
        ensures { result ≡ [] }
    {
        NamedModes {
            items: Vec::new(alloc),
        }
    }

    /// How many names there are.
    pub fn len(&self) -> usize
        ensures { result ≡ length self.now }
    {
        self.items.len()
    }

    /// Whether there is no name.
    pub fn is_empty(&self) -> bool
        ensures { result ≡ (length self.now == 0) }
    {
        self.items.is_empty()
    }

    /// The name at place `i`, from 0, and whether it is BEFORE.
    pub fn item(&self, i: usize) -> &(Bytes, bool)
        requires { i < length self.now }
        ensures { slice_get self.now i ≡ Some result.now }
    {
        &self.items[i]
    }

    /// All the names with their modes.
    pub fn as_slice(&self) -> &[(Bytes, bool)]
        ensures { result.now ≡ self.now }
    {
        &self.items
    }

    /// Adds a name at the end.
    pub fn push(&mut self, named: (Bytes, bool)) -> Result<(), NoMemory>
        ensures ok { OnOk result (self.new ≡ self.old ++ named ∷ []) }
        ensures err { OnErr result (self.new ≡ self.old) }
    {
        self.items.push(named)?;
        Ok(())
    }

    /// An equal list.
    pub fn copy(&self) -> Result<Self, NoMemory>
        ensures { IfOk result (λ made. made ≡ self.now) }
    {
        Ok(NamedModes {
            items: copy_all(*self.items.allocator(), &self.items)?,
        })
    }
}

fn copy_all(alloc: Global, named: &[(Bytes, bool)]) -> Result<Vec<(Bytes, bool)>, NoMemory>
    ensures { IfOk result (λ made. made.items ≡ named.now) }
{
    let mut made = Vec::new(alloc);
    for (name, is_before) in named {
        made.push((name.copy()?, *is_before))?;
    }
    Ok(made)
}
