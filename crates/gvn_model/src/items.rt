// Updates at their positions.
ghost use Rattle.std.specs.Prelude.{◌≡◌, ◌<◌, [], ◌∷◌, ◌++◌, length, map, Some, slice_get, nat_eq, OnOk, OnErr};
ghost use Rattle.gvn_model.specs.Items.{item_value};

use gvn_key::NoMemory;
use gvn_key::terms::Update;
use std::alloc::Global;
use std::marker::Model;

/// An update at its position in its transaction, from 0.
#[derive(Debug, Drop)]
pub struct Item {
    pub position: u16,
    pub update: Update,
}

/// A list of updates at their positions: what one region has of a transaction.
#[derive(Debug, Drop)]
pub struct Items {
    items: Vec<Item>,
}

impl Model for Items {
    ghost use Rattle.std.specs.Prelude.{List, map};
    ghost use Rattle.global_defs.specs.Entry as defs;
    ghost use Rattle.gvn_model.specs.Items.{item_value};

    ghost Value = { List defs.Item };

    ghost view = { λ list. map item_value list.items.items };
}

impl Items {
    /// The empty list.
    pub fn new(alloc: Global) -> Self
        ensures { result ≡ [] }
    {
        Items {
            items: Vec::new(alloc),
        }
    }

    /// How many items there are.
    pub fn len(&self) -> usize
        ensures { result ≡ length self.now }
    {
        self.items.len()
    }

    /// Whether there is none.
    pub fn is_empty(&self) -> bool
        ensures { result ≡ nat_eq (length self.now) 0 }
    {
        self.items.is_empty()
    }

    /// The item at a place, from 0.
    pub fn item(&self, i: usize) -> &Item
        requires { i < length self.now }
        ensures { slice_get self.now i ≡ Some (item_value result.now) }
    {
        &self.items[i]
    }

    /// All items in order.
    pub fn as_slice(&self) -> &[Item]
        ensures { map item_value result.now ≡ self.now }
    {
        &self.items
    }

    /// Adds an item at the end.
    pub fn push(&mut self, item: Item) -> Result<(), NoMemory>
        ensures ok { OnOk result (self.new ≡ self.old ++ item_value item ∷ []) }
        ensures err { OnErr result (self.new ≡ self.old) }
    {
        self.items.push(item)?;
        Ok(())
    }
}
