//! Parts of a transaction.
ghost use Rattle.std.specs.Prelude.{◌≡◌, ◌==◌, ◌<◌, ◌^◌, [], ◌∷◌, ◌++◌, length, map, Some, slice_get, IfOk, OnOk, OnErr};
ghost use Rattle.journal_defs.specs.Fit.{region_of_update};
ghost use Rattle.tp_commit.specs.Splitting.{part_value, parts_from, parts_of};

use crate::lists::items_by_region;
use global_dir::Directory;
use gvn_key::NoMemory;
use gvn_model::{Items, Transaction};
use std::alloc::Global;
use std::marker::Model;
use std::mem::replace;

/// What one region has of a transaction.
#[derive(Debug, Drop)]
pub struct Part {
    pub region: u8,
    pub items: Items,
}

/// Parts of a transaction, mostly by rising regions. A call that answers [`NoMemory`] changes nothing.
#[derive(Debug, Drop)]
pub struct Parts {
    parts: Vec<Part>,
}

impl Model for Parts {
    ghost use Rattle.std.specs.Prelude.{ℕ, List, map};
    ghost use Rattle.global_defs.specs.Entry as entry;
    ghost use Rattle.tp_commit.specs.Splitting.{part_value};

    ghost Value = { List (ℕ × List entry.Item) };

    ghost view = { λ p. map part_value p.parts.items };
}

impl Parts {
    /// An empty list. It takes no memory yet.
    pub fn new(alloc: Global) -> Self
        ensures { result ≡ [] }
    {
        Parts {
            parts: Vec::new(alloc),
        }
    }

    /// How many parts there are.
    pub fn len(&self) -> usize
        ensures { result ≡ length self.now }
    {
        self.parts.len()
    }

    /// Whether there is no part.
    pub fn is_empty(&self) -> bool
        ensures { result ≡ (length self.now == 0) }
    {
        self.parts.is_empty()
    }

    /// The part at place `i`, from 0.
    pub fn item(&self, i: usize) -> &Part
        requires { i < length self.now }
        ensures { slice_get self.now i ≡ Some (part_value result.now) }
    {
        &self.parts[i]
    }

    /// All the parts.
    pub fn as_slice(&self) -> &[Part]
        ensures { map part_value result.now ≡ self.now }
    {
        &self.parts
    }

    /// Adds a part at the end.
    pub fn push(&mut self, part: Part) -> Result<(), NoMemory>
        ensures ok { OnOk result (self.new ≡ self.old ++ part_value part ∷ []) }
        ensures err { OnErr result (self.new ≡ self.old) }
    {
        self.parts.push(part)?;
        Ok(())
    }
}

/// The parts of eight lists: of each one that has an item, by the number of its region.
fn parts_by(alloc: Global, lists: Vec<Items>) -> Result<Parts, NoMemory>
    requires { length lists.items ≡ 8 }
    ensures { IfOk result (λ made. made ≡ parts_from 0 lists.items) }
{
    let mut lists = lists;
    let mut parts = Parts::new(alloc);
    for region in 0..8u8 {
        let items = replace(&mut lists[usize::from(region)], Items::new(alloc));
        if !items.is_empty() {
            parts.push(Part { region, items })?;
        }
    }
    Ok(parts)
}

/// The parts of a transaction, by rising regions: of each region that has an update, its updates at their positions in the
/// transaction. It goes over the updates once.
pub fn split_regions(
    alloc: Global,
    t: &Transaction,
    directory: &Directory,
) -> Result<Parts, NoMemory>
    requires { length t.now.updates < 2 ^ 16 }
    ensures { IfOk result (λ made. made ≡ parts_of (region_of_update directory.now.patterns) t.now.updates) }
{
    let _regions = directory.regions();
    let lists = items_by_region(alloc, &t.updates, directory, 8)?;
    parts_by(alloc, lists)
}
