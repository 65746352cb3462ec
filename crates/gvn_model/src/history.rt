// Lists of reigns, and histories.
ghost use Rattle.std.specs.Prelude.{◌≡◌, ◌==◌, ◌<◌, [], ◌∷◌, ◌++◌, List, length, map, Some, slice_get, IfOk, OnOk, OnErr};
ghost use Rattle.global_defs.specs.Entry as defs;
ghost use Rattle.global_defs.specs.Rising.{begun_by};
ghost use Rattle.gvn_model.specs.Reigns.{reign_value};

use super::reign::Reign;
use gvn_key::NoMemory;
use std::alloc::Global;
use std::marker::Model;

/// A list of reigns, mostly in the order of their starts. A call that answers [`NoMemory`] changes
/// nothing.
#[derive(Debug, Drop)]
pub struct Reigns {
    items: Vec<Reign>,
}

impl Model for Reigns {
    ghost use Rattle.std.specs.Prelude.{List, map};
    ghost use Rattle.global_defs.specs.Entry as defs;
    ghost use Rattle.gvn_model.specs.Reigns.{reign_value};

    ghost Value = { List defs.Reign };

    ghost view = { λ r. map reign_value r.items.items };
}

impl Reigns {
    /// An empty list. It takes no memory yet.
    pub fn new(alloc: Global) -> Self
        ensures { result ≡ [] }
    {
        Reigns {
            items: Vec::new(alloc),
        }
    }

    /// How many reigns there are.
    pub fn len(&self) -> usize
        ensures { result ≡ length self.now }
    {
        self.items.len()
    }

    /// Whether there is no reign.
    pub fn is_empty(&self) -> bool
        ensures { result ≡ (length self.now == 0) }
    {
        self.items.is_empty()
    }

    /// The reign at place `i`, from 0.
    pub fn item(&self, i: usize) -> &Reign
        requires { i < length self.now }
        ensures { slice_get self.now i ≡ Some (reign_value result.now) }
    {
        &self.items[i]
    }

    /// All the reigns.
    pub fn as_slice(&self) -> &[Reign]
        ensures { map reign_value result.now ≡ self.now }
    {
        &self.items
    }

    /// Adds a reign at the end.
    pub fn push(&mut self, reign: Reign) -> Result<(), NoMemory>
        ensures ok { OnOk result (self.new ≡ self.old ++ reign_value reign ∷ []) }
        ensures err { OnErr result (self.new ≡ self.old) }
    {
        self.items.push(reign)?;
        Ok(())
    }

    /// Takes the last reign away.
    pub fn drop_last(&mut self)
        requires { 0 < length self.old }
        ensures { (rs : List defs.Reign) (r : defs.Reign) → self.old ≡ rs ++ r ∷ [] → self.new ≡ rs }
    {
        self.items.pop();
    }

    /// Those of the reigns that begin by the entry of that number.
    pub fn begun_by(&self, number: u64) -> Result<Self, NoMemory>
        ensures { IfOk result (λ made. made ≡ begun_by number self.now) }
    {
        begun_in(*self.items.allocator(), &self.items, number)
    }

    /// An equal list.
    pub fn copy(&self) -> Result<Self, NoMemory>
        ensures { IfOk result (λ made. made ≡ self.now) }
    {
        Ok(Reigns {
            items: copy_all(*self.items.allocator(), &self.items)?,
        })
    }
}

fn copy_all(alloc: Global, reigns: &[Reign]) -> Result<Vec<Reign>, NoMemory>
    ensures { IfOk result (λ made. made.items ≡ reigns.now) }
{
    let mut made = Vec::new(alloc);
    for reign in reigns {
        made.push(reign.copy()?)?;
    }
    Ok(made)
}

fn begun_in(alloc: Global, reigns: &[Reign], number: u64) -> Result<Reigns, NoMemory>
    ensures { IfOk result (λ made. made ≡ begun_by number (map reign_value reigns.now)) }
{
    let mut made = Reigns::new(alloc);
    for reign in reigns {
        if reign.start <= number {
            made.push(reign.copy()?)?;
        }
    }
    Ok(made)
}

/// How long a sequence is, and the reigns in which its entries were made.
#[derive(Debug, Drop)]
pub struct History {
    /// How many entries there are.
    pub length: u64,
    /// The reigns, by rising starts.
    pub reigns: Reigns,
}

impl History {
    /// An equal history.
    pub fn copy(&self) -> Result<Self, NoMemory>
        ensures { IfOk result (λ made. made ≡ self.now) }
    {
        Ok(History {
            length: self.length,
            reigns: self.reigns.copy()?,
        })
    }
}
