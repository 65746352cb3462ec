// What is asked of globals, and walks over them.
ghost use Rattle.std.specs.Prelude.{◌≡◌, Option, option_map, is_some, true, IfOk, IfSome};
ghost use Rattle.std.specs.Option.{option_copied};
ghost use Rattle.std.specs.FinMap as globals;
ghost use Rattle.global_defs.specs.Key.{sub_of};
ghost use Rattle.global_defs.specs.Valid.{is_key};
ghost use Rattle.global_defs.specs.Entry.{Globals};
ghost use Rattle.global_defs.specs.Evaluation as evaluation;
ghost use Rattle.gvn_key.specs.Faults.{child_of};
ghost use Rattle.gvn_globals.specs.Walks.{after, IsSubtree};

use gvn_key::{Bytes, Key, NoMemory};

/// Globals that a job is evaluated on.
pub trait Lookup {
    ghost seen: { Self → Globals };

    /// The node's value, if it has one.
    fn get(&self, key: &Key) -> Option<&[u8]>
        ensures { option_copied result ≡ globals.get (seen self.now) key.now };

    /// Whether the node has a value, and whether it has descendants: 0, 1, 10 or 11.
    fn defined(&self, key: &Key) -> u8
        ensures { result ≡ evaluation.defined (seen self.now) key.now };

    /// The next subscript at the level below the node, past the last one, by its own bytes: of a number its numeral. An
    /// empty last one comes before all.
    fn order(&self, key: &Key, last: &[u8]) -> Result<Option<Bytes>, NoMemory>
        ensures next { IfOk result (λ found. option_map sub_of found ≡ evaluation.order (seen self.now) key.now last.now) }
        ensures a_key { IfOk result (λ found. IfSome found (λ sub. is_key (child_of key.now (sub_of sub)) ≡ true)) };

    /// How many nodes have values.
    fn nodes(&self) -> u32
        ensures { result ≡ globals.len (seen self.now) };

    /// The first node of the same name past the key, if there is one.
    fn after(&self, key: &Key) -> Result<Option<Key>, NoMemory>
        ensures { IfOk result (λ found. found ≡ after (seen self.now) key.now) };
}

/// Globals that one can walk over.
pub(crate) trait Walk {
    ghost walked: { Self → Globals };

    /// Whether the node has a value.
    fn has(&self, key: &Key) -> bool
        ensures { result ≡ globals.contains_key (walked self.now) key.now };

    /// The first node of the same name past the key, if there is one.
    fn next(&self, key: &Key) -> Result<Option<Key>, NoMemory>
        ensures { IfOk result (λ found. found ≡ after (walked self.now) key.now) };
}

/// The nodes at and below the top one, in order.
pub(crate) fn subtree<W: Walk>(on: &W, top: &Key) -> Result<Vec<Key>, NoMemory>
    ensures { IfOk result (λ keys. IsSubtree (W.walked on.now) top.now keys.items) }
{
    let mut keys = Vec::new(top.code().allocator());
    if on.has(top) {
        keys.push(top.copy()?)?;
    }
    let mut found = on.next(top)?;
    while let Some(key) = found {
        if !key.is_under(top) {
            return Ok(keys);
        }
        found = on.next(&key)?;
        keys.push(key)?;
    }
    Ok(keys)
}
