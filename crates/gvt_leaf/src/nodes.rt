//! Nodes by the cells of a chain.
ghost use Rattle.std.specs.Prelude.{◌≡◌, ◌≤◌, ◌<◌, ◌++◌, ◌-◌, true, length, take, drop, map, filter, nat_eq, IfOk, OnOk};
ghost use Rattle.std.specs.List.{AllByRecursion, starts_with};
ghost use Rattle.global_defs.specs.Valid.{is_key};
ghost use Rattle.global_defs.specs.Encoded.{encoded};
ghost use Rattle.journal_defs.specs.Leaves.{IsEncoded, IsLeaf};
ghost use Rattle.gvt_leaf.specs.Chained.{all_cells};
ghost use Rattle.gvt_leaf.specs.Order.{AreRising};
ghost use Rattle.gvt_leaf.specs.Listed.{node_cell};

use super::chain::Chain;
use super::edits::run_end;
use super::seats::{place_of, seat};
use block_fmt::Block;
use gvn_key::{Key, NoMemory};
use std::alloc::Global;

/// A node with its value.
#[derive(Debug, Drop)]
pub struct Node<'a> {
    pub key: Key,
    pub value: &'a [u8],
}

/// The key that has these bytes as its encoded form.
pub(crate) fn key_of(alloc: Global, code: &[u8]) -> Result<Key, NoMemory>
    requires { IsEncoded code.now }
    ensures code { IfOk result (λ key. encoded key ≡ code.now) }
    ensures valid { IfOk result (λ key. is_key key ≡ true) }
{
    Key::of_code(alloc, code)
}

/// Adds the nodes of a leaf's cells from one place up to another.
fn push_nodes<'a>(
    list: &mut Vec<Node<'a>>,
    leaf: &'a Block,
    from: u32,
    end: u32,
) -> Result<(), NoMemory>
    requires order { from ≤ end }
    requires inside { end ≤ length leaf.now.cells }
    requires form { IsLeaf leaf.now }
    ensures nodes { OnOk result (map node_cell list.new.items ≡ map node_cell list.old.items ++ take (end - from) (drop from leaf.now.cells)) }
    ensures keys { OnOk result (AllByRecursion (λ n. is_key n.key ≡ true) list.old.items → AllByRecursion (λ n. is_key n.key ≡ true) list.new.items) }
{
    for i in from..end {
        let key = key_of(*list.allocator(), leaf.key(i))?;
        list.push(Node {
            key,
            value: leaf.value(i),
        })?;
    }
    Ok(())
}

/// The nodes whose encoded keys begin with these bytes, with their values, in the order of the keys.
pub(crate) fn nodes_under<'a>(
    alloc: Global,
    chain: &'a Chain,
    code: &[u8],
) -> Result<Vec<Node<'a>>, NoMemory>
    requires { AreRising chain.now.leaves }
    ensures nodes { IfOk result (λ list. map node_cell list.items ≡ filter (λ c. starts_with nat_eq c.0 code.now) (all_cells chain.now.leaves)) }
    ensures keys { IfOk result (λ list. AllByRecursion (λ n. is_key n.key ≡ true) list.items) }
{
    let mut list = Vec::new(alloc);
    let first = seat(chain, code);
    let mut from = place_of(chain.leaf(first), code);
    for i in first..chain.len() {
        let leaf = chain.leaf(i);
        let end = run_end(leaf, from, code);
        push_nodes(&mut list, leaf, from, end)?;
        if end < leaf.len() {
            return Ok(list);
        }
        from = 0;
    }
    Ok(list)
}
