//! Lists of nodes put together in M collation.
ghost use Rattle.std.specs.Prelude.{◌≡◌, ◌+◌, Bool, true, [], length, map, IfOk, IfSome, IfNone, IsTrue};
ghost use Rattle.std.specs.FinMap as globals;
ghost use Rattle.global_defs.specs.Key.{Key, key_cmp};
ghost use Rattle.gvt_leaf.specs.Listed.{node_value};
ghost use Rattle.region_store.specs.Merged.{Nodes, AreShared, IsTaken, comes_first, from_end};

use gvn_key::NoMemory;
use gvt_leaf::Node;
use std::alloc::Global;

/// Whether the last node of the first list comes before that of the second one, or is the only one of both.
fn is_before(first: &[Node<'_>], second: &[Node<'_>]) -> bool
    ensures { result ≡ comes_first (from_end first.now) (from_end second.now) }
{
    match (first.last(), second.last()) {
        (Some(one), Some(other)) => one.key < other.key,
        (Some(_), None) => true,
        (None, _) => false,
    }
}

/// Takes the lesser of the last nodes of two lists, if there is one.
fn take_next<'a>(first: &mut Vec<Node<'a>>, second: &mut Vec<Node<'a>>) -> Option<Node<'a>>
    ensures taken { IfSome result (λ node. IsTaken (node_value node) (from_end first.old.items) (from_end second.old.items) (from_end first.new.items) (from_end second.new.items)) }
    ensures fewer { IfSome result (λ node. length first.new.items + length second.new.items + 1 ≡ length first.old.items + length second.old.items) }
    ensures none { IfNone result ((first.old.items ≡ []) × (second.old.items ≡ [])) }
{
    if is_before(first, second) {
        first.pop()
    } else {
        second.pop()
    }
}

/// The nodes of two lists in M collation as one such list.
pub(crate) fn merged<'a>(
    alloc: Global,
    mut first: Vec<Node<'a>>,
    mut second: Vec<Node<'a>>,
) -> Result<Vec<Node<'a>>, NoMemory>
    // it's the ordered list that the two share out
    ensures { IfOk result (λ made. (all : Nodes) (p : Key → Bool) → IsTrue (globals.is_sorted key_cmp all) → AreShared all (map node_value first.entry.items) (map node_value second.entry.items) p → map node_value made.items ≡ all) }
{
    first.reverse();
    second.reverse();
    let mut all = Vec::new(alloc);
    while let Some(node) = take_next(&mut first, &mut second) {
        all.push(node)?;
    }
    Ok(all)
}
