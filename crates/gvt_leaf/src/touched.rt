//! Which leaves a change is about to change.
ghost use Rattle.std.specs.Prelude.{◌≤◌, ◌<◌, length, IfSome};
ghost use Rattle.gvt_leaf.specs.Order.{AreRising};
ghost use Rattle.gvt_leaf.specs.Touched.{IsInside, StandsInside};

use super::chain::Chain;
use super::seats::{place_of, seat};

/// Leaves one behind another in a chain, from one up to the one before another.
#[derive(Clone, Copy, Debug)]
pub(crate) struct Span {
    pub(crate) from: usize,
    pub(crate) to: usize,
}

/// No leaf.
const NONE: Span = Span { from: 0, to: 0 };

/// A cell's leaf in the chain, and its place there.
#[derive(Clone, Copy, Debug)]
struct Seat {
    leaf: usize,
    place: u32,
}

/// The first leaf that changes where one loses cells: the one before it, where none is left in it, since its link changes then.
fn first_changed(leaf: usize, is_emptied: bool) -> usize
    ensures { result ≤ leaf }
{
    if is_emptied && 0 < leaf {
        leaf - 1
    } else {
        leaf
    }
}

/// The leaf in which a cell of this key is put.
pub(crate) fn touched_by_set(chain: &Chain, key: &[u8]) -> Span
    requires { AreRising chain.now.leaves }
    ensures { IsInside chain.now.leaves result }
{
    let _ = chain.len();
    let leaf = seat(chain, key);
    Span {
        from: leaf,
        to: leaf + 1,
    }
}

/// The leaf that loses the cell of this key, where it has one.
pub(crate) fn touched_by_removal(chain: &Chain, key: &[u8]) -> Span
    requires { AreRising chain.now.leaves }
    ensures { IsInside chain.now.leaves result }
{
    let _ = chain.len();
    let leaf = seat(chain, key);
    if chain.leaf(leaf).find(key).is_err() {
        return NONE;
    }
    Span {
        from: first_changed(leaf, chain.leaf(leaf).len() == 1),
        to: leaf + 1,
    }
}

/// Where the first cell stands that isn't before these bytes.
fn first_from(chain: &Chain, code: &[u8]) -> Option<Seat>
    requires { AreRising chain.now.leaves }
    ensures { IfSome result (StandsInside chain.now.leaves) }
{
    let count = chain.len();
    let leaf = seat(chain, code);
    let place = place_of(chain.leaf(leaf), code);
    if place < chain.leaf(leaf).len() {
        Some(Seat { leaf, place })
    } else if leaf + 1 < count {
        Some(Seat {
            leaf: leaf + 1,
            place: 0,
        })
    } else {
        None
    }
}

/// Where the first cell stands that begins with these bytes.
fn first_under(chain: &Chain, code: &[u8]) -> Option<Seat>
    requires { AreRising chain.now.leaves }
    ensures { IfSome result (StandsInside chain.now.leaves) }
{
    match first_from(chain, code) {
        Some(first) if chain.leaf(first.leaf).key(first.place).starts_with(code) => Some(first),
        _ => None,
    }
}

/// The end of the leaves behind one that begin with these bytes.
fn end_under(chain: &Chain, leaf: usize, code: &[u8]) -> usize
    requires inside { leaf < length chain.now.leaves }
    requires rising { AreRising chain.now.leaves }
    ensures more { leaf < result }
    ensures inside { result ≤ length chain.now.leaves }
{
    let count = chain.len();
    let mut end = leaf + 1;
    while end < count && chain.leaf(end).key(0).starts_with(code) {
        end += 1;
    }
    end
}

/// The leaves that lose the cells that begin with these bytes.
pub(crate) fn touched_by_kill(chain: &Chain, code: &[u8]) -> Span
    requires { AreRising chain.now.leaves }
    ensures { IsInside chain.now.leaves result }
{
    let Some(first) = first_under(chain, code) else {
        return NONE;
    };
    let leaf = chain.leaf(first.leaf);
    let is_emptied = first.place == 0 && leaf.key(leaf.len() - 1).starts_with(code);
    Span {
        from: first_changed(first.leaf, is_emptied),
        to: end_under(chain, first.leaf, code),
    }
}
