//! Which blocks changes of leaves are about to change.
ghost use Rattle.global_defs.specs.Fields.{IsUpdate};
ghost use Rattle.gvn_key.specs.Terms.{update_value};

use super::leaves::again;
use gvn_key::terms::Update;
use gvn_key::{Bytes, Key};
use gvt_leaf::Leaves;
use std::alloc::Global;
use std::process::Abort;

/// The node of ^X with these subscripts.
fn node(rt: &impl Abort, alloc: Global, numbers: &[u64]) -> Key {
    let mut subs = Vec::new(alloc);
    for number in numbers {
        let mut sub = Bytes::new(alloc);
        sub.push_decimal(*number).expect(rt, "memory");
        subs.push(sub).expect(rt, "memory");
    }
    Key::new(alloc, b"X", &subs).expect(rt, "a key")
}

/// A SET of a node to so many bytes.
fn set(rt: &impl Abort, alloc: Global, numbers: &[u64], bytes: u64) -> Update
    ensures { IsUpdate (update_value result) }
{
    let key = node(rt, alloc, numbers);
    let _ = key.code();
    let mut value = Bytes::new(alloc);
    for _ in 0..bytes {
        value.push(b'a').expect(rt, "memory");
    }
    assert!(rt; value.len() <= 1500);
    Update::Set(key, value)
}

/// A KILL of a node.
fn kill(rt: &impl Abort, alloc: Global, numbers: &[u64]) -> Update
    ensures { IsUpdate (update_value result) }
{
    let key = node(rt, alloc, numbers);
    let _ = key.code();
    Update::Kill(key)
}

/// A ZKILL of a node.
fn zkill(rt: &impl Abort, alloc: Global, numbers: &[u64]) -> Update
    ensures { IsUpdate (update_value result) }
{
    let key = node(rt, alloc, numbers);
    let _ = key.code();
    Update::ZKill(key)
}

/// ^X(0,0) to ^X(4,24) with 1,000 bytes each, six nodes under each of the first four. Each of seven leaves has four of them, the last one
/// alone. No block has changed.
fn filled(rt: &impl Abort, alloc: Global) -> Leaves {
    let mut leaves = Leaves::new(alloc).expect(rt, "memory");
    for number in 0..25 {
        let update = set(rt, alloc, &[number / 6, number], 1000);
        leaves.apply(&update).expect(rt, "memory");
    }
    assert!(rt; leaves.pool().count() == 7);
    again(rt, alloc, leaves.pool())
}

/// Asserts that a change of those touches these blocks, in rising order, and no others.
fn touches(rt: &impl Abort, alloc: Global, update: &Update, blocks: &[u32])
    requires { IsUpdate (update_value update.now) }
{
    let mut leaves = filled(rt, alloc);
    assert!(rt; leaves.touched(update) == blocks);
    assert!(rt; leaves.taken(update).is_none());
    leaves.apply(update).expect(rt, "memory");
    assert!(rt; leaves.pool().dirty_numbers() == blocks);
}

#[test]
fn the_blocks_that_a_change_touches(rt: HostRuntime) {
    let alloc = rt.alloc();
    // one in the midst of a leaf
    touches(&rt, alloc, &set(&rt, alloc, &[1, 9], 900), &[2]);
    touches(&rt, alloc, &zkill(&rt, alloc, &[1, 9]), &[2]);
    // half of a leaf and the next one, which goes
    touches(&rt, alloc, &kill(&rt, alloc, &[1]), &[1, 2]);
    // a leaf, which goes, and half of the next one
    touches(&rt, alloc, &kill(&rt, alloc, &[2]), &[2, 3, 4]);
    // a leaf's only node
    touches(&rt, alloc, &zkill(&rt, alloc, &[4, 24]), &[5, 6]);
    touches(&rt, alloc, &kill(&rt, alloc, &[]), &[0, 1, 2, 3, 4, 5, 6]);
    // nodes that aren't there
    touches(&rt, alloc, &kill(&rt, alloc, &[7]), &[]);
    touches(&rt, alloc, &zkill(&rt, alloc, &[1]), &[]);
}

#[test]
fn the_block_that_a_leaf_cut_in_two_takes(rt: HostRuntime) {
    let alloc = rt.alloc();
    let mut before = filled(&rt, alloc);
    let update = kill(&rt, alloc, &[1]);
    before.apply(&update).expect(&rt, "memory");
    let mut leaves = again(&rt, alloc, before.pool());
    let update = set(&rt, alloc, &[2, 12], 1500);
    assert!(&rt; leaves.touched(&update) == [3].as_slice());
    assert!(&rt; leaves.taken(&update) == Some(2));
    leaves.apply(&update).expect(&rt, "memory");
    assert!(&rt; leaves.pool().dirty_numbers() == [2, 3].as_slice());
}
