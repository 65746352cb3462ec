//! Leaves beside globals in a tree, through random updates.
ghost use Rattle.global_defs.specs.Fields.{IsUpdate};
ghost use Rattle.gvn_key.specs.Terms.{update_value};

use block_fmt::Block;
use block_pool::BlockPool;
use gvn_globals::Globals;
use gvn_key::terms::Update;
use gvn_key::{Bytes, Key};
use gvt_leaf::Leaves;
use std::alloc::Global;
use std::process::Abort;

/// The next of some numbers that look random.
fn next(seed: u64) -> u64 {
    (seed % 0x7fff_ffff) * 48_271 % 0x7fff_ffff
}

/// The name of a node.
fn name(seed: u64) -> &'static [u8] {
    match seed % 3 {
        0 => b"X",
        1 => b"Y",
        _ => b"Long",
    }
}

/// A subscript by a number.
fn sub(rt: &impl Abort, alloc: Global, seed: u64) -> Bytes {
    let front: &[u8] = if seed % 5 == 0 { b"a" } else { b"" };
    let mut sub = Bytes::of(alloc, front).expect(rt, "memory");
    sub.push_decimal(seed % 20).expect(rt, "memory");
    sub
}

/// A key whose code has 255 bytes.
fn long_key(rt: &impl Abort, alloc: Global, last: &[u8]) -> Key {
    let mut sub = Bytes::new(alloc);
    for _ in 0..250 {
        sub.push(b'a').expect(rt, "memory");
    }
    sub.push_all(last).expect(rt, "memory");
    let key = Key::new(alloc, b"X", &[sub]).expect(rt, "a key");
    assert!(rt; key.as_encoded().len() == 255);
    key
}

/// A key of subscripts by a number.
fn short_key(rt: &impl Abort, alloc: Global, seed: u64) -> Key {
    let mut subs = Vec::new(alloc);
    let mut rest = seed / 3;
    for _ in 0..rest % 4 {
        rest /= 4;
        subs.push(sub(rt, alloc, rest)).expect(rt, "memory");
        rest /= 20;
    }
    Key::new(alloc, name(seed), &subs).expect(rt, "a key")
}

/// A key by a number, one in 50 with a code of 255 bytes.
fn key(rt: &impl Abort, alloc: Global, seed: u64) -> Key {
    match seed % 100 {
        0 => long_key(rt, alloc, b"b"),
        50 => long_key(rt, alloc, b"c"),
        _ => short_key(rt, alloc, seed),
    }
}

/// How long a value is: 1,500 bytes, none, or some.
fn size(seed: u64) -> u64 {
    match seed % 11 {
        0 => 1500,
        1 => 0,
        _ => seed / 11 % 60,
    }
}

/// A value by a number.
fn value(rt: &impl Abort, alloc: Global, seed: u64) -> Bytes {
    let mut value = Bytes::new(alloc);
    for i in 0..size(seed) {
        value.push((i % 251) as u8).expect(rt, "memory");
    }
    value
}

/// Makes a change in both.
fn change(rt: &impl Abort, leaves: &mut Leaves, globals: &mut Globals, update: &Update)
    requires { IsUpdate (update_value update.now) }
{
    leaves.apply(update).expect(rt, "memory");
    globals.apply(update).expect(rt, "memory");
}

/// Gives a node a value in both.
fn set(rt: &impl Abort, leaves: &mut Leaves, globals: &mut Globals, node: Key, value: Bytes) {
    let _ = node.code();
    assert!(rt; value.len() <= 1500);
    change(rt, leaves, globals, &Update::Set(node, value));
}

/// Makes a change by a number in both.
fn step(rt: &impl Abort, alloc: Global, seed: u64, leaves: &mut Leaves, globals: &mut Globals) {
    let node = key(rt, alloc, next(seed));
    let _ = node.code();
    match seed % 40 {
        0 => change(rt, leaves, globals, &Update::Kill(node)),
        1..=6 => change(rt, leaves, globals, &Update::ZKill(node)),
        _ => set(rt, leaves, globals, node, value(rt, alloc, seed)),
    }
}

/// Both have the same nodes.
fn same(rt: &impl Abort, alloc: Global, leaves: &Leaves, globals: &Globals) {
    let left = leaves.list(alloc).expect(rt, "memory");
    let right = globals.list(alloc).expect(rt, "memory");
    assert!(rt; left.len() == right.len());
    for (left, right) in left.iter().zip(right.iter()) {
        assert!(rt; left.key.as_encoded() == right.key.as_encoded());
        assert!(rt; left.value == right.value);
    }
}

/// The leaves of the bytes that these blocks are written as.
pub(crate) fn again(rt: &impl Abort, alloc: Global, pool: &BlockPool) -> Leaves {
    let mut back = BlockPool::new(alloc);
    let mut bytes = [0; 4096];
    for number in 0..pool.count() {
        pool.block(number).encode(&mut bytes);
        let block = Block::decode(alloc, &bytes, 0).expect(rt, "a block");
        back.add(block, false).expect(rt, "memory");
    }
    Leaves::open(alloc, back).expect(rt, "a chain")
}

/// Both have the same node behind a key.
fn same_after(rt: &impl Abort, leaves: &Leaves, globals: &Globals, key: &Key) {
    let left = leaves.after(key).expect(rt, "memory");
    let right = globals.after(key).expect(rt, "memory");
    match (left, right) {
        (Some(left), Some(right)) => {
            assert!(rt; left.as_encoded() == right.as_encoded());
        }
        (None, None) => {}
        _ => panic!(rt; "only one has a node there"),
    }
}

/// Both have the same subscript next.
fn same_order(rt: &impl Abort, leaves: &Leaves, globals: &Globals, key: &Key, last: &[u8]) {
    let left = leaves.order(key, last).expect(rt, "memory");
    let right = globals.order(key, last).expect(rt, "memory");
    assert!(rt; left == right);
}

/// Both list as many nodes under a key.
fn same_under(rt: &impl Abort, alloc: Global, leaves: &Leaves, globals: &Globals, key: &Key) {
    let left = leaves.list_under(alloc, key).expect(rt, "memory");
    let right = globals.list_under(alloc, key).expect(rt, "memory");
    assert!(rt; left.len() == right.len());
}

/// Both answer the same at a key.
fn alike(rt: &impl Abort, alloc: Global, leaves: &Leaves, globals: &Globals, key: &Key) {
    assert!(rt; leaves.get(key) == globals.get(key));
    assert!(rt; leaves.defined(key) == globals.defined(key));
    assert!(rt; leaves.nodes() == globals.nodes());
    same_after(rt, leaves, globals, key);
    same_order(rt, leaves, globals, key, b"");
    same_order(rt, leaves, globals, key, b"5");
    same_order(rt, leaves, globals, key, b"a1");
    same_under(rt, alloc, leaves, globals, key);
}

#[test]
fn random_updates(rt: HostRuntime) {
    let alloc = rt.alloc();
    let mut leaves = Leaves::new(alloc).expect(&rt, "memory");
    let mut globals = Globals::new(alloc);
    let mut seed = 1;
    for i in 0..10_000u32 {
        seed = next(seed);
        step(&rt, alloc, seed, &mut leaves, &mut globals);
        if i % 10 == 0 {
            alike(&rt, alloc, &leaves, &globals, &key(&rt, alloc, seed));
        }
        if i % 1_000 == 999 {
            same(&rt, alloc, &leaves, &globals);
            same(&rt, alloc, &again(&rt, alloc, leaves.pool()), &globals);
        }
    }
}

/// The key of ^X(number).
fn numbered(rt: &impl Abort, alloc: Global, number: u64) -> Key {
    let mut sub = Bytes::new(alloc);
    sub.push_decimal(number).expect(rt, "memory");
    Key::new(alloc, b"X", &[sub]).expect(rt, "a key")
}

#[test]
fn rising_keys_fill_their_leaves(rt: HostRuntime) {
    let alloc = rt.alloc();
    let mut leaves = Leaves::new(alloc).expect(&rt, "memory");
    let mut globals = Globals::new(alloc);
    for i in 1..2_000u64 {
        let value = Bytes::of(alloc, b"12345678901234567890").expect(&rt, "memory");
        set(
            &rt,
            &mut leaves,
            &mut globals,
            numbered(&rt, alloc, i),
            value,
        );
    }
    assert!(rt; leaves.pool().count() < 20);
    same(&rt, alloc, &leaves, &globals);
    let top = Key::new(alloc, b"X", &[]).expect(&rt, "a key");
    let _ = top.code();
    change(&rt, &mut leaves, &mut globals, &Update::Kill(top));
    assert!(rt; leaves.nodes() == 0);
    same(&rt, alloc, &leaves, &globals);
}
