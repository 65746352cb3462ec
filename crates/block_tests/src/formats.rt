//! Worked bytes of blocks.
use crate::cells::{cell, code, longest, set};
use block_fmt::Block;
use gvn_key::Bytes;
use std::alloc::Global;
use std::process::Abort;
use std::test::Fail;

/// The first bytes of a leaf with `^X(1)="a"` alone.
const FIRST: [u8; 18] = [
    0, 1, 0, 10, 0, 0, 0, 0, 6, b'X', 0, 3, 0x41, 0x31, 0, 0, 1, b'a',
];

#[test]
fn the_leaf_with_one_node(rt: HostRuntime) -> Result<(), Fail> {
    let alloc = rt.alloc();
    let mut block = Block::new(alloc, 0)?;
    let key = code(alloc, b"^X(1)")?;
    set(&rt, alloc, &mut block, key.as_slice(), b"a")?;
    let mut out = [7; 4096];
    block.encode(&mut out);
    assert_eq!(rt; &out[..18], FIRST.as_slice());
    assert!(rt; out[18..].iter().all(|byte| *byte == 0));
    let back = Block::decode(alloc, &out, 0)?;
    assert_eq!(rt; back.len(), 1);
    cell(&rt, &back, 0, key.as_slice(), b"a");
    Ok(())
}

/// A block full of nodes, which were put in no order.
fn full(rt: &impl Abort, alloc: Global) -> Result<Block, Fail> {
    let mut block = Block::new(alloc, 0)?;
    for i in 0..300u64 {
        let mut text = Bytes::of(alloc, b"^X(")?;
        text.push_decimal(i * 7919 % 1000)?;
        text.push_all(b")")?;
        let key = code(alloc, text.as_slice())?;
        if block.fits(key.as_slice(), b"123456789") {
            set(rt, alloc, &mut block, key.as_slice(), b"123456789")?;
        }
    }
    Ok(block)
}

/// Asserts that a block's cells are those of another one from a place on.
fn same_from(rt: &impl Abort, part: &Block, whole: &Block, from: u32) {
    for i in 0..part.len() {
        assert!(rt; from < 1000 && i < 1000);
        assert!(rt; from + i < whole.len());
        cell(rt, part, i, whole.key(from + i), whole.value(from + i));
    }
}

#[test]
fn many_nodes(rt: HostRuntime) -> Result<(), Fail> {
    let alloc = rt.alloc();
    let block = full(&rt, alloc)?;
    assert_eq!(rt; block.len(), 207);
    for i in 1..block.len() {
        assert!(rt; block.key(i - 1) < block.key(i));
        assert_eq!(rt; block.find(block.key(i)), Ok(i));
    }
    let mut out = [0; 4096];
    block.encode(&mut out);
    let mut back = Block::decode(alloc, &out, 0)?;
    assert_eq!(rt; back.len(), 207);
    let mut tail = Block::new(alloc, 0)?;
    back.move_tail(100, &mut tail);
    assert_eq!(rt; back.len(), 100);
    same_from(&rt, &back, &block, 0);
    same_from(&rt, &tail, &block, 100);
    back.remove_between(10, 20);
    assert_eq!(rt; back.len(), 90);
    cell(&rt, &back, 10, block.key(20), block.value(20));
    back.remove(0);
    back.encode(&mut out);
    assert_eq!(rt; Block::decode(alloc, &out, 0)?.len(), 89);
    out[4095] = 1;
    assert!(rt; Block::decode(alloc, &out, 5).is_err());
    Ok(())
}

#[test]
fn the_longest_keys_and_values(rt: HostRuntime) -> Result<(), Fail> {
    let alloc = rt.alloc();
    let mut block = Block::new(alloc, 7)?;
    let value = [b'v'; 1500];
    let first = longest(alloc, b"a")?;
    let second = longest(alloc, b"b")?;
    let third = longest(alloc, b"c")?;
    assert_eq!(rt; first.as_slice().len(), 255);
    set(&rt, alloc, &mut block, third.as_slice(), &value)?;
    set(&rt, alloc, &mut block, first.as_slice(), &value)?;
    assert!(rt; !block.fits(second.as_slice(), &value[..315]));
    set(&rt, alloc, &mut block, second.as_slice(), &value[..314])?;
    assert_eq!(rt; block.used(), 4088);
    let mut out = [0; 4096];
    block.encode(&mut out);
    let mut back = Block::decode(alloc, &out, 0)?;
    assert_eq!(rt; back.next(), 7);
    cell(&rt, &back, 1, second.as_slice(), &value[..314]);
    cell(&rt, &back, 2, third.as_slice(), &value);
    set(&rt, alloc, &mut back, second.as_slice(), b"")?;
    back.encode(&mut out);
    let again = Block::decode(alloc, &out, 0)?;
    cell(&rt, &again, 1, second.as_slice(), b"");
    assert_eq!(rt; again.used(), 3774);
    Ok(())
}
