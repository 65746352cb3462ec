//! Cells put into blocks, and looked for.
use block_fmt::Block;
use gvn_key::{Bytes, Key};
use std::alloc::Global;
use std::process::Abort;
use std::test::Fail;

/// The encoded key of a node.
pub fn code(alloc: Global, text: &[u8]) -> Result<Bytes, Fail> {
    let mut out = Bytes::new(alloc);
    Key::parse(alloc, text)?.encode(&mut out)?;
    Ok(out)
}

/// A key whose code has 255 bytes, with this last letter.
pub fn longest(alloc: Global, last: &[u8]) -> Result<Bytes, Fail> {
    let mut text = Bytes::of(alloc, b"^X(\"")?;
    for _ in 0..250 {
        text.push_all(b"a")?;
    }
    text.push_all(last)?;
    text.push_all(b"\")")?;
    code(alloc, text.as_slice())
}

/// Puts a cell into a block in which it has room.
pub fn set(
    rt: &impl Abort,
    alloc: Global,
    block: &mut Block,
    key: &[u8],
    value: &[u8],
) -> Result<(), Fail> {
    assert!(rt; Key::decode(alloc, key)?.is_some());
    assert!(rt; value.len() <= 1500);
    assert!(rt; block.fits(key, value));
    block.put(key, value)?;
    Ok(())
}

/// Asserts that this cell stands there.
pub fn cell(rt: &impl Abort, block: &Block, i: u32, key: &[u8], value: &[u8]) {
    assert!(rt; i < block.len());
    assert_eq!(rt; block.key(i), key);
    assert_eq!(rt; block.value(i), value);
    assert_eq!(rt; block.find(key), Ok(i));
}
