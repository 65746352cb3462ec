//! Keys read one behind another.
use crate::cells::code;
use gvn_key::{Seen, first_key, next_key};
use std::alloc::Global;
use std::process::Abort;
use std::test::Fail;

/// Nodes in their order: no subscript, numbers, strings, a second subscript, another name.
const NODES: [&[u8]; 24] = [
    b"^T",
    b"^T(-10)",
    b"^T(-2)",
    b"^T(-1)",
    b"^T(0)",
    b"^T(.5)",
    b"^T(1)",
    b"^T(2)",
    b"^T(9)",
    b"^T(10)",
    b"^T(11)",
    b"^T(19)",
    b"^T(20)",
    b"^T(100)",
    b"^T(101)",
    b"^T(12349)",
    b"^T(12350)",
    b"^T(12351)",
    b"^T(\"A\")",
    b"^T(\"AB\")",
    b"^T(\"AC\")",
    b"^T(\"B\")",
    b"^T(\"B\",1)",
    b"^U",
];

/// Whether a key's bytes follow those of another.
fn follows(rt: &impl Abort, last: &[u8], next: &[u8]) -> bool {
    let mut seen = Seen::nothing();
    assert!(rt; first_key(&mut seen, last));
    let is_next = next_key(last, &mut seen, next);
    // What was told of the second serves as well.
    assert!(rt; !is_next || !next_key(next, &mut seen, last));
    is_next
}

#[test]
fn keys_follow_those_before_them(rt: HostRuntime) -> Result<(), Fail> {
    for i in 0..NODES.len() {
        let last = code(rt.alloc(), NODES[i])?;
        for j in 0..NODES.len() {
            let next = code(rt.alloc(), NODES[j])?;
            assert_eq!(&rt; follows(&rt, last.as_slice(), next.as_slice()), i < j);
        }
    }
    Ok(())
}

/// Whether these bytes follow the key ^T(12), whatever they are.
fn follows_twelve(rt: &impl Abort, alloc: Global, next: &[u8]) -> Result<bool, Fail> {
    let last = code(alloc, b"^T(12)")?;
    Ok(follows(rt, last.as_slice(), next))
}

#[test]
fn bytes_of_no_key_follow_none(rt: HostRuntime) -> Result<(), Fail> {
    let alloc = rt.alloc();
    // 13 and 12.3, and then a colon and a 0 in place of the 3, and no end
    assert!(&rt; follows_twelve(&rt, alloc, b"T\x00\x03\x4213\x00")?);
    assert!(&rt; follows_twelve(&rt, alloc, b"T\x00\x03\x42123\x00")?);
    assert!(&rt; !follows_twelve(&rt, alloc, b"T\x00\x03\x421:\x00")?);
    assert!(&rt; !follows_twelve(&rt, alloc, b"T\x00\x03\x4220\x00")?);
    assert!(&rt; !follows_twelve(&rt, alloc, b"T\x00\x03\x4213")?);
    assert!(&rt; !first_key(&mut Seen::nothing(), b""));
    Ok(())
}
