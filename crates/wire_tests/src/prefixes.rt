//! Worked keys byte by byte.
use crate::rows::cut;
use gvn_key::KeyPrefix;
use std::process::Abort;
use std::test::Fail;

/// Whole encoded keys.
const WORKED: &[u8] = b"\
X\0
X\0\x03\x41\x31\0
X\0\x03\x41\x39\0
X\0\x03\x42\x31\0
X\0\x03\x40\x35\0
X\0\x01\xbe\x38\xff
X\0\x02
X\0\x04\x41\0";

/// A length, bytes that begin a key of it, and a byte with which they no longer do.
const REFUSED: &[u8] = b"\
2||1
2|X|Y
4|X\0|\x03
5|X\0\x04|\0
5|X\0\x04|1
6|X\0\x04\x31|\0
6|X\0\x04\x31|2
6|X\0\x04\x01|\x03
7|X\0\x03\x42\x31|\x30
6|X\0\x03\x41|\x30
6|X\0\x03|\x53
6|X\0\x01\xbe|\x39";

/// How many of these bytes are taken.
fn taken(prefix: &mut KeyPrefix, bytes: &[u8]) -> usize {
    for (i, byte) in bytes.iter().enumerate() {
        if !prefix.take(*byte) {
            return i;
        }
    }
    bytes.len()
}

fn is_taken(rt: &impl Abort, code: &[u8]) -> Result<(), Fail> {
    let len = u8::try_from(code.len())?;
    let mut prefix = KeyPrefix::new(len).ok_or("no length")?;
    assert_eq!(rt; prefix.left(), len);
    assert_eq!(rt; taken(&mut prefix, code), code.len());
    assert!(rt; prefix.is_whole() && !prefix.take(0));
    Ok(())
}

#[test]
fn worked_keys(rt: HostRuntime) -> Result<(), Fail> {
    for code in WORKED.split(|b| *b == b'\n') {
        is_taken(&rt, code)?;
    }
    Ok(())
}

#[test]
fn lengths_of_no_key(rt: HostRuntime) {
    assert!(rt; KeyPrefix::new(0).is_none() && KeyPrefix::new(1).is_none());
}

fn is_refused(rt: &impl Abort, row: &[u8]) -> Result<(), Fail> {
    let (len, row) = cut(row)?;
    let (front, byte) = cut(row)?;
    let ([len], [byte]) = (len, byte) else {
        return Err("no row")?;
    };
    let mut prefix = KeyPrefix::new(len.wrapping_sub(b'0')).ok_or("no length")?;
    assert_eq!(rt; taken(&mut prefix, front), front.len());
    assert!(rt; !prefix.take(*byte), "{len} {front:?} {byte}");
    Ok(())
}

#[test]
fn refused_bytes(rt: HostRuntime) -> Result<(), Fail> {
    for row in REFUSED.split(|b| *b == b'\n') {
        is_refused(&rt, row)?;
    }
    Ok(())
}
