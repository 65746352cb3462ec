// Tables of bytes, and what a row has to be.
use std::alloc::Global;
use std::process::Abort;

/// What stands before the first such byte, and what stands behind it. All stands before one that isn't there.
pub fn cut_at(text: &[u8], end: u8) -> (&[u8], &[u8]) {
    for (i, byte) in text.iter().enumerate() {
        if *byte == end {
            return (&text[..i], &text[i + 1..]);
        }
    }
    (text, &[])
}

/// What stands before the first bar of a row, and what stands behind it.
pub fn cut(row: &[u8]) -> (&[u8], &[u8]) {
    cut_at(row, b'|')
}

/// The rows of a table, each with such a byte behind it.
pub fn rows<'a>(rt: &impl Abort, alloc: Global, table: &'a [u8], end: u8) -> Vec<&'a [u8]> {
    let mut rows = Vec::new(alloc);
    let mut left = table;
    for _ in 0..table.len() {
        if left.is_empty() {
            break;
        }
        let (row, rest) = cut_at(left, end);
        rows.push(row).expect(rt, "memory");
        left = rest;
    }
    rows
}

/// The lines of a table.
pub fn lines<'a>(rt: &impl Abort, alloc: Global, table: &'a [u8]) -> Vec<&'a [u8]> {
    rows(rt, alloc, table, b'\n')
}

/// These bytes are what was wanted.
pub fn same(rt: &impl Abort, told: &[u8], want: &[u8]) {
    assert_eq!(rt; told, want);
}

/// A fact holds of a row.
pub fn holds(rt: &impl Abort, fact: bool, row: &[u8]) {
    assert!(rt; fact, "{row:?}");
}
