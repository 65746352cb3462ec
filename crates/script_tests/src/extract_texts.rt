// Texts of extracts, and where each that is none has its first bad line.
use crate::rows::{cut_at, rows, same};
use gvn_key::Bytes;
use jnl_extract::{ExtractError, extract_entry, read_extract, write_header};
use std::alloc::Global;
use std::process::Abort;

/// Extracts, with a bar behind each.
const EXTRACTS: &[u8] = b"\
GTMRJEX01\\A\\1
|GTMRJEX01\\A\\1
SET\\1\\A.1\\1.1\\^X(1)=\"a\"
|GTMRJEX01\\A\\1099511627776
|GTMRJEX01\\ABCDEFGHIJKLMNO\\1099511627775
KILL\\1099511627775\\B9.4294967295\\64.4294967295\\^X
|GTMRJEX01\\A\\3
TSTART\\3\\A.1\\1.3
SET\\3\\A.1\\1.3\\^B(1,1)=\"80\"
ZKILL\\3\\A.1\\1.3\\^B(1,2)
TCOM\\3\\A.1\\1.3
SET\\4\\B.1\\1.1\\^B(\"a\\b\")=\"\"\"\"_$C(10)
|GTMRJEX01\\b1\\1
TSTART\\1\\A.1\\1.1
SET\\1\\A.1\\1.1\\^X=\"\"
SET\\1\\A.1\\1.1\\^X=\"\\\"
KILL\\1\\A.1\\1.1\\^X
TCOM\\1\\A.1\\1.1
|";

/// Texts whose first line is bad, with a bar behind each.
const BAD_HEADERS: &[u8] = b"\
|
|GTMRJEX01\\A\\1|\
GTMRJEX02\\A\\1
|GTMRJEX01\\A
|GTMRJEX01\\A\\0
|GTMRJEX01\\A\\01
|GTMRJEX01\\A\\+1
|GTMRJEX01\\A\\1099511627777
|GTMRJEX01\\1A\\1
|GTMRJEX01\\ABCDEFGHIJKLMNOP\\1
|GTMRJEX01\\A\\1\\
|";

/// Lines that are bad behind a header, with a bar behind each.
const BAD_LINES: &[u8] = b"\
SET\\1\\A.1\\1.1\\^X(1)=\"a\"|
|SET\\2\\A.1\\1.1\\^X(1)=\"a\"
|SET\\01\\A.1\\1.1\\^X(1)=\"a\"
|SET\\1\\A.0\\1.1\\^X(1)=\"a\"
|SET\\1\\A.4294967296\\1.1\\^X(1)=\"a\"
|SET\\1\\.1\\1.1\\^X(1)=\"a\"
|SET\\1\\A.1\\0.1\\^X(1)=\"a\"
|SET\\1\\A.1\\65.1\\^X(1)=\"a\"
|SET\\1\\A.1\\1.0\\^X(1)=\"a\"
|SET\\1\\A.1\\1.4294967296\\^X(1)=\"a\"
|SET\\1\\A.1\\1.1.1\\^X(1)=\"a\"
|SET\\1\\A.1\\1.1\\^X(1)=a
|SET\\1\\A.1\\1.1\\^X(1)=1
|SET\\1\\A.1\\1.1\\^X(1)=\"a\"_\"b\"
|SET\\1\\A.1\\1.1\\^X(1)=$C(65)
|SET\\1\\A.1\\1.1\\ ^X(1)=\"a\"
|SET\\1\\A.1\\1.1\\^X(01)=\"a\"
|SET\\1\\A.1\\1.1\\^X(1)
|SET\\1\\A.1\\1.1
|KILL\\1\\A.1\\1.1\\^X(1)=\"a\"
|GET\\1\\A.1\\1.1\\^X(1)
|KILL ^X(\"a\\1\\A.1\\1.1\\b\")
|TCOM\\1\\A.1\\1.1
|GTMRJEX01\\A\\1
|";

/// Where the first bad line is, how many updates stand in the entry that is open, and what stands behind them, with a bar behind
/// each.
const WITHIN: &[u8] = b"\
31 0 |\
31 0 TCOM\\1\\A.1\\1.1
|52 1 |\
52 1 TCOM\\1\\A.1\\1.1
|52 1 SET\\2\\A.1\\1.1\\^X=\"a\"
|52 1 KILL\\1\\B.1\\1.1\\^X
|52 1 KILL\\1\\A.2\\1.1\\^X
|52 1 KILL\\1\\A.1\\2.1\\^X
|73 2 TCOM\\1\\A.1\\1.2
|73 2 TSTART\\2\\A.1\\1.2
|73 2 TCOM\\1\\A.1\\1.1|\
88 2 TCOM\\1\\A.1\\1.1
SET\\1\\A.1\\1.2\\^X=\"a\"
|88 2 TCOM\\1\\A.1\\1.1
SET\\3\\A.1\\1.2\\^X=\"a\"
|5407 257 TCOM\\1\\A.1\\1.1
|";

/// What was read, written again.
fn again(rt: &impl Abort, alloc: Global, text: &[u8]) -> Bytes {
    let extract = read_extract(alloc, text).expect(rt, "an extract");
    let site = extract.site.as_slice();
    let mut out = Bytes::new(alloc);
    write_header(site, extract.from, &mut out).expect(rt, "memory");
    for entry in extract.entries.as_slice() {
        extract_entry(entry, &mut out).expect(rt, "memory");
    }
    out
}

#[test]
fn extracts_are_read(rt: HostRuntime) {
    for text in &rows(&rt, rt.alloc(), EXTRACTS, b'|') {
        same(&rt, again(&rt, rt.alloc(), text).as_slice(), text);
    }
}

/// Where the first bad line is, of a text that has one.
fn bad(alloc: Global, text: &[u8]) -> Option<u64> {
    match read_extract(alloc, text) {
        Err(ExtractError::BadLine { offset }) => Some(offset),
        _ => None,
    }
}

/// The first bad line of a text is there.
fn is_bad(rt: &impl Abort, alloc: Global, text: &[u8], want: &[u8]) {
    let mut told = Bytes::new(alloc);
    if let Some(offset) = bad(alloc, text) {
        told.push_decimal(offset).expect(rt, "memory");
    }
    same(rt, told.as_slice(), want);
}

#[test]
fn a_header_is_bad(rt: HostRuntime) {
    for text in &rows(&rt, rt.alloc(), BAD_HEADERS, b'|') {
        is_bad(&rt, rt.alloc(), text, b"0");
    }
}

#[test]
fn a_line_of_an_update_is_bad(rt: HostRuntime) {
    for line in &rows(&rt, rt.alloc(), BAD_LINES, b'|') {
        let mut text = Bytes::of(rt.alloc(), b"GTMRJEX01\\A\\1\n").expect(&rt, "memory");
        text.push_all(line).expect(&rt, "memory");
        is_bad(&rt, rt.alloc(), text.as_slice(), b"14");
    }
}

/// A header of 14 bytes, a first line of 17 and then 21 a line.
fn opened(rt: &impl Abort, alloc: Global, updates: u32, behind: &[u8]) -> Bytes {
    let head = b"GTMRJEX01\\A\\1\nTSTART\\1\\A.1\\1.1\n";
    let mut text = Bytes::of(alloc, head).expect(rt, "memory");
    for _ in 0..updates {
        let line = b"SET\\1\\A.1\\1.1\\^X=\"a\"\n";
        text.push_all(line).expect(rt, "memory");
    }
    text.push_all(behind).expect(rt, "memory");
    text
}

/// The number of these digits.
fn number(digits: &[u8]) -> u32 {
    let mut number = 0u32;
    for digit in digits {
        let digit = u32::from(digit.wrapping_sub(b'0'));
        number = number.wrapping_mul(10).wrapping_add(digit);
    }
    number
}

fn is_bad_within(rt: &impl Abort, alloc: Global, row: &[u8]) {
    let (want, row) = cut_at(row, b' ');
    let (updates, behind) = cut_at(row, b' ');
    let text = opened(rt, alloc, number(updates), behind);
    is_bad(rt, alloc, text.as_slice(), want);
}

#[test]
fn a_line_within_an_entry_is_bad(rt: HostRuntime) {
    for row in &rows(&rt, rt.alloc(), WITHIN, b'|') {
        is_bad_within(&rt, rt.alloc(), row);
    }
}

#[test]
fn an_entry_has_256_updates(rt: HostRuntime) {
    let whole = opened(&rt, rt.alloc(), 256, b"TCOM\\1\\A.1\\1.1\n");
    let out = again(&rt, rt.alloc(), whole.as_slice());
    same(&rt, out.as_slice(), whole.as_slice());
}

#[test]
fn no_entry_has_the_number_of_the_end(rt: HostRuntime) {
    let text = b"GTMRJEX01\\A\\1099511627776\nKILL\\1099511627776\\A.1\\1.1\\^X\n";
    is_bad(&rt, rt.alloc(), text, b"26");
}
