// Each form of a statement both ways, and where what is none has its fault.
use crate::rows::{cut, holds, lines, same};
use gvn_key::Bytes;
use gvn_key::terms::Statement;
use gvn_text::{TextError, read_located, read_statement, write_statement};
use std::alloc::Global;
use std::process::Abort;

/// Each form of a statement, in its canonical text.
const FORMS: &[u8] = b"\
SET ^X(1,\"a\")=\"b c\"
KILL ^X
ZKILL ^%A(-.5)
INCR ^B(1,3) -20
GET ^X(\"10a\")
DATA ^X
ORDER ^X(1,\"\")
ORDER ^X(1,\"a\")
CHECK ^X(0)=\"\"
CHECK ^B(1)>=100
";

/// The canonical text of a text, and the text.
const OTHERS: &[u8] = b"\
SET ^X=\"10\"|SET ^X=10
GET ^X(10)|GET   ^X(\"10\")
ORDER ^X(\"\")|ORDER ^X(\"\")
SET ^X=\"Ab\"|SET ^X=$C(65)_\"\"_\"b\"
SET ^X=\"a\"\"b\"_$C(10)_\"c\"_$C(255)|SET ^X=\"a\"\"b\"_$C(10)_\"c\"_$C(255)
";

/// Where the part with the first fault begins, and the text.
const PARTS: &[u8] = b"\
0|SETX ^X=1
3|SET
6|SET ^X
7|SET ^X=
6|SET ^X =1
7|SET ^X= 1
4|SET ^X>=5
4|GET ^X=5
4|SET ^X(1=5
7|SET ^X=01
7|SET ^X=\"a
10|SET ^X=1  2
6|ORDER ^X
7|INCR ^X
8|INCR ^X 1.5
10|CHECK ^X>=1000000000000000000
";

/// The fault of a value and its place, and the text.
const VALUES: &[u8] = b"\
BadQuote 9|SET ^X=\"a
BadQuote 7|SET ^X=
BadQuote 11|SET ^X=\"a\"_
BadChar 10|SET ^X=\"a\"b
BadChar 12|SET ^X=$C(256)
BadChar 7|SET ^X=1234567890123456789
";

/// The statement of a text is read, and written in this canonical text.
fn is_read(rt: &impl Abort, alloc: Global, text: &[u8], want: &[u8]) {
    let mut out = Bytes::new(alloc);
    let statement = read_statement(alloc, text).expect(rt, "a statement");
    write_statement(&statement, &mut out).expect(rt, "memory");
    same(rt, out.as_slice(), want);
}

#[test]
fn every_form_is_read_and_written(rt: HostRuntime) {
    for text in &lines(&rt, rt.alloc(), FORMS) {
        is_read(&rt, rt.alloc(), text, text);
    }
}

#[test]
fn other_forms_have_one_text(rt: HostRuntime) {
    for row in &lines(&rt, rt.alloc(), OTHERS) {
        let (want, text) = cut(row);
        is_read(&rt, rt.alloc(), text, want);
    }
}

#[test]
fn a_value_has_its_bytes(rt: HostRuntime) {
    let text = b"SET ^X=\"a\"\"b\"_$C(10)_\"c\"_$C(255)";
    match read_statement(rt.alloc(), text).expect(&rt, "a statement") {
        Statement::Set(_, value) => same(&rt, value.as_slice(), b"\x61\x22\x62\x0a\x63\xff"),
        _ => holds(&rt, false, text),
    }
}

/// Where the part with the first fault begins.
fn part(rt: &impl Abort, alloc: Global, text: &[u8]) -> Bytes {
    let mut told = Bytes::new(alloc);
    if let Err(fault) = read_located(alloc, text) {
        told.push_decimal(u64::from(fault.part))
            .expect(rt, "memory");
    }
    told
}

#[test]
fn a_fault_has_its_part(rt: HostRuntime) {
    for row in &lines(&rt, rt.alloc(), PARTS) {
        let (at, text) = cut(row);
        same(&rt, part(&rt, rt.alloc(), text).as_slice(), at);
    }
}

/// The fault of a text, and its place.
fn fault(alloc: Global, text: &[u8]) -> (&'static [u8], u32) {
    match read_statement(alloc, text) {
        Ok(_) => (b"none", 0),
        Err(TextError::BadQuote { at }) => (b"BadQuote ", at),
        Err(TextError::BadChar { at }) => (b"BadChar ", at),
        Err(TextError::ValueTooLong { at }) => (b"ValueTooLong ", at),
        Err(TextError::NoMemory) => (b"NoMemory", 0),
    }
}

fn has_its_fault(rt: &impl Abort, alloc: Global, text: &[u8], want: &[u8]) {
    let (fault, at) = fault(alloc, text);
    let mut told = Bytes::of(alloc, fault).expect(rt, "memory");
    told.push_decimal(u64::from(at)).expect(rt, "memory");
    same(rt, told.as_slice(), want);
}

#[test]
fn a_value_s_fault_has_its_own_place(rt: HostRuntime) {
    for row in &lines(&rt, rt.alloc(), VALUES) {
        let (want, text) = cut(row);
        has_its_fault(&rt, rt.alloc(), text, want);
    }
}

/// SET of `^X` to so many letters, and these bytes behind it.
fn long_set(rt: &impl Abort, alloc: Global, letters: u32, more: &[u8]) -> Bytes {
    let mut text = Bytes::of(alloc, b"SET ^X=\"").expect(rt, "memory");
    for _ in 0..letters {
        text.push(b'a').expect(rt, "memory");
    }
    text.push_all(more).expect(rt, "memory");
    text
}

#[test]
fn a_value_has_at_most_1500_bytes(rt: HostRuntime) {
    let text = long_set(&rt, rt.alloc(), 1500, b"\"");
    let read = read_statement(rt.alloc(), text.as_slice());
    holds(&rt, read.is_ok(), b"1,500 bytes");
    let text = long_set(&rt, rt.alloc(), 1500, b"\"_\"b\"");
    has_its_fault(&rt, rt.alloc(), text.as_slice(), b"ValueTooLong 7");
    let text = long_set(&rt, rt.alloc(), 1500, b"\"_\"b\" 5");
    same(&rt, part(&rt, rt.alloc(), text.as_slice()).as_slice(), b"7");
}
