// Keys, and texts of keys, from worked vectors.
use crate::rows::{cut, holds, lines, rows, same};
use gvn_key::{Bytes, Key, KeyError, is_number};
use std::alloc::Global;
use std::process::Abort;

/// The subscripts of `^X`, each with a semicolon behind it; its encoded key; its text.
const ENCODED: &[u8] = b"\
|X\x00|^X
1;|X\x00\x03\x41\x31\x00|^X(1)
9;|X\x00\x03\x41\x39\x00|^X(9)
10;|X\x00\x03\x42\x31\x00|^X(10)
.5;|X\x00\x03\x40\x35\x00|^X(.5)
-1;|X\x00\x01\xbe\x38\xff|^X(-1)
0;|X\x00\x02|^X(0)
A;|X\x00\x04\x41\x00|^X(\"A\")
\x00\x01\x02;|X\x00\x04\x01\x01\x01\x02\x02\x00|^X($C(0,1,2))
123456789012345678;|X\x00\x03\x52123456789012345678\x00|^X(123456789012345678)
1;1234567890123456789;|X\x00\x03\x41\x31\x00\x041234567890123456789\x00|^X(1,\"1234567890123456789\")
";

const NUMBERS: &[u8] = b"\
0
7
-7
.5
-.05
10.01
999999999999999999
.000000000000000001
";

const STRINGS: &[u8] = b"
-0
01
1.0
+1
0.5
1.
.
-
1E5
1.2.3
1234567890123456789
";

/// A fault or none, a name, and subscripts with a semicolon behind each.
const FAULTS: &[u8] = b"\
none|%x9|
BadName||
BadName|9|
BadName|X%|
BadName|X_Y|;
NullSub|X|1;;2;
";

/// A text of a key, and its canonical text.
const TEXTS: &[u8] = b"\
^X|^X
^%z9(1,-.5)|^%z9(1,-.5)
^X(\"10\")|^X(10)
^X(\"1\"_\"0\",$C(65))|^X(10,\"A\")
^X(\"a,b)\"\"\")|^X(\"a,b)\"\"\")
^X(\"01\")|^X(\"01\")
^X(\"1234567890123456789\")|^X(\"1234567890123456789\")
";

/// The fault of a text, and the text.
const BAD_TEXTS: &[u8] = b"\
BadName|
BadName|X
BadName|^
BadName|^1(\"\")
BadName|^X Y
NameTooLong|^aaaaaaaaaaaaaaaaaaaaaaaaaaaaaaaa(
BadSub|^X(
BadSub|^X()
BadSub|^X)
BadSub|^X(1
BadSub|^X(1))
BadSub|^X(01)
BadSub|^X(1234567890123456789)
BadSub|^X(\"a)
NullSub|^X(1,\"\",x)
BadSub|^X(1,x,\"\")
TooManySubs|^X(1,1,1,1,1,1,1,1,1,1,1,1,1,1,1,1,1,1,1,1,1,1,1,1,1,1,1,1,1,1,1,1)
";

/// The subscripts that have a semicolon behind them.
fn subs_of(rt: &impl Abort, alloc: Global, text: &[u8]) -> Vec<Bytes> {
    let mut subs = Vec::new(alloc);
    for sub in &rows(rt, alloc, text, b';') {
        let sub = Bytes::of(alloc, sub).expect(rt, "memory");
        subs.push(sub).expect(rt, "memory");
    }
    subs
}

fn encodes(rt: &impl Abort, alloc: Global, row: &[u8]) {
    let (subs, row) = cut(row);
    let (encoded, text) = cut(row);
    let subs = subs_of(rt, alloc, subs);
    let made = Key::new(alloc, b"X", &subs).expect(rt, "a key");
    let mut out = Bytes::of(alloc, b"-").expect(rt, "memory");
    made.encode(&mut out).expect(rt, "memory");
    same(rt, &out.as_slice()[1..], encoded);
    same(rt, made.as_encoded(), encoded);
    out.clear();
    made.write(&mut out).expect(rt, "memory");
    same(rt, out.as_slice(), text);
    same(rt, made.name(), b"X");
    has_subs(rt, &made, &subs, text);
    has_fronts(rt, alloc, &made, &subs);
}

/// These are the subscripts, all together and one by one.
fn has_subs(rt: &impl Abort, made: &Key, subs: &[Bytes], text: &[u8]) {
    holds(rt, made.depth() == subs.len(), text);
    let all = made.subs().expect(rt, "memory");
    holds(rt, all.len() == subs.len(), text);
    for (i, sub) in subs.iter().enumerate() {
        holds(rt, all.get(i) == Some(sub), text);
        let one = made
            .sub_at(i)
            .expect(rt, "memory")
            .expect(rt, "a subscript");
        same(rt, one.as_slice(), sub.as_slice());
    }
    holds(
        rt,
        made.sub_at(subs.len()).expect(rt, "memory").is_none(),
        text,
    );
}

/// The key's fronts are those that the first subscripts make.
fn has_fronts(rt: &impl Abort, alloc: Global, made: &Key, subs: &[Bytes]) {
    for count in 0..subs.len() + 2 {
        let front = made.front(count).expect(rt, "memory");
        let again = Key::new(alloc, b"X", &subs[..count.min(subs.len())]).expect(rt, "a key");
        same(rt, front.as_encoded(), again.as_encoded());
    }
}

#[test]
fn encoded_keys(rt: HostRuntime) {
    for row in &lines(&rt, rt.alloc(), ENCODED) {
        encodes(&rt, rt.alloc(), row);
    }
}

#[test]
fn a_copied_key(rt: HostRuntime) {
    let made = Key::new(rt.alloc(), b"X", &[]).expect(&rt, "a key");
    let copied = made.copy().expect(&rt, "memory");
    same(&rt, copied.as_encoded(), b"X\x00");
}

#[test]
fn numbers_and_strings(rt: HostRuntime) {
    for text in &lines(&rt, rt.alloc(), NUMBERS) {
        holds(&rt, is_number(text), text);
    }
    for text in &lines(&rt, rt.alloc(), STRINGS) {
        holds(&rt, !is_number(text), text);
    }
}

fn told(fault: Option<KeyError>) -> &'static [u8] {
    match fault {
        None => b"none",
        Some(KeyError::BadName) => b"BadName",
        Some(KeyError::NameTooLong) => b"NameTooLong",
        Some(KeyError::BadSub) => b"BadSub",
        Some(KeyError::NullSub) => b"NullSub",
        Some(KeyError::TooManySubs) => b"TooManySubs",
        Some(KeyError::KeyTooLong) => b"KeyTooLong",
        Some(KeyError::NoMemory) => b"NoMemory",
    }
}

/// The fault of a name, and of subscripts with a semicolon behind each.
fn fault(rt: &impl Abort, alloc: Global, name: &[u8], subs: &[u8]) -> &'static [u8] {
    let subs = subs_of(rt, alloc, subs);
    told(Key::new(alloc, name, &subs).err())
}

#[test]
fn names_and_subscripts(rt: HostRuntime) {
    for row in &lines(&rt, rt.alloc(), FAULTS) {
        let (want, row) = cut(row);
        let (name, subs) = cut(row);
        same(&rt, fault(&rt, rt.alloc(), name, subs), want);
    }
}

/// Bytes, so many times one behind another, and these behind them.
fn repeated(rt: &impl Abort, alloc: Global, bytes: &[u8], count: u32, more: &[u8]) -> Bytes {
    let mut made = Bytes::new(alloc);
    for _ in 0..count {
        made.push_all(bytes).expect(rt, "memory");
    }
    made.push_all(more).expect(rt, "memory");
    made
}

#[test]
fn lengths_of_names(rt: HostRuntime) {
    let name = repeated(&rt, rt.alloc(), b"a", 31, b"");
    same(&rt, fault(&rt, rt.alloc(), name.as_slice(), b""), b"none");
    let name = repeated(&rt, rt.alloc(), b"a", 32, b"");
    same(
        &rt,
        fault(&rt, rt.alloc(), name.as_slice(), b""),
        b"NameTooLong",
    );
}

/// The fault of `^X` with subscripts, these bytes so many times, and more behind them.
fn long(rt: &impl Abort, alloc: Global, bytes: &[u8], count: u32, more: &[u8]) -> &'static [u8] {
    let subs = repeated(rt, alloc, bytes, count, more);
    fault(rt, alloc, b"X", subs.as_slice())
}

#[test]
fn lengths_of_subscripts(rt: HostRuntime) {
    same(&rt, long(&rt, rt.alloc(), b"1;", 31, b""), b"none");
    same(&rt, long(&rt, rt.alloc(), b"1;", 32, b""), b"TooManySubs");
    same(&rt, long(&rt, rt.alloc(), b"1;", 31, b";"), b"NullSub");
    same(&rt, long(&rt, rt.alloc(), b"a", 251, b";"), b"none");
    same(&rt, long(&rt, rt.alloc(), b"a", 252, b";"), b"KeyTooLong");
    same(&rt, long(&rt, rt.alloc(), b"a", 252, b";;"), b"NullSub");
}

fn is_read(rt: &impl Abort, alloc: Global, row: &[u8]) {
    let (text, canonical) = cut(row);
    let mut out = Bytes::new(alloc);
    let key = Key::parse(alloc, text).expect(rt, "a key");
    key.write(&mut out).expect(rt, "memory");
    same(rt, out.as_slice(), canonical);
}

#[test]
fn key_texts(rt: HostRuntime) {
    for row in &lines(&rt, rt.alloc(), TEXTS) {
        is_read(&rt, rt.alloc(), row);
    }
}

#[test]
fn bad_key_texts(rt: HostRuntime) {
    for row in &lines(&rt, rt.alloc(), BAD_TEXTS) {
        let (want, text) = cut(row);
        same(&rt, told(Key::parse(rt.alloc(), text).err()), want);
    }
}
