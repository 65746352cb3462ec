// Lines of an extract, byte by byte.
use crate::rows::same;
use gvn_key::terms::Update;
use gvn_key::{Bytes, Key};
use gvn_model::{Entry, Origin, Stamp, Transaction, Updates};
use jnl_extract::{extract_entry, write_header};
use std::alloc::Global;
use std::process::Abort;

/// Entry 1, the first job of updater 1 in the reign A.1, with these updates.
fn first_entry(rt: &impl Abort, alloc: Global, updates: Updates) -> Entry {
    let root = Bytes::of(alloc, b"A").expect(rt, "memory");
    let origin = Origin {
        updater: 1,
        serial: 1,
    };
    Entry {
        number: 1,
        stamp: Stamp { root, cycle: 1 },
        transaction: Transaction { origin, updates },
    }
}

/// The first entry has these updates and these lines.
fn has_lines(rt: &impl Abort, alloc: Global, updates: Updates, want: &[u8]) {
    let entry = first_entry(rt, alloc, updates);
    let mut text = Bytes::new(alloc);
    extract_entry(&entry, &mut text).expect(rt, "memory");
    same(rt, text.as_slice(), want);
}

fn node(rt: &impl Abort, alloc: Global) -> Key {
    Key::parse(alloc, b"^X(1)").expect(rt, "a key")
}

/// Adds the SET of a node.
fn add_set(rt: &impl Abort, alloc: Global, updates: &mut Updates, value: &[u8]) {
    let value = Bytes::of(alloc, value).expect(rt, "memory");
    let update = Update::Set(node(rt, alloc), value);
    updates.push(update).expect(rt, "memory");
}

#[test]
fn a_header(rt: HostRuntime) {
    let mut text = Bytes::new(rt.alloc());
    write_header(b"A", 1, &mut text).expect(&rt, "memory");
    same(&rt, text.as_slice(), b"GTMRJEX01\\A\\1\n");
}

#[test]
fn a_set(rt: HostRuntime) {
    let mut updates = Updates::new(rt.alloc());
    add_set(&rt, rt.alloc(), &mut updates, b"a");
    has_lines(&rt, rt.alloc(), updates, b"SET\\1\\A.1\\1.1\\^X(1)=\"a\"\n");
}

#[test]
fn one_removal(rt: HostRuntime) {
    let mut updates = Updates::new(rt.alloc());
    let kill = Update::Kill(node(&rt, rt.alloc()));
    updates.push(kill).expect(&rt, "memory");
    has_lines(&rt, rt.alloc(), updates, b"KILL\\1\\A.1\\1.1\\^X(1)\n");
}

const BRACKETS: &[u8] = b"\
TSTART\\1\\A.1\\1.1
ZKILL\\1\\A.1\\1.1\\^X(1)
SET\\1\\A.1\\1.1\\^X(1)=\"\"
TCOM\\1\\A.1\\1.1
";

#[test]
fn two_updates_stand_in_brackets(rt: HostRuntime) {
    let mut updates = Updates::new(rt.alloc());
    let zkill = Update::ZKill(node(&rt, rt.alloc()));
    updates.push(zkill).expect(&rt, "memory");
    add_set(&rt, rt.alloc(), &mut updates, b"");
    has_lines(&rt, rt.alloc(), updates, BRACKETS);
}

#[test]
fn no_updates_are_no_text(rt: HostRuntime) {
    has_lines(&rt, rt.alloc(), Updates::new(rt.alloc()), b"");
}
