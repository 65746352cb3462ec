// The worked bytes of an update, read and written with memory to spare.
ghost use Rattle.global_defs.specs.Fields.{IsUpdate};
ghost use Rattle.gvn_key.specs.Terms.{update_value};

use crate::rows::{holds, same};
use gvn_key::terms::Update;
use gvn_key::{Bytes, Key};
use repl_fields::{read_update, write_update};
use std::alloc::Global;
use std::process::Abort;

/// SET ^X(1)="a", and a byte behind it.
const SET: &[u8] = b"\x01\x06X\x00\x03A1\x00\x00\x01a!";

/// An update is written in these bytes.
fn is_written(rt: &impl Abort, alloc: Global, update: &Update, want: &[u8])
    requires { IsUpdate (update_value update.now) }
{
    let mut out = Bytes::new(alloc);
    write_update(update, &mut out).expect(rt, "memory");
    same(rt, out.as_slice(), want);
}

#[test]
fn reads_and_writes_a_set(rt: HostRuntime) {
    let read = read_update(rt.alloc(), SET).expect(&rt, "memory");
    holds(&rt, read.is_some(), SET);
    if let Some((update, rest)) = read {
        same(&rt, rest, b"!");
        is_written(&rt, rt.alloc(), &update, &SET[..11]);
    }
}

#[test]
fn reads_and_writes_a_kill(rt: HostRuntime) {
    let key = Key::new(rt.alloc(), b"X", &[]).expect(&rt, "a key");
    is_written(&rt, rt.alloc(), &Update::Kill(key), b"\x02\x02X\x00");
    let read = read_update(rt.alloc(), b"\x02\x02X\x00");
    let is_kill = matches!(read, Ok(Some((Update::Kill(_), _))));
    holds(&rt, is_kill, b"KILL");
}

#[test]
fn reads_and_writes_a_zkill(rt: HostRuntime) {
    let key = Key::new(rt.alloc(), b"X", &[]).expect(&rt, "a key");
    is_written(&rt, rt.alloc(), &Update::ZKill(key), b"\x03\x02X\x00");
    let read = read_update(rt.alloc(), b"\x03\x02X\x00");
    let is_zkill = matches!(read, Ok(Some((Update::ZKill(_), _))));
    holds(&rt, is_zkill, b"ZKILL");
}

fn is_refused(rt: &impl Abort, alloc: Global, bytes: &[u8]) {
    let read = read_update(alloc, bytes).expect(rt, "memory");
    holds(rt, read.is_none(), bytes);
}

#[test]
fn refuses_what_is_no_update(rt: HostRuntime) {
    is_refused(&rt, rt.alloc(), &SET[..10]);
    is_refused(&rt, rt.alloc(), b"\x04\x02X\x00");
    is_refused(&rt, rt.alloc(), b"\x02\x02X\x01");
}
