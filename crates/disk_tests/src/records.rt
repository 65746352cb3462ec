// Each kind of record both ways, from worked bytes.
ghost use Rattle.jnl_record.specs.Values.{record_value, IsFirstVersion};
ghost use Rattle.journal_defs.specs.Journal.{IsInForm};

use crate::rows::{holds, same};
use gvn_key::terms::Update;
use gvn_key::{Bytes, Key};
use gvn_model::{Item, Items, Origin};
use jnl_record::{JnlRecord, RecordError, decode, encode};
use std::alloc::Global;
use std::process::Abort;

/// TCOM of number 1, mask 1, updater 1, serial 1, and SET ^X(1)="a" at position 0 of 1.
const TCOM: &[u8] =
    b"\x05\0\0\0\0\0\0\0\x01\x01\x01\0\0\0\x01\0\x01\0\x01\x04\0\0\x01\x06X\0\x03A1\0\0\x01a";

/// PINI of region 2 with before-images, generation 258, after generation 1.
const PINI: &[u8] = b"\x01\x01\x02\x01\0\0\x01\x02\0\0\0\x01";

/// A closing EPOCH of 258 entries and 3 blocks.
const EPOCH: &[u8] = b"\x02\x01\0\0\0\0\0\0\x01\x02\0\0\0\x03";

/// The record has these bytes.
fn is_written(rt: &impl Abort, alloc: Global, what: &JnlRecord, want: &[u8])
    requires form { IsInForm (record_value what.now) }
    requires version { IsFirstVersion what.now }
{
    let mut out = Bytes::new(alloc);
    encode(what, &mut out).expect(rt, "memory");
    same(rt, out.as_slice(), want);
}

/// The record that these bytes are.
fn record_of(rt: &impl Abort, alloc: Global, bytes: &[u8]) -> JnlRecord
    ensures form { IsInForm (record_value result) }
    ensures version { IsFirstVersion result }
{
    decode(alloc, bytes, 0).expect(rt, "a record")
}

#[test]
fn writes_a_transaction(rt: HostRuntime) {
    let sub = Bytes::of(rt.alloc(), b"1").expect(&rt, "memory");
    let key = Key::new(rt.alloc(), b"X", &[sub]).expect(&rt, "a key");
    let update = Update::Set(key, Bytes::of(rt.alloc(), b"a").expect(&rt, "memory"));
    let position = 0;
    let mut items = Items::new(rt.alloc());
    items.push(Item { position, update }).expect(&rt, "memory");
    let origin = Origin {
        updater: 1,
        serial: 1,
    };
    let record = JnlRecord::Tcom {
        number: 1,
        mask: 1,
        origin,
        count: 1,
        items,
    };
    is_written(&rt, rt.alloc(), &record, TCOM);
}

#[test]
fn reads_a_transaction(rt: HostRuntime) {
    let record = record_of(&rt, rt.alloc(), TCOM);
    let is_read = matches!(
        record,
        JnlRecord::Tcom {
            number: 1,
            mask: 1,
            count: 1,
            ..
        }
    );
    holds(&rt, is_read, TCOM);
}

#[test]
fn reads_and_writes_a_start(rt: HostRuntime) {
    let record = record_of(&rt, rt.alloc(), PINI);
    let is_read = matches!(
        record,
        JnlRecord::Pini {
            version: 1,
            region: 2,
            before: true,
            generation: 258,
            previous: 1
        }
    );
    holds(&rt, is_read, PINI);
    is_written(&rt, rt.alloc(), &record, PINI);
}

#[test]
fn reads_and_writes_an_epoch(rt: HostRuntime) {
    let record = record_of(&rt, rt.alloc(), EPOCH);
    let is_read = matches!(
        record,
        JnlRecord::Epoch {
            closing: true,
            number: 258,
            blocks: 3
        }
    );
    holds(&rt, is_read, EPOCH);
    is_written(&rt, rt.alloc(), &record, EPOCH);
}

#[test]
fn reads_and_writes_an_image(rt: HostRuntime) {
    let mut body = Bytes::of(rt.alloc(), b"\x03\0\0\x01\x02").expect(&rt, "memory");
    body.push_all(&[7; 4096]).expect(&rt, "memory");
    let record = record_of(&rt, rt.alloc(), body.as_slice());
    holds(
        &rt,
        matches!(record, JnlRecord::Pblk { block: 258, .. }),
        b"block 258",
    );
    is_written(&rt, rt.alloc(), &record, body.as_slice());
}

#[test]
fn refuses_at_the_place_given(rt: HostRuntime) {
    let refused = decode(rt.alloc(), &PINI[..11], 77);
    let is_there = matches!(refused, Err(RecordError::NotARecord { offset: 77 }));
    holds(&rt, is_there, b"place 77");
}
