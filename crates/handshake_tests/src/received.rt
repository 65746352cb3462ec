// Bytes that a Receiver Server gets.
ghost use Rattle.std.specs.Prelude.{◌≡◌};
ghost use Rattle.recv_pool.specs.Pools.{SameOut};
ghost use Rattle.repl_link.specs.MemEnds.{tx_line};

use super::histories::history;
use gvn_key::Bytes;
use receiver_server::{HearError, Purpose, Receiver, Step};
use recv_pool::{PoolOut, beside, make};
use repl_link::{LinkTx, Linker, MemLinker, MemTx};
use std::alloc::Global;
use std::test::Fail;

// A connection's frames from number 1 on: RESUME, two reigns with an entry each, and BYE. They have 13, 19, 31, 19, 31 and 13 bytes.
const FRAMES: [&[u8]; 6] = [
    b"\x02\x00\x00\x00\x08\x00\x00\x00\x00\x00\x00\x00\x01",
    b"\x04\x00\x00\x00\x0e\x01A\x00\x00\x00\x01\x00\x00\x00\x00\x00\x00\x00\x01",
    b"\x05\x00\x00\x00\x1a\x00\x00\x00\x00\x00\x00\x00\x01\x01\x00\x00\x00\x01\x00\x01\x01\x06X\x00\x03A1\x00\x00\x01a",
    b"\x04\x00\x00\x00\x0e\x01B\x00\x00\x00\x02\x00\x00\x00\x00\x00\x00\x00\x02",
    b"\x05\x00\x00\x00\x1a\x00\x00\x00\x00\x00\x00\x00\x02\x01\x00\x00\x00\x02\x00\x01\x01\x06X\x00\x03A1\x00\x00\x01a",
    b"\x06\x00\x00\x00\x08\x00\x00\x00\x00\x00\x00\x00\x02",
];

// Where the frames of a connection begin.
const PLACES: [usize; 6] = [0, 13, 32, 63, 82, 113];

fn connection(alloc: Global) -> Result<Bytes, Fail> {
    let mut bytes = Bytes::new(alloc);
    for frame in FRAMES {
        bytes.push_all(frame)?;
    }
    Ok(bytes)
}

// The first so many bytes, or all where there are no more.
fn front(bytes: &Bytes, count: usize) -> &[u8] {
    &bytes.as_slice()[..count.min(bytes.len())]
}

// The bytes behind the first so many.
fn back(bytes: &Bytes, count: usize) -> &[u8] {
    &bytes.as_slice()[count.min(bytes.len())..]
}

// Takes what has come out of the pool: how many entries.
fn drain(pool: &mut PoolOut) -> u64
    ensures { SameOut pool.old pool.new }
{
    let mut count = 0u64;
    for _ in 0..10 {
        if pool.take().is_some() {
            count = count.wrapping_add(1);
        }
    }
    count
}

// Sends the next piece of the bytes, or ends the sending behind the last: how many were sent by then.
fn feed(tx: &mut MemTx, bytes: &[u8], sent: usize, piece: usize) -> usize
    ensures line { tx_line tx.new ≡ tx_line tx.old }
    ensures session { (tx.new.session ≡ tx.old.session) × (tx.new.connection ≡ tx.old.connection) }
{
    let end = bytes.len().min(sent.saturating_add(piece));
    if sent < end {
        sent.saturating_add(tx.send(&bytes[sent..end]).unwrap_or(0))
    } else {
        tx.finish();
        sent
    }
}

// A secondary without entries is sent these bytes in pieces, and then the end: the last answer, and how many entries arrived.
fn heard(
    alloc: Global,
    bytes: &[u8],
    piece: usize,
) -> Result<(Result<Step, HearError>, u64), Fail> {
    let mine = history(alloc, 0, &[])?;
    let mut links = MemLinker::new(alloc);
    let mut receiver = Receiver::new(alloc, &mine, Purpose::Ships)?;
    let (mut into, mut out) = make(alloc, 1)?;
    let mut ends = links.connect(0)?;
    let mut sent = 0usize;
    let mut arrived = 0u64;
    let mut last = Ok(Step::Waits);
    for _ in 0..1000 {
        sent = feed(&mut ends.up_tx, bytes, sent, piece);
        last = receiver.step(&mut ends.down_rx, &mut into);
        beside(&mut into, &mut out);
        arrived = arrived.wrapping_add(drain(&mut out));
        match last {
            Ok(Step::Over) | Ok(Step::Ended) | Err(_) => break,
            _ => {}
        }
    }
    links.settle(0, ends);
    Ok((last, arrived))
}

#[test]
fn a_connection_in_any_pieces(rt: HostRuntime) -> Result<(), Fail> {
    let alloc = rt.alloc();
    let bytes = connection(alloc)?;
    for piece in 1..127 {
        let (last, arrived) = heard(alloc, bytes.as_slice(), piece)?;
        assert!(rt; last == Ok(Step::Over));
        assert_eq!(rt; arrived, 2);
    }
    Ok(())
}

#[test]
fn an_early_end_is_told(rt: HostRuntime) -> Result<(), Fail> {
    let alloc = rt.alloc();
    let bytes = connection(alloc)?;
    for length in 0..126 {
        let (last, arrived) = heard(alloc, front(&bytes, length), 7)?;
        assert!(rt; last == Ok(Step::Ended));
        let expected = if length < 63 {
            0
        } else if length < 113 {
            1
        } else {
            2
        };
        assert_eq!(rt; arrived, expected);
    }
    Ok(())
}

#[test]
fn a_foreign_byte_is_told_at_its_frame(rt: HostRuntime) -> Result<(), Fail> {
    let alloc = rt.alloc();
    let bytes = connection(alloc)?;
    for place in PLACES {
        for piece in [1, 8, 200] {
            let mut foreign = Bytes::of(alloc, front(&bytes, place))?;
            foreign.push(7)?;
            foreign.push_all(back(&bytes, place))?;
            let (last, arrived) = heard(alloc, foreign.as_slice(), piece)?;
            let offset = place as u64;
            assert!(rt; last == Err(HearError::BadFrame { offset }));
            assert_eq!(rt;
                arrived,
                if place < 63 {
                    0
                } else if place < 113 {
                    1
                } else {
                    2
                }
            );
        }
    }
    Ok(())
}

#[test]
fn a_frame_left_out_is_told_at_the_next(rt: HostRuntime) -> Result<(), Fail> {
    let alloc = rt.alloc();
    let bytes = connection(alloc)?;
    for i in 0..5 {
        let mut fewer = Bytes::of(alloc, front(&bytes, PLACES[i]))?;
        fewer.push_all(back(&bytes, PLACES[i + 1]))?;
        let (last, _) = heard(alloc, fewer.as_slice(), 5)?;
        let offset = PLACES[i] as u64;
        // the reign of B begins with entry 2; without its HISTORY that entry is A's, which is admissible
        if i == 3 {
            assert!(rt; last == Ok(Step::Over));
        } else {
            assert!(rt; last == Err(HearError::BadFrame { offset }));
        }
    }
    Ok(())
}

#[test]
fn bytes_behind_the_last_frame_are_bad(rt: HostRuntime) -> Result<(), Fail> {
    let alloc = rt.alloc();
    let mut bytes = connection(alloc)?;
    bytes.push(2)?;
    let (last, arrived) = heard(alloc, bytes.as_slice(), 200)?;
    assert!(rt; last == Err(HearError::BadFrame { offset: 126 }));
    assert_eq!(rt; arrived, 2);
    Ok(())
}
