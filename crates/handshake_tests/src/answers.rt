// What a primary answers, and over links that are cut.
ghost use Rattle.std.specs.Prelude.{◌<◌, ◌^◌};
ghost use Rattle.global_defs.specs.declared.limits.TheConstants.{NUMBERS_END};

use super::histories::{Record, history, many};
use gvn_key::Bytes;
use receiver_server::Handshake;
use repl_link::{Linker, MemLinker};
use session_handshake::{SessionError, handshake};
use std::alloc::Global;
use std::test::Fail;

const FIRST: [Record; 1] = [(b'A', 1, 1)];

const PARTED: [Record; 2] = [(b'A', 1, 1), (b'B', 2, 3)];

fn asked(
    alloc: Global,
    length: u64,
    records: &[Record],
    own_length: u64,
    own: &[Record],
    links: &mut MemLinker,
) -> Result<Result<Handshake, SessionError>, Fail>
    requires { own_length < NUMBERS_END }
{
    let theirs = history(alloc, length, records)?;
    let mine = history(alloc, own_length, own)?;
    let name = Bytes::of(alloc, b"B")?;
    Ok(handshake(alloc, &theirs, &mine, &name, links, 1))
}

#[test]
fn answers_tell_where_to_go_on(rt: HostRuntime) -> Result<(), Fail> {
    let alloc = rt.alloc();
    let mut links = MemLinker::new(alloc);
    let empty = asked(alloc, 3, &FIRST, 0, &[], &mut links)?;
    let behind = asked(alloc, 3, &FIRST, 2, &FIRST, &mut links)?;
    let parted = asked(alloc, 3, &FIRST, 3, &PARTED, &mut links)?;
    let past = asked(alloc, 3, &FIRST, 5, &FIRST, &mut links)?;
    assert!(rt; empty == Ok(Handshake::Resume(1)));
    assert!(rt; behind == Ok(Handshake::Resume(3)));
    assert!(rt; parted == Ok(Handshake::RollbackFirst(3)));
    assert!(rt; past == Ok(Handshake::RollbackFirst(4)));
    assert_eq!(rt; links.cuts(1), 0);
    Ok(())
}

#[test]
fn a_connection_is_made_anew_until_four_were_cut(rt: HostRuntime) -> Result<(), Fail> {
    let alloc = rt.alloc();
    for bytes in 0..14u64 {
        for orders in 1..6u64 {
            let mut links = MemLinker::new(alloc);
            for _ in 0..orders {
                links.cut_after(1, bytes)?;
            }
            let answer = asked(alloc, 3, &FIRST, 2, &FIRST, &mut links)?;
            if bytes > 12 {
                assert!(rt; answer == Ok(Handshake::Resume(3)));
            } else if orders < 4 {
                assert!(rt; answer == Ok(Handshake::Resume(3)));
                assert_eq!(rt; links.cuts(1), orders);
            } else {
                assert!(rt; answer == Err(SessionError::LinkCut));
                assert_eq!(rt; links.cuts(1), 4);
            }
        }
    }
    Ok(())
}

#[test]
fn a_hello_has_as_many_reigns_as_a_sequence_may_have(rt: HostRuntime) -> Result<(), Fail> {
    let alloc = rt.alloc();
    let theirs = many(alloc, 32_769)?;
    let fewer = many(alloc, 32_768)?;
    let name = Bytes::of(alloc, b"B")?;
    let mut links = MemLinker::new(alloc);
    let told = handshake(alloc, &theirs, &fewer, &name, &mut links, 1);
    let refused = handshake(alloc, &theirs, &theirs, &name, &mut links, 1);
    assert!(rt; told == Ok(Handshake::Resume(32_769)));
    assert!(rt; refused == Err(SessionError::BadFrame { offset: 0 }));
    Ok(())
}
