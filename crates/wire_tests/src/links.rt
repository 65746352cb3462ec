// Links in memory, in one thread and between two.
ghost use Rattle.std.specs.Prelude.{◌≡◌, IsTrue, IfOk};
ghost use Rattle.global_defs.specs.Prefix.{IsPrefix};

use repl_link::{ConnectError, Cut, Ends, LinkRx, LinkTx, Linker, MemLinker, NoMemory, Received};
use std::alloc::Global;
use std::thread::{Threads, join};

const SENT: u32 = 1_000_000;

// More turns than the threads ever take.
const TURNS: u64 = 100_000_000_000;

fn byte_at(place: u32) -> u8 {
    (place % 251) as u8
}

// Sends the bytes from place 0 on, and ends the sending.
fn send_all<T: LinkTx>(tx: T) -> (T, u32)
    ensures line { T.line result.0 ≡ T.line tx }
    ensures connection { (T.sending result.0).connection ≡ (T.sending tx).connection }
{
    let mut tx = tx;
    let mut place = 0u32;
    for _ in 0..TURNS {
        if place >= SENT {
            break;
        }
        let piece = [
            byte_at(place),
            byte_at(place.wrapping_add(1)),
            byte_at(place.wrapping_add(2)),
            byte_at(place.wrapping_add(3)),
        ];
        match tx.send(&piece) {
            Ok(count) => place = place.wrapping_add(count as u32),
            Err(Cut) => break,
        }
    }
    tx.finish();
    (tx, place)
}

// Receives to the end: how many bytes came, each as it was sent.
fn receive_all<U: LinkRx>(rx: U) -> (U, u32)
    ensures { U.line result.0 ≡ U.line rx }
{
    let mut rx = rx;
    let mut place = 0u32;
    let mut buffer = [0u8; 100];
    for _ in 0..TURNS {
        match rx.receive(&mut buffer) {
            Ok(Received::Bytes(count)) => {
                for i in 0..count {
                    if buffer[i] == byte_at(place) {
                        place = place.wrapping_add(1);
                    }
                }
            }
            Ok(Received::NotYet) => {}
            Ok(Received::Ended) | Err(Cut) => break,
        }
    }
    (rx, place)
}

// Both at once: how many bytes were sent, and how many came as they were sent.
fn both<T: LinkTx + Send, U: LinkRx + Send, R: Threads + Sync>(
    rt: &R,
    tx: T,
    rx: U,
) -> ((T, u32), (U, u32))
    ensures lines { (T.line result.0.0 ≡ T.line tx) × (U.line result.1.0 ≡ U.line rx) }
    ensures connection { (T.sending result.0.0).connection ≡ (T.sending tx).connection }
{
    join(
        rt,
        move || -> (T, u32)
            ensures line { T.line result.0 ≡ T.line tx }
            ensures connection { (T.sending result.0).connection ≡ (T.sending tx).connection }
        { send_all(tx) },
        move || -> (U, u32)
            ensures { U.line result.0 ≡ U.line rx }
        { receive_all(rx) },
    )
}

// What the one thread received is a beginning of what the other one sent.
fn across<L: Linker, R: Threads + Sync>(
    rt: &R,
    links: &mut L,
    session: u32,
) -> Result<(Ends<L::Tx, L::Rx>, (u32, u32)), ConnectError>
    ensures { IfOk result (λ r. IsTrue (L.links links.new).told →
        IsPrefix (L.Rx.receiving r.0.down_rx).received (L.Tx.sending r.0.up_tx).sent) }
{
    let Ends {
        up_tx,
        up_rx,
        down_tx,
        down_rx,
    } = links.connect(session)?;
    let ((up_tx, sent), (down_rx, received)) = both(rt, up_tx, down_rx);
    let mut ends = Ends {
        up_tx,
        up_rx,
        down_tx,
        down_rx,
    };
    links.beside(&mut ends);
    Ok((ends, (sent, received)))
}

#[test]
fn bytes_cross_between_threads(rt: HostRuntime) {
    let mut links = MemLinker::new(rt.alloc());
    let Ok((mut ends, (sent, received))) = across(&rt, &mut links, 7) else {
        panic!(&rt; "no memory");
    };
    assert_eq!(&rt; sent, SENT);
    assert_eq!(&rt; received, SENT);
    let mut buffer = [0u8; 1];
    assert!(&rt; ends.down_rx.receive(&mut buffer) == Ok(Received::Ended));
}

#[test]
fn the_end_comes_behind_the_last_byte_and_stays(rt: HostRuntime) {
    let mut links = MemLinker::new(rt.alloc());
    let Ok(mut ends) = links.connect(4) else {
        panic!(&rt; "no memory");
    };
    let mut buffer = [0u8; 10];
    assert!(&rt; ends.up_tx.send(&[1, 2, 3]) == Ok(3));
    assert!(&rt; ends.down_rx.receive(&mut buffer[..2]) == Ok(Received::Bytes(2)));
    ends.up_tx.finish();
    assert!(&rt; ends.up_tx.send(&[4]) == Ok(0));
    assert!(&rt; ends.down_rx.receive(&mut buffer) == Ok(Received::Bytes(1)));
    assert!(&rt; ends.down_rx.receive(&mut buffer) == Ok(Received::Ended));
    assert!(&rt; ends.down_rx.receive(&mut buffer) == Ok(Received::Ended));
    assert!(&rt; ends.up_tx.send(&[4]) == Ok(0));
    assert!(&rt; ends.up_rx.receive(&mut buffer) == Ok(Received::NotYet));
    links.settle(4, ends);
    assert_eq!(&rt; links.cuts(4), 0);
}

// Sends a byte over a new connection, hears what comes, and gives the connection back: whether it was found cut.
fn is_cut<L: Linker>(links: &mut L, session: u32) -> Result<bool, ConnectError> {
    let mut ends = links.connect(session)?;
    let unsent = ends.up_tx.send(&[7]).is_err();
    let mut buffer = [0u8; 1];
    let unheard = ends.down_rx.receive(&mut buffer).is_err();
    links.settle(session, ends);
    Ok(unsent || unheard)
}

#[test]
fn cuts_of_both_ends_are_added(rt: HostRuntime) {
    let mut links = MemLinker::new(rt.alloc());
    assert!(&rt; links.cut_after(6, 0) == Ok(()));
    assert!(&rt; links.cut_after(6, 1) == Ok(()));
    assert!(&rt; is_cut(&mut links, 6) == Ok(true));
    assert!(&rt; is_cut(&mut links, 6) == Ok(false));
    assert!(&rt; is_cut(&mut links, 6) == Ok(false));
    assert_eq!(&rt; links.cuts(6), 2);
}

// Sends so many bytes from the primary, and answers how many came before the cut or the end, and whether that was a cut.
fn carry(links: &mut MemLinker, session: u32, bytes: usize) -> Result<(usize, bool), ConnectError> {
    let mut ends = links.connect(session)?;
    let sent = [5u8; 107];
    let mut done = 0usize;
    for _ in 0..bytes {
        if done >= bytes || bytes > 107 {
            break;
        }
        match ends.up_tx.send(&sent[done..bytes]) {
            Ok(count) => done = done.wrapping_add(count),
            Err(Cut) => break,
        }
    }
    ends.up_tx.finish();
    let mut got = 0usize;
    let mut buffer = [0u8; 10];
    let mut cut = false;
    for _ in 0..1000 {
        links.beside(&mut ends);
        match ends.down_rx.receive(&mut buffer) {
            Ok(Received::Bytes(count)) => got = got.wrapping_add(count),
            Ok(Received::NotYet) => {}
            Ok(Received::Ended) => break,
            Err(Cut) => {
                cut = true;
                break;
            }
        }
    }
    links.settle(session, ends);
    Ok((got, cut))
}

#[test]
fn a_link_is_cut_after_each_byte(rt: HostRuntime) {
    let mut links = MemLinker::new(rt.alloc());
    for bytes in 0..107 {
        assert!(&rt; links.cut_after(3, bytes as u64) == Ok(()));
        let Ok((got, cut)) = carry(&mut links, 3, 107) else {
            panic!(&rt; "no memory");
        };
        assert_eq!(&rt; got, bytes);
        assert!(&rt; cut);
    }
    let before = links.cuts(3);
    let Ok((got, cut)) = carry(&mut links, 3, 107) else {
        panic!(&rt; "no memory");
    };
    assert_eq!(&rt; got, 107);
    assert!(&rt; !cut);
    assert_eq!(&rt; links.cuts(3), before);
    assert_eq!(&rt; links.cuts(2), 0);
}

#[test]
fn orders_are_used_up_one_by_one(rt: HostRuntime) {
    let mut links = MemLinker::new(rt.alloc());
    assert!(&rt; links.simulated());
    assert!(&rt; links.cut_after(0, 40) == Ok(()));
    assert!(&rt; links.cut_after(1, 60) == Ok(()));
    assert!(&rt; links.cut_after(0, 0) == Ok(()));
    assert!(&rt; links.cut_after(8, 0) == Err(NoMemory));
    assert!(&rt; carry(&mut links, 0, 107) == Ok((40, true)));
    assert!(&rt; carry(&mut links, 0, 107) == Ok((0, true)));
    assert!(&rt; carry(&mut links, 0, 107) == Ok((107, false)));
    assert!(&rt; carry(&mut links, 1, 59) == Ok((59, false)));
    assert!(&rt; carry(&mut links, 8, 1) == Err(ConnectError::NoMemory));
    assert_eq!(&rt; links.cuts(0), 4);
    assert_eq!(&rt; links.cuts(1), 0);
}
