// How sessions end that aren't cut.
use super::told::{How, Plan, REIGNS, Told, session, shipped, small};
use ship_stands::{Record, Stopped, Unread};
use std::alloc::Global;
use std::process::Abort;

#[test]
fn all_entries_and_reigns_are_shipped(rt: HostRuntime) {
    let told = shipped(&rt, rt.alloc(), small(9), 0, &[]);
    assert_eq!(rt; (told.how, told.length, told.hardened), (How::At(9), 9, 9));
    assert_eq!(rt; (told.applied, told.sum, told.reigns), (9, 285, 3));
    assert_eq!(rt; told.cuts, 0);
}

// A secondary of these reigns, and a primary of five entries that has three of one root.
fn asks(rt: &impl Abort, alloc: Global, begun: u64, reigns: &[Record]) -> Told {
    let plan = Plan {
        ships: small(5),
        begun,
        reigns,
        spoilt: 0,
        stop: 0,
    };
    session(rt, alloc, plan, &[])
}

#[test]
fn parted_entries_have_to_be_rolled_back_first(rt: HostRuntime) {
    for (length, records, number) in [
        (3, &[(b'A', 1, 1), (b'B', 2, 2)][..], 2),
        (3, &[(b'A', 1, 1), (b'B', 2, 3)], 2),
        (3, &[(b'B', 1, 1)], 1),
        (7, &REIGNS, 6),
    ] {
        let told = asks(&rt, rt.alloc(), length, records);
        assert_eq!(rt; told.how, How::RollbackFirst(number));
        assert_eq!(rt; (told.length, told.applied, told.cuts), (length, 0, 0));
    }
}

// A primary of five entries can't read those from a number on, and the secondary stops at one.
fn halts(rt: &impl Abort, alloc: Global, spoilt: u64, stop: u64) -> Told {
    let plan = Plan {
        ships: small(5),
        begun: 0,
        reigns: &[],
        spoilt,
        stop,
    };
    session(rt, alloc, plan, &[])
}

#[test]
fn what_is_before_a_failure_is_applied(rt: HostRuntime) {
    for number in 1..6u64 {
        let unread = halts(&rt, rt.alloc(), number, 0);
        let stopped = halts(&rt, rt.alloc(), 0, number);
        assert_eq!(rt; unread.how, How::Failed(Unread::Spoilt));
        assert_eq!(rt; stopped.how, How::Site(Stopped::There));
        assert_eq!(rt; (unread.length, unread.hardened), (number - 1, number - 1));
        assert_eq!(rt;
            (stopped.length, stopped.hardened),
            (number - 1, number - 1)
        );
    }
}
