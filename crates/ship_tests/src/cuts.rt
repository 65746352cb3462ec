// Sessions over links that are cut.
use super::sizes::{connection, whole};
use super::told::{How, Ships, Told, shipped, small};
use std::alloc::Global;
use std::process::Abort;

/// What a session comes to whose connections are cut after so many bytes, by counting: how many entries the secondary has, and
/// how often a connection was cut.
pub fn counted(ships: Ships, begun: u64, cuts: &[u64]) -> (How, u64) {
    let mut count = begun;
    for (i, bytes) in cuts.iter().enumerate() {
        if i == 4 {
            return (How::LinkCut, count);
        }
        if connection(ships, count) <= *bytes {
            return (How::At(ships.length), ships.length);
        }
        count = whole(ships, count, *bytes);
    }
    if cuts.len() >= 4 {
        return (How::LinkCut, count);
    }
    (How::At(ships.length), ships.length)
}

/// The sum of the squares of the numbers from the first behind `begun` on.
pub fn squares(begun: u64, length: u64) -> u64 {
    let mut sum = 0u64;
    for number in begun.saturating_add(1)..length.saturating_add(1) {
        sum = sum.wrapping_add(number.wrapping_mul(number));
    }
    sum
}

/// What was counted is what is seen.
pub fn is_counted(ships: Ships, begun: u64, cuts: &[u64], told: Told) -> bool {
    let (how, length) = counted(ships, begun, cuts);
    told.how == how
        && told.length == length
        && told.hardened == length
        && told.applied == length.wrapping_sub(begun)
        && told.sum == squares(begun, length)
}

/// What is seen is what can be: where a connection is cut, bytes under way are lost, so that no more came than was whole by then.
pub fn is_sound(ships: Ships, begun: u64, cuts: &[u64], told: Told) -> bool {
    let (_, most) = counted(ships, begun, cuts);
    let ends = match told.how {
        How::At(number) => number == ships.length && told.length == number,
        How::LinkCut => cuts.len() >= 4 && told.length <= most,
        _ => false,
    };
    ends && told.hardened == told.length
        && told.applied == told.length.wrapping_sub(begun)
        && told.sum == squares(begun, told.length)
}

fn comes_as_counted(rt: &impl Abort, alloc: Global, begun: u64, cuts: &[u64]) -> Told {
    let ships = small(4);
    let told = shipped(rt, alloc, ships, begun, cuts);
    assert!(rt;
        is_counted(ships, begun, cuts, told),
        "{begun} {cuts:?} {told:?}"
    );
    told
}

#[test]
fn a_stream_has_207_bytes(rt: HostRuntime) {
    assert_eq!(rt; connection(small(4), 0), 207);
    assert_eq!(rt; connection(small(4), 2), 126);
}

#[test]
fn one_cut_after_each_byte_costs_a_connection(rt: HostRuntime) {
    for bytes in 0..210u64 {
        let told = comes_as_counted(&rt, rt.alloc(), 0, &[bytes]);
        assert_eq!(rt; told.how, How::At(4));
        assert_eq!(rt; told.reigns, 3);
        assert_eq!(rt; told.cuts == 0, 207 <= bytes);
    }
}

#[test]
fn three_cuts_cost_three_connections(rt: HostRuntime) {
    for bytes in 0..210u64 {
        let told = comes_as_counted(&rt, rt.alloc(), 0, &[bytes, bytes, bytes]);
        assert_eq!(rt; told.how, How::At(4));
        assert_eq!(rt; told.reigns, 3);
    }
}

#[test]
fn four_cuts_end_a_session(rt: HostRuntime) {
    for bytes in 0..210u64 {
        comes_as_counted(&rt, rt.alloc(), 0, &[bytes, bytes, bytes, bytes]);
    }
    let told = comes_as_counted(&rt, rt.alloc(), 0, &[70, 70, 70, 70]);
    assert_eq!(rt; (told.how, told.length), (How::LinkCut, 4));
    let told = comes_as_counted(&rt, rt.alloc(), 0, &[40, 40, 40, 40]);
    assert_eq!(rt; (told.how, told.length), (How::LinkCut, 0));
}

#[test]
fn a_secondary_with_entries_goes_on_behind_them(rt: HostRuntime) {
    for begun in 0..5u64 {
        for bytes in 0..210u64 {
            let told = comes_as_counted(&rt, rt.alloc(), begun, &[bytes, 0, bytes]);
            assert_eq!(rt; (told.how, told.reigns), (How::At(4), 3));
        }
    }
}
