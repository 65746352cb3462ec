// Sessions of sizes and cuts that a small generator chooses.
ghost use Rattle.std.specs.Prelude.{◌<◌};

use super::cuts::is_sound;
use super::told::{Ships, shipped};
use std::alloc::Global;
use std::process::Abort;

/// A number below a limit, and what chooses the next one.
fn below(state: &mut u64, limit: u64) -> u64
    requires { 0 < limit }
    ensures { result < limit }
{
    *state = state
        .wrapping_mul(6_364_136_223_846_793_005)
        .wrapping_add(1_442_695_040_888_963_407);
    (*state >> 33) % limit
}

fn comes_in_order(rt: &impl Abort, alloc: Global, state: &mut u64) {
    let ships = Ships {
        length: below(state, 10),
        updates: (below(state, 3) as u16).saturating_add(1),
        value: (below(state, 900) as u16).saturating_add(1),
    };
    let begun = below(state, ships.length + 1);
    let mut cuts = [0u64; 5];
    for i in 0..5 {
        cuts[i] = below(state, 9000);
    }
    let count = below(state, 6) as usize;
    let cuts = &cuts[..count.min(5)];
    let told = shipped(rt, alloc, ships, begun, cuts);
    assert!(rt;
        is_sound(ships, begun, cuts, told),
        "{ships:?} {begun} {cuts:?} {told:?}"
    );
}

#[test]
fn a_thousand_sessions_come_in_order(rt: HostRuntime) {
    let mut state = 1u64;
    for _ in 0..1000 {
        comes_in_order(&rt, rt.alloc(), &mut state);
    }
}
