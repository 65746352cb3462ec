// How many bytes a connection has, and what is whole of them, counted by hand.
use super::told::{REIGNS, Ships};

/// RESUME and BYE have 13 bytes.
const NUMBERED: u64 = 13;

/// The HISTORY of a root of one letter has 19.
const HISTORY: u64 = 19;

/// An ENTRY without updates has 20: its type, its length, a number, an updater, a serial and a count.
const ENTRY: u64 = 20;

/// A SET of ^X(1) has 10 and those of its value.
const UPDATE: u64 = 10;

/// How many bytes an ENTRY has.
fn entry(ships: Ships) -> u64 {
    let update = UPDATE.saturating_add(u64::from(ships.value));
    ENTRY.saturating_add(u64::from(ships.updates).saturating_mul(update))
}

/// Whether a reign begins with that entry.
fn begins(number: u64) -> bool {
    REIGNS.iter().any(|r| r.2 == number)
}

/// Where a connection is behind an entry, which is its first behind so many.
fn behind(ships: Ships, begun: u64, number: u64, place: u64) -> u64 {
    let mut place = place.saturating_add(entry(ships));
    if number == begun.saturating_add(1) || begins(number) {
        place = place.saturating_add(HISTORY);
    }
    place
}

/// How many bytes a connection behind so many entries has.
pub fn connection(ships: Ships, begun: u64) -> u64 {
    let mut place = NUMBERED;
    for number in begun.saturating_add(1)..ships.length.saturating_add(1) {
        place = behind(ships, begun, number, place);
    }
    place.saturating_add(NUMBERED)
}

/// How many entries a secondary with so many has behind so many bytes.
pub fn whole(ships: Ships, begun: u64, bytes: u64) -> u64 {
    let mut place = NUMBERED;
    let mut count = begun;
    for number in begun.saturating_add(1)..ships.length.saturating_add(1) {
        place = behind(ships, begun, number, place);
        if place <= bytes {
            count = number;
        }
    }
    count
}
