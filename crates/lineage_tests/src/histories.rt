// Histories of sites that were switched over, rolled back and parted.
use gvn_key::Bytes;
use gvn_model::{History, Reign, Reigns, Stamp};
use resync_core::common;
use std::alloc::Global;
use std::test::Fail;

/// A reign: its root's name, its cycle, and the number of its first entry.
type Record = (u8, u32, u64);

pub fn reign(alloc: Global, root: u8, cycle: u32, start: u64) -> Result<Reign, Fail> {
    let mut name = Bytes::new(alloc);
    name.push(root)?;
    Ok(Reign {
        stamp: Stamp { root: name, cycle },
        start,
    })
}

fn history(alloc: Global, length: u64, records: &[Record]) -> Result<History, Fail> {
    let mut reigns = Reigns::new(alloc);
    for record in records {
        reigns.push(reign(alloc, record.0, record.1, record.2)?)?;
    }
    Ok(History { length, reigns })
}

/// How many entries two sites share.
fn shared(
    alloc: Global,
    length: u64,
    records: &[Record],
    other_length: u64,
    other_records: &[Record],
) -> Result<u64, Fail> {
    let first = history(alloc, length, records)?;
    let second = history(alloc, other_length, other_records)?;
    Ok(common(&first, &second))
}

/// A in its first reign, and what came behind it.
const FIRST: [Record; 1] = [(b'A', 1, 1)];

const SWITCHED: [Record; 2] = [(b'A', 1, 1), (b'B', 2, 81)];

const AGAIN: [Record; 2] = [(b'A', 1, 1), (b'A', 2, 2)];

const PARTED: [Record; 2] = [(b'A', 1, 1), (b'B', 2, 3)];

const TAKEN: [Record; 2] = [(b'A', 1, 1), (b'B', 2, 4)];

#[test]
fn worked_histories(rt: HostRuntime) -> Result<(), Fail> {
    // An old primary crashes with 100 entries. Its secondary, which has 80, becomes the primary and
    // makes ten.
    let crashed = shared(rt.alloc(), 100, &FIRST, 90, &SWITCHED)?;
    // A primary is rolled back below what its secondary has, and both begin a reign of one cycle.
    let parted = shared(rt.alloc(), 2, &AGAIN, 3, &PARTED)?;
    // A secondary takes over with all that the primary had, and its reign has no entry yet.
    let taken = shared(rt.alloc(), 3, &FIRST, 3, &TAKEN)?;
    assert_eq!(rt; [crashed, parted, taken], [80, 1, 3]);
    Ok(())
}
