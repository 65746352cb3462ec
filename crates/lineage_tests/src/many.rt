// As many reigns as a sequence may have.
use super::histories::reign;
use gvn_model::{History, Reigns};
use resync_core::common;
use std::alloc::Global;
use std::test::Fail;

const MOST_REIGNS: u32 = 32_768;

/// A reign for each entry, all but the first of this root.
fn reigns_of(alloc: Global, root: u8) -> Result<History, Fail> {
    let mut reigns = Reigns::new(alloc);
    reigns.push(reign(alloc, b'A', 1, 1)?)?;
    for cycle in 2..=MOST_REIGNS {
        reigns.push(reign(alloc, root, cycle, cycle as u64)?)?;
    }
    Ok(History {
        length: MOST_REIGNS as u64,
        reigns,
    })
}

/// How many entries two sites share that have but one reign in common.
fn shared_by_one_reign(alloc: Global) -> Result<u64, Fail> {
    let first = reigns_of(alloc, b'A')?;
    let second = reigns_of(alloc, b'B')?;
    Ok(common(&first, &second))
}

#[test]
fn all_reigns_apart(rt: HostRuntime) -> Result<(), Fail> {
    assert_eq!(rt; shared_by_one_reign(rt.alloc())?, 1);
    Ok(())
}
