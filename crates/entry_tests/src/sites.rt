//! The instance files of small sites.
ghost use Rattle.std.specs.Prelude.{◌≡◌};
ghost use Rattle.journal_defs.specs.Surviving as surviving;
ghost use Rattle.gvn_model.specs.Reigns.{reign_value};

use gvn_key::Bytes;
use gvn_model::{Reign, Reigns, Stamp};
use instance_file::{InstanceRecord, InstanceRecords};
use std::alloc::Global;
use std::process::Abort;

/// A reign of a site.
fn reign(rt: &impl Abort, alloc: Global, root: &[u8], cycle: u32, start: u64) -> Reign
    ensures { reign_value result ≡ record { stamp = record { root = root.now; cycle = cycle }; start = start } }
{
    let root = Bytes::of(alloc, root).expect(rt, "memory");
    Reign {
        stamp: Stamp { root, cycle },
        start,
    }
}

/// A site where A reigns from entry 1 on.
pub fn from_the_first(rt: &impl Abort, alloc: Global) -> (InstanceRecords, Reigns)
    ensures { result.1 ≡ surviving.reigns result.0 }
{
    let mut instance = InstanceRecords::new(alloc);
    let first = InstanceRecord::Reign(reign(rt, alloc, b"A", 1, 1));
    instance.push(first).expect(rt, "memory");
    let mut history = Reigns::new(alloc);
    let first = reign(rt, alloc, b"A", 1, 1);
    history.push(first).expect(rt, "memory");
    (instance, history)
}

/// A site where A reigns from entry 2 on, and nobody before.
pub fn from_the_second(rt: &impl Abort, alloc: Global) -> (InstanceRecords, Reigns)
    ensures { result.1 ≡ surviving.reigns result.0 }
{
    let mut instance = InstanceRecords::new(alloc);
    let first = InstanceRecord::Reign(reign(rt, alloc, b"A", 1, 2));
    instance.push(first).expect(rt, "memory");
    let mut history = Reigns::new(alloc);
    let first = reign(rt, alloc, b"A", 1, 2);
    history.push(first).expect(rt, "memory");
    (instance, history)
}

/// A site where A reigned and then B from entry 2 on, which a cut to one entry dropped, and A again.
pub fn cut_to_one(rt: &impl Abort, alloc: Global) -> (InstanceRecords, Reigns)
    ensures { result.1 ≡ surviving.reigns result.0 }
{
    let mut instance = InstanceRecords::new(alloc);
    let first = InstanceRecord::Reign(reign(rt, alloc, b"A", 1, 1));
    instance.push(first).expect(rt, "memory");
    let dropped = InstanceRecord::Reign(reign(rt, alloc, b"B", 1, 2));
    instance.push(dropped).expect(rt, "memory");
    let cut = InstanceRecord::Cut {
        length: 1,
        generation: 2,
    };
    instance.push(cut).expect(rt, "memory");
    let last = InstanceRecord::Reign(reign(rt, alloc, b"A", 2, 2));
    instance.push(last).expect(rt, "memory");
    let mut history = Reigns::new(alloc);
    let first = reign(rt, alloc, b"A", 1, 1);
    history.push(first).expect(rt, "memory");
    let last = reign(rt, alloc, b"A", 2, 2);
    history.push(last).expect(rt, "memory");
    (instance, history)
}
