// Modes of journals and forward recovery: which regions keep images, what needs forward recovery, and what RECOVER FORWARD and SET JOURNAL
// leave, whatever call of theirs fails.
use super::ran::{ended, prints, ran_well};
use site_runner::Status;
use std::alloc::Global;
use std::process::Abort;

const NOBEFORE_CRASH: &str = "\
CREATE A R
SET JOURNAL A R NOBEFORE
START A PRIMARY
RUN A
1 SET ^X=1
END
CRASH A 0
START A PRIMARY
--
A CREATED
A JOURNAL R NOBEFORE
A PRIMARY 1 FROM 1
1.1 SEQ 1
A AT 1
A CRASHED
A NEEDFORWARD R
";

/// A region without images can't be opened behind a crash.
#[test]
fn nobefore_crash(rt: HostRuntime) {
    prints(&rt, rt.alloc(), NOBEFORE_CRASH);
}

const FORWARD_RECOVERY: &str = "\
CREATE A R:NOBEFORE
START A PRIMARY
RUN A
1 SET ^X=1
1 SET ^X=2
END
CRASH A 0
START A PRIMARY
ROLLBACK A RESYNC 2
RECOVER A FORWARD
START A PRIMARY
ZWRITE A
--
A CREATED
A PRIMARY 1 FROM 1
1.1 SEQ 1
1.2 SEQ 2
A AT 2
A CRASHED
A NEEDFORWARD R
A NOBEFORE R 1
A RECOVERED 2
A PRIMARY 2 FROM 3
^X=\"2\"
";

/// It is recovered forward, and not rolled back below the epoch that closes the recovery.
#[test]
fn forward_recovery(rt: HostRuntime) {
    prints(&rt, rt.alloc(), FORWARD_RECOVERY);
}

const REFUSALS_OF_MODES: &str = "\
SET JOURNAL A R BEFORE
RECOVER A FORWARD
CREATE A R Q
SET JOURNAL A P BEFORE
START A PRIMARY
SET JOURNAL A P BEFORE
RECOVER A FORWARD
STOP A
FUSE A 0
SET JOURNAL A P BEFORE
SET JOURNAL A Q BEFORE
CRASH A 0
FUSE A 0
RECOVER A FORWARD
RECOVER A FORWARD
CRASH A 0
SET JOURNAL A Q NOBEFORE
SET JOURNAL A Q NOBEFORE
RECOVER A FORWARD
SHOW A
--
A NOSITE
A NOSITE
A CREATED
A NOREGION P
A PRIMARY 1 FROM 1
A RUNNING
A RUNNING
A DOWN 0
A FUSED 0
A DISKFAULT 1
A STOPPED 1
A CRASHED
A FUSED 0
A DISKFAULT 2
A STOPPED 2
A CRASHED
A JOURNAL Q NOBEFORE
A JOURNAL Q NOBEFORE
A RECOVERED 0
A STATE DOWN
";

/// SET JOURNAL and RECOVER FORWARD answer the first cause in their order.
#[test]
fn refusals_of_modes(rt: HostRuntime) {
    prints(&rt, rt.alloc(), REFUSALS_OF_MODES);
}

const MODES_ACROSS_GENERATIONS: &str = "\
CREATE A R Q:NOBEFORE
MAP A Q Y*
START A PRIMARY
RUN A
1 SET ^X=1
1 SET ^Y=2
END
EPOCH A
RUN A
1 SET ^X=3
END
CRASH A 0
START A PRIMARY
RUN A
1 SET ^Y=4
END
STOP A
SET JOURNAL A R NOBEFORE
SET JOURNAL A Q BEFORE
ROLLBACK A RESYNC 4
ROLLBACK A RESYNC 5
START A PRIMARY
RUN A
1 SET ^Y=5
END
CRASH A 1
RECOVER A BACKWARD
ROLLBACK A RESYNC 1
SET JOURNAL A R BEFORE
RECOVER A FORWARD
RECOVER A BACKWARD
ROLLBACK A RESYNC 5
START A PRIMARY
ZWRITE A
CRASH A 0
START A PRIMARY
ZWRITE A
--
A CREATED
A MAPPED
A PRIMARY 1 FROM 1
1.1 SEQ 1
1.2 SEQ 2
A AT 2
A EPOCH 2
1.3 SEQ 3
A AT 3
A CRASHED
A PRIMARY 2 FROM 4
1.1 SEQ 4
A AT 4
A DOWN 4
A JOURNAL R NOBEFORE
A JOURNAL Q BEFORE
A NOBEFORE Q 2
A ROLLEDBACK 4 LOST 3
A PRIMARY 3 FROM 5
1.1 SEQ 5
A AT 5
A CRASHED
A NEEDFORWARD R
A NOBEFORE R 4
A JOURNAL R BEFORE
A RECOVERED 5
A RECOVERED 5
A NOBEFORE R 5
A PRIMARY 4 FROM 6
^X=\"3\"
^Y=\"5\"
A CRASHED
A PRIMARY 5 FROM 6
^X=\"3\"
^Y=\"5\"
";

/// A mode holds for later generations: what needs forward recovery is asked region by region, from the epoch on that it goes back to.
#[test]
fn modes_across_generations(rt: HostRuntime) {
    prints(&rt, rt.alloc(), MODES_ACROSS_GENERATIONS);
}

const MODES_OF_TWO_REGIONS: &str = "\
CREATE A R:NOBEFORE Q
MAP A Q Y*
START A PRIMARY
RUN A
1 SET ^X=1
1 SET ^Y=2
END
EPOCH A
RUN A
1 SET ^Y=3
END
CRASH A 0
START A PRIMARY
RUN A
1 SET ^X=4
END
STOP A
ROLLBACK A RESYNC 4
START A PRIMARY
CRASH A 1
RECOVER A BACKWARD
RECOVER A FORWARD
SET JOURNAL A R BEFORE
START A PRIMARY
CRASH A 2
START A PRIMARY
ZWRITE A
EXTRACT A 3
--
A CREATED
A MAPPED
A PRIMARY 1 FROM 1
1.1 SEQ 1
1.2 SEQ 2
A AT 2
A EPOCH 2
1.3 SEQ 3
A AT 3
A CRASHED
A PRIMARY 2 FROM 4
1.1 SEQ 4
A AT 4
A DOWN 4
A NOBEFORE R 2
A PRIMARY 3 FROM 5
A CRASHED
A NEEDFORWARD R
A RECOVERED 4
A JOURNAL R BEFORE
A PRIMARY 4 FROM 5
A CRASHED
A PRIMARY 5 FROM 5
^X=\"4\"
^Y=\"3\"
GTMRJEX01\\A\\3
SET\\3\\A.1\\1.3\\^Y=\"3\"
SET\\4\\A.2\\1.1\\^X=\"4\"
";

/// Behind an epoch a region without images needs forward recovery where something was written to it since, and from its next generation on.
#[test]
fn modes_of_two_regions(rt: HostRuntime) {
    prints(&rt, rt.alloc(), MODES_OF_TWO_REGIONS);
}

/// What a script prints up to its end, where the disk call behind so many of this command fails and the site crashes then with that pick.
fn behind_a_fault(
    rt: &impl Abort,
    alloc: Global,
    begun: &str,
    command: &str,
    again: &str,
    calls: u32,
    pick: u32,
) -> String {
    let script = format!(in alloc; "{begun}FUSE A {calls}\n{command}\nCRASH A {pick}\n{again}");
    let script = script.expect(rt, "memory");
    let (status, out) = ran_well(rt, alloc, script.as_bytes());
    ended(rt, status, Status::Ok);
    String::from_utf8(out).expect(rt, "text")
}

/// Fails each disk call of the command in turn, up to the first run in which it's done, where it prints that: each run before ends with this
/// text.
fn each_call_fails(
    rt: &impl Abort,
    alloc: Global,
    begun: &str,
    command: &str,
    done: &str,
    again: &str,
    last: &str,
    pick: u32,
) {
    for calls in 0..1000 {
        let out = behind_a_fault(rt, alloc, begun, command, again, calls, pick);
        let text = out.as_str();
        if text.contains(done) {
            assert!(rt; 3 < calls);
            return;
        }
        assert!(rt; text.ends_with(last), "at {calls}: {text}");
    }
    assert!(rt; false, "each run has a fault");
}

const NEEDS_FORWARD: &str = "\
CREATE A R:NOBEFORE
START A PRIMARY
RUN A
1 SET ^X=1
1 SET ^X=2
END
CRASH A 0
START A PRIMARY
ROLLBACK A RESYNC 2
";

/// A forward recovery that failed is done again.
#[test]
fn a_forward_recovery_that_fails_at_each_call(rt: HostRuntime) {
    let again = "RECOVER A FORWARD\nSTART A PRIMARY\nZWRITE A\n";
    for pick in [0, 1, 2, 4] {
        each_call_fails(
            &rt,
            rt.alloc(),
            NEEDS_FORWARD,
            "RECOVER A FORWARD",
            "A RECOVERED 2\nA NOTRUNNING\n",
            again,
            "^X=\"2\"\n",
            pick,
        );
    }
}

const STOPPED: &str = "\
CREATE A R
START A PRIMARY
RUN A
1 SET ^X=1
1 SET ^X=2
END
STOP A
";

/// A mode is set or not, and all entries stand.
#[test]
fn a_mode_that_fails_at_each_call(rt: HostRuntime) {
    let again = "START A PRIMARY\nZWRITE A\n";
    for pick in [0, 1, 2, 4] {
        each_call_fails(
            &rt,
            rt.alloc(),
            STOPPED,
            "SET JOURNAL A R NOBEFORE",
            "A JOURNAL R NOBEFORE\nA NOTRUNNING\n",
            again,
            "A PRIMARY 2 FROM 3\n^X=\"2\"\n",
            pick,
        );
    }
}
