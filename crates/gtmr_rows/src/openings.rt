// A site that is opened again, and what a fault or a crash leaves of an opening.
use super::ran::{prints, ran_well};
use std::alloc::Global;
use std::process::Abort;

const STATES_AND_REIGNS_ARE_SHOWN: &str = "\
SHOW A
CREATE A R
SHOW A
START A PRIMARY
RUN A
1 SET ^X=1
END
STOP A
START A PRIMARY
STOP A
START A PRIMARY
SHOW A
FUSE A 0
RUN A
1 SET ^X=2
END
SHOW A
--
A NOSITE
A CREATED
A STATE DOWN
A PRIMARY 1 FROM 1
1.1 SEQ 1
A AT 1
A DOWN 1
A PRIMARY 2 FROM 2
A DOWN 1
A PRIMARY 3 FROM 2
A STATE PRIMARY 3 LENGTH 1
A REIGN A 1 FROM 1
A REIGN A 3 FROM 2
A FUSED 0
A DISKFAULT 1 UNDECIDED 1
A STATE FAILED 1
";

#[test]
fn states_and_reigns_are_shown(rt: HostRuntime) {
    prints(&rt, rt.alloc(), STATES_AND_REIGNS_ARE_SHOWN);
}

const FIRST_LINES: &str =
    "CREATE A R\nSTART A PRIMARY\nRUN A\n1 SET ^X(1)=1\n1 SET ^X(2)=2\nEND\nSTOP A\n";

const FIRST_PRINTS: &str =
    "A CREATED\nA PRIMARY 1 FROM 1\n1.1 SEQ 1\n1.2 SEQ 2\nA AT 2\nA DOWN 2\n";

const LAST_PRINTS: &str =
    "GTMRJEX01\\A\\1\nSET\\1\\A.1\\1.1\\^X(1)=\"1\"\nSET\\2\\A.1\\1.2\\^X(2)=\"2\"\n";

const SECOND_REIGN: &str = "A PRIMARY 2 FROM 3\n";

const THIRD_REIGN: &str = "A PRIMARY 3 FROM 3\n";

/// The start behind the crash of one that failed printed this: its reign is the second or the third, and both entries stand.
fn has_begun_again(rt: &impl Abort, printed: &[u8], calls: u32, pick: u32) {
    let second = printed.strip_prefix(SECOND_REIGN.as_bytes());
    let third = printed.strip_prefix(THIRD_REIGN.as_bytes());
    let entries = second.or(third);
    assert!(rt;
        entries == Some(LAST_PRINTS.as_bytes()),
        "at {calls} {pick}"
    );
}

/// A start fails the disk call behind so many, if it makes as many, a crash takes the image of that pick, and the site is started again.
/// It answers whether the first start failed. Both entries stand, and no cycle is given twice.
fn start_fails(rt: &impl Abort, alloc: Global, calls: u32, pick: u32) -> bool {
    let script = format!(in alloc;
        "{FIRST_LINES}FUSE A {calls}\nSTART A PRIMARY\nCRASH A {pick}\nSTART A PRIMARY\nEXTRACT A\n"
    );
    let script = script.expect(rt, "memory");
    let (_, out) = ran_well(rt, alloc, script.as_bytes());
    let failed = format!(in alloc; "{FIRST_PRINTS}A FUSED {calls}\nA DISKFAULT 1\nA CRASHED\n");
    let failed = failed.expect(rt, "memory");
    match out.strip_prefix(failed.as_bytes()) {
        Some(rest) => {
            has_begun_again(rt, rest, calls, pick);
            true
        }
        None => {
            let begun = format!(in alloc;
                "{FIRST_PRINTS}A FUSED {calls}\nA PRIMARY 2 FROM 3\nA CRASHED\n{THIRD_REIGN}{LAST_PRINTS}"
            );
            let begun = begun.expect(rt, "memory");
            assert_eq!(rt; out.as_slice(), begun.as_bytes(), "at {calls} {pick}");
            false
        }
    }
}

/// Fails each disk call of a start in turn, up to the first start that makes fewer.
fn each_call_fails(rt: &impl Abort, alloc: Global, pick: u32) {
    for calls in 0..1000 {
        if !start_fails(rt, alloc, calls, pick) {
            assert!(rt; 5 < calls);
            return;
        }
    }
    assert!(rt; false, "each start fails");
}

#[test]
fn a_start_that_fails_at_each_call(rt: HostRuntime) {
    for pick in [0, 1, 2, 4] {
        each_call_fails(&rt, rt.alloc(), pick);
    }
}
