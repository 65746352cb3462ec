// EXTRACT on a disk that fails.
use super::ran::{prints, ran_well};
use std::alloc::Global;
use std::process::Abort;

/// Three entries over two regions, of which the second has updates in both.
const BEFORE: &str =
    "CREATE A ACCT HIST\nMAP A HIST H*\nSTART A PRIMARY\nRUN A\n1 SET ^ACCT(1)=100\n1 TSTART\n1 INCR ^ACCT(1) -30\n1 SET ^HIST(1)=30\n1 TCOMMIT\n2 KILL ^HIST(1)\nEND\n";

const BEFORE_PRINTS: &str =
    "A CREATED\nA MAPPED\nA PRIMARY 1 FROM 1\n1.1 SEQ 1\n1.2 SEQ 2 70\n2.1 SEQ 3\nA AT 3\n";

const WHOLE: &str = "\
GTMRJEX01\\A\\1
SET\\1\\A.1\\1.1\\^ACCT(1)=\"100\"
TSTART\\2\\A.1\\1.2
SET\\2\\A.1\\1.2\\^ACCT(1)=\"70\"
SET\\2\\A.1\\1.2\\^HIST(1)=\"30\"
TCOM\\2\\A.1\\1.2
KILL\\3\\A.1\\2.1\\^HIST(1)
";

/// For each part of an entry three calls are made: its journal's length is asked for, and the length and the bytes of the part's record
/// are read. The three entries have four parts.
const CALLS: u32 = 12;

/// An extract on a disk that fails the call behind so many, the next command, and the extract again behind a crash of that pick and a
/// start.
fn fails_at(rt: &impl Abort, alloc: Global, calls: u32, pick: u32) {
    let script = format!(in alloc;
        "{BEFORE}FUSE A {calls}\nEXTRACT A\nZWRITE A\nCRASH A {pick}\nSTART A PRIMARY\nEXTRACT A\n"
    );
    let script = script.expect(rt, "memory");
    let printed = if calls < CALLS {
        format!(in alloc; "A DISKFAULT 1\nA STOPPED 1\n")
    } else {
        format!(in alloc; "{WHOLE}^ACCT(1)=\"70\"\n")
    };
    let printed = printed.expect(rt, "memory");
    let want = format!(in alloc;
        "{BEFORE_PRINTS}A FUSED {calls}\n{printed}A CRASHED\nA PRIMARY 2 FROM 4\n{WHOLE}"
    );
    let want = want.expect(rt, "memory");
    let (_, out) = ran_well(rt, alloc, script.as_bytes());
    assert_eq!(rt; out.as_slice(), want.as_bytes(), "at {calls} {pick}");
}

/// Each disk call of an extract fails in turn, up to the first extract that makes fewer: nothing of it is printed but the fault, and the
/// site is stopped. Behind a crash the extract is whole.
#[test]
fn an_extract_that_fails_at_each_call(rt: HostRuntime) {
    for pick in [0, 1, 2, 4] {
        for calls in 0..=CALLS {
            fails_at(&rt, rt.alloc(), calls, pick);
        }
    }
}

const EXTRACTS_OF_NO_ENTRY: &str = "\
CREATE A R
START A PRIMARY
FUSE A 0
EXTRACT A
SHOW A
CRASH A 0
START A PRIMARY
RUN A
1 SET ^X=1
END
FUSE A 0
EXTRACT A 2
EXTRACT A 1
EXTRACT A 2
SHOW A
--
A CREATED
A PRIMARY 1 FROM 1
A FUSED 0
GTMRJEX01\\A\\1
A STATE PRIMARY 1 LENGTH 0
A REIGN A 1 FROM 1
A CRASHED
A PRIMARY 2 FROM 1
1.1 SEQ 1
A AT 1
A FUSED 0
GTMRJEX01\\A\\2
A DISKFAULT 1
A STOPPED 1
A STATE FAILED 1
";

/// An extract without an entry makes no call of the disk.
#[test]
fn extracts_of_no_entry(rt: HostRuntime) {
    prints(&rt, rt.alloc(), EXTRACTS_OF_NO_ENTRY);
}
