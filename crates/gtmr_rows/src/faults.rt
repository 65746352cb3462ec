// Disks, sources and sinks that fail.
use super::ran::{FIRST_SET, ended, ends, prints, ran, ran_well, same};
use site_runner::Status;
use std::alloc::Global;
use std::fmt::Write;
use std::process::Abort;

const CRASH_AND_GO_ON: &str = "\
CREATE A R
START A PRIMARY
RUN A
1 SET ^X(1)=\"a\"
END
CRASH A 0
START A PRIMARY
RUN A
1 SET ^X(2)=\"b\"
END
EXTRACT A
--
A CREATED
A PRIMARY 1 FROM 1
1.1 SEQ 1
A AT 1
A CRASHED
A PRIMARY 2 FROM 2
1.1 SEQ 2
A AT 2
GTMRJEX01\\A\\1
SET\\1\\A.1\\1.1\\^X(1)=\"a\"
SET\\2\\A.2\\1.1\\^X(2)=\"b\"
";

/// After a crash the hardened entry stands; the second reign has cycle 2, and its serials begin anew.
#[test]
fn crash_and_go_on(rt: HostRuntime) {
    prints(&rt, rt.alloc(), CRASH_AND_GO_ON);
}

const FUSE_AT_ONCE: &str = "\
CREATE A R
START A PRIMARY
FUSE A 0
RUN A
1 SET ^X(1)=\"a\"
END
RUN A
END
CRASH A 0
START A PRIMARY
--
A CREATED
A PRIMARY 1 FROM 1
A FUSED 0
A DISKFAULT 1 UNDECIDED 1
A STOPPED 1
A CRASHED
A PRIMARY 2 FROM 1
";

/// The first disk call fails, and the site is stopped until a crash.
#[test]
fn fuse_at_once(rt: HostRuntime) {
    prints(&rt, rt.alloc(), FUSE_AT_ONCE);
}

const FIVE_SETS: &str =
    "RUN A\n1 SET ^X(1)=\"1\"\n1 SET ^X(2)=\"2\"\n1 SET ^X(3)=\"3\"\n1 SET ^X(4)=\"4\"\n1 SET ^X(5)=\"5\"\nEND\n";

/// What five jobs print on a disk that fails the call behind so many, of which so many have a reply.
fn printed_text(rt: &impl Abort, alloc: Global, calls: u32, printed: usize) -> String {
    let text = format!(in alloc; "A CREATED\nA PRIMARY 1 FROM 1\nA FUSED {calls}\n");
    let mut text = text.expect(rt, "memory");
    for i in 1..=printed {
        write!(text, "1.{i} SEQ {i}\n").expect(rt, "memory");
    }
    let written = match 5usize.saturating_sub(printed) {
        0 => write!(text, "A AT 5\n"),
        undecided => write!(text, "A DISKFAULT 1 UNDECIDED {undecided}\n"),
    };
    written.expect(rt, "memory");
    text
}

/// What a crash that leaves so many entries, a start and an extract print.
fn left_text(rt: &impl Abort, alloc: Global, left: usize) -> String {
    let from = left.saturating_add(1);
    let text = format!(in alloc; "A CRASHED\nA PRIMARY 2 FROM {from}\nGTMRJEX01\\A\\1\n");
    let mut text = text.expect(rt, "memory");
    for i in 1..=left {
        write!(text, "SET\\{i}\\A.1\\1.{i}\\^X({i})=\"{i}\"\n").expect(rt, "memory");
    }
    text
}

/// What five jobs came to on a disk that failed.
#[derive(Drop)]
struct Left {
    out: Vec<u8>,
    printed: usize,
    left: usize,
}

/// Runs five jobs on a disk that fails the call behind so many and then crashes with that pick, and shows what is left.
fn sweep(rt: &impl Abort, alloc: Global, calls: u32, pick: u32) -> Left {
    let script = format!(in alloc;
        "CREATE A R\nSTART A PRIMARY\nFUSE A {calls}\n{FIVE_SETS}CRASH A {pick}\nSTART A PRIMARY\nEXTRACT A\n"
    );
    let script = script.expect(rt, "memory");
    let (_, out) = ran_well(rt, alloc, script.as_bytes());
    let printed = out.windows(5).filter(|w| *w == b" SEQ ".as_slice()).count();
    let left = out.windows(4).filter(|w| *w == b"SET\\".as_slice()).count();
    Left { out, printed, left }
}

/// Runs five jobs so, and answers how many numbers were printed. Each printed number's entry is shown, and at most that of the job that
/// was begun besides.
fn five_jobs_print(rt: &impl Abort, alloc: Global, calls: u32, pick: u32) -> usize {
    let row = sweep(rt, alloc, calls, pick);
    let first = printed_text(rt, alloc, calls, row.printed);
    let rest = left_text(rt, alloc, row.left);
    let expected = format!(in alloc; "{first}{rest}").expect(rt, "memory");
    assert_eq!(rt;
        row.out.as_slice(),
        expected.as_bytes(),
        "at {calls} {pick}"
    );
    assert!(rt; row.printed <= row.left && row.left <= 5);
    assert!(rt; row.left <= row.printed.saturating_add(1));
    row.printed
}

/// Fails each disk call of five jobs in turn, up to the first run without a fault.
fn each_call_fails(rt: &impl Abort, alloc: Global, pick: u32) {
    for calls in 0..1000 {
        if five_jobs_print(rt, alloc, calls, pick) == 5 {
            assert!(rt; 5 < calls);
            return;
        }
    }
    assert!(rt; false, "each run has a fault");
}

#[test]
fn a_fault_at_each_call(rt: HostRuntime) {
    for pick in [0, 1, 2, 4] {
        each_call_fails(&rt, rt.alloc(), pick);
    }
}

#[test]
fn a_sink_that_fails_at_its_second_write(rt: HostRuntime) {
    let (status, out) = ran(&rt, rt.alloc(), "run", FIRST_SET, &[], &[1], 1);
    ended(&rt, status, Status::SinkFault);
    same(&rt, out.as_slice(), b"A");
}

/// The first piece that is read ends within line 2. Where the second can't be read line 1 has run, and no other.
#[test]
fn a_source_that_fails_after_line_1(rt: HostRuntime) {
    let blanks = " ".repeat(rt.alloc(), 4095).expect(&rt, "memory");
    let script = format!(in rt.alloc(); "CREATE A R\n;{blanks}\nSTART A PRIMARY\n");
    let script = script.expect(&rt, "memory");
    let (status, out) = ran(&rt, rt.alloc(), "run", script.as_bytes(), &[1], &[], 4096);
    ended(&rt, status, Status::SourceFault);
    same(&rt, out.as_slice(), b"A CREATED\n");
    let prints = b"A CREATED\nA PRIMARY 1 FROM 1\n";
    ends(&rt, rt.alloc(), script.as_bytes(), Status::Ok, prints);
}
