// Scripts that aren't in the form, and what ran of them.
use super::ran::ends;
use site_runner::Status;
use std::alloc::Global;
use std::process::Abort;

const STARTED: &[u8] = b"A CREATED\nA PRIMARY 1 FROM 1\n";

const NO_COMMAND: &[u8] = b"\
CREATE A R
START A PRIMARY
RUNN A
";

#[test]
fn a_word_that_is_no_command(rt: HostRuntime) {
    let bad = Status::BadLine { line: 3, column: 1 };
    ends(&rt, rt.alloc(), NO_COMMAND, bad, STARTED);
}

const LEFT_OPEN: &[u8] = b"\
CREATE A R
START A PRIMARY
RUN A
1 SET ^X(1)=\"a\"
";

#[test]
fn a_section_that_is_left_open(rt: HostRuntime) {
    let bad = Status::BadLine { line: 5, column: 1 };
    ends(&rt, rt.alloc(), LEFT_OPEN, bad, STARTED);
}

const LONG_NUMERAL: &[u8] = b"\
CREATE A R
START A PRIMARY
RUN A
1 SET ^X(1234567890123456789)=2
END
";

/// Nothing of a section runs that has a bad line.
#[test]
fn a_numeral_of_19_digits(rt: HostRuntime) {
    let bad = Status::BadLine { line: 4, column: 7 };
    ends(&rt, rt.alloc(), LONG_NUMERAL, bad, STARTED);
}

/// A column, and a line that is bad at it.
const BAD_LINES: &str = "\
8|FUSE A 1000001
8|FUSE A 01
8|FUSE A +1
7|FUSE A\x20
9|CRASH A 4294967296
14|  CREATE A R R
26|CREATE A A B C D E F G H I
9|MAP A R *
9|MAP A R X**
8|TYPE A LOOT 1
15|TYPE A BROKEN 0
15|TYPE A BROKEN 65536
10|CREATE A R:BEFORE
17|SET JOURNAL A R AFTER
11|RECOVER A FORWARDS
11|EXTRACT A 0
10|ZWRITE A X
5|STOP
1|END";

fn is_bad(rt: &impl Abort, alloc: Global, row: &str) {
    let (column, line) = row.split_once('|').expect(rt, "a bar");
    let column = column.parse::<u32>().expect(rt, "a column");
    let bad = Status::BadLine { line: 1, column };
    ends(rt, alloc, line.as_bytes(), bad, b"");
}

/// Each of these is bad at its column, as the first line.
#[test]
fn columns_of_first_lines(rt: HostRuntime) {
    for row in BAD_LINES.split('\n') {
        is_bad(&rt, rt.alloc(), row);
    }
}

#[test]
fn blanks_and_carriage_returns(rt: HostRuntime) {
    let script = b"; a comment\r\n\n  FUSE  A 1000000 \r \nCRASH A 4294967295\n";
    ends(&rt, rt.alloc(), script, Status::Ok, b"A NOSITE\nA NOSITE\n");
}

#[test]
fn a_script_of_100000_lines(rt: HostRuntime) {
    let lines = "\n".repeat(rt.alloc(), 100_000).expect(&rt, "memory");
    ends(&rt, rt.alloc(), lines.as_bytes(), Status::Ok, b"");
}

#[test]
fn a_byte_behind_the_last_line_feed_that_may_be(rt: HostRuntime) {
    let lines = "\n".repeat(rt.alloc(), 100_000).expect(&rt, "memory");
    let script = format!(in rt.alloc(); "{lines}E").expect(&rt, "memory");
    let want = Status::ScriptTooLong;
    ends(&rt, rt.alloc(), script.as_bytes(), want, b"");
}

#[test]
fn a_line_that_is_too_long(rt: HostRuntime) {
    let blanks = " ".repeat(rt.alloc(), 4096).expect(&rt, "memory");
    let script = format!(in rt.alloc(); "STOP A\n;{blanks}").expect(&rt, "memory");
    let bad = Status::BadLine {
        line: 2,
        column: 4097,
    };
    ends(&rt, rt.alloc(), script.as_bytes(), bad, b"A NOSITE\n");
}
