// Rollbacks and recoveries: what ROLLBACK RESYNC and RECOVER BACKWARD leave, whatever call of theirs fails, and the lost-transaction files.
use super::attaching::write_file;
use super::ran::{cut, disks, ended, prints, ran_on, ran_well, same};
use repl_disk::MemDisk;
use site_runner::Status;
use std::alloc::Global;
use std::fmt::Write;
use std::process::Abort;

const RECOVER_AND_ROLLBACK: &str = "\
CREATE A R
START A PRIMARY
RUN A
1 SET ^X(1)=\"a\"
END
EXTRACT A
STOP A
RECOVER A BACKWARD
ROLLBACK A RESYNC 9
TYPE A LOST 3
--
A CREATED
A PRIMARY 1 FROM 1
1.1 SEQ 1
A AT 1
GTMRJEX01\\A\\1
SET\\1\\A.1\\1.1\\^X(1)=\"a\"
A DOWN 1
A RECOVERED 1
A ROLLEDBACK 1 LOST 3
GTMRJEX01\\A\\2
";

/// A backward recovery, and a rollback that drops nothing: its lost-transaction file is the header alone.
#[test]
fn recover_and_rollback(rt: HostRuntime) {
    prints(&rt, rt.alloc(), RECOVER_AND_ROLLBACK);
}

const REFUSALS_OF_ROLLBACK: &str = "\
ROLLBACK A RESYNC 1
RECOVER A BACKWARD
CREATE A R
TYPE A LOST 1
START A PRIMARY
ROLLBACK A RESYNC 1
RECOVER A BACKWARD
STOP A
FUSE A 0
ROLLBACK A RESYNC 1
ROLLBACK A RESYNC 1
RECOVER A BACKWARD
TYPE A LOST 1
CRASH A 0
ROLLBACK A RESYNC 1
TYPE A LOST 1
TYPE A LOST 2
TYPE A LOST 3
TYPE A BROKEN 2
SHOW A
--
A NOSITE
A NOSITE
A CREATED
A NOFILE
A PRIMARY 1 FROM 1
A RUNNING
A RUNNING
A DOWN 0
A FUSED 0
A DISKFAULT 1
A STOPPED 1
A STOPPED 1
A STOPPED 1
A CRASHED
A ROLLEDBACK 0 LOST 2
A NOFILE
GTMRJEX01\\A\\1
A NOFILE
A NOFILE
A STATE DOWN
";

/// ROLLBACK, RECOVER and TYPE LOST answer the first cause in their order.
#[test]
fn refusals_of_rollback(rt: HostRuntime) {
    prints(&rt, rt.alloc(), REFUSALS_OF_ROLLBACK);
}

const ACROSS_GENERATIONS: &str = "\
CREATE A ACCT HIST
MAP A HIST H*
START A PRIMARY
RUN A
1 SET ^ACCT(1)=1
1 TSTART
1 SET ^ACCT(1)=2
1 SET ^HIST(1)=\"to 2\"
1 TCOMMIT
END
EPOCH A
RUN A
1 KILL ^ACCT(1)
END
STOP A
START A PRIMARY
RUN A
2 SET ^HIST(2)=3
2 ZKILL ^HIST(1)
END
CRASH A 0
ROLLBACK A RESYNC 2
TYPE A LOST 3
START A PRIMARY
ZWRITE A
SHOW A
RUN A
1 SET ^HIST=9
END
STOP A
ROLLBACK A RESYNC 2
TYPE A LOST 6
TYPE A LOST 3
ROLLBACK A RESYNC 1
TYPE A LOST 8
START A PRIMARY
ZWRITE A
EXTRACT A
--
A CREATED
A MAPPED
A PRIMARY 1 FROM 1
1.1 SEQ 1
1.2 SEQ 2
A AT 2
A EPOCH 2
1.3 SEQ 3
A AT 3
A DOWN 3
A PRIMARY 2 FROM 4
2.1 SEQ 4
2.2 SEQ 5
A AT 5
A CRASHED
A ROLLEDBACK 1 LOST 3
GTMRJEX01\\A\\2
TSTART\\2\\A.1\\1.2
SET\\2\\A.1\\1.2\\^ACCT(1)=\"2\"
SET\\2\\A.1\\1.2\\^HIST(1)=\"to 2\"
TCOM\\2\\A.1\\1.2
KILL\\3\\A.1\\1.3\\^ACCT(1)
SET\\4\\A.2\\2.1\\^HIST(2)=\"3\"
ZKILL\\5\\A.2\\2.2\\^HIST(1)
A PRIMARY 3 FROM 2
^ACCT(1)=\"1\"
A STATE PRIMARY 3 LENGTH 1
A REIGN A 1 FROM 1
A REIGN A 3 FROM 2
1.1 SEQ 2
A AT 2
A DOWN 2
A ROLLEDBACK 1 LOST 6
GTMRJEX01\\A\\2
SET\\2\\A.3\\1.1\\^HIST=\"9\"
GTMRJEX01\\A\\2
TSTART\\2\\A.1\\1.2
SET\\2\\A.1\\1.2\\^ACCT(1)=\"2\"
SET\\2\\A.1\\1.2\\^HIST(1)=\"to 2\"
TCOM\\2\\A.1\\1.2
KILL\\3\\A.1\\1.3\\^ACCT(1)
SET\\4\\A.2\\2.1\\^HIST(2)=\"3\"
ZKILL\\5\\A.2\\2.2\\^HIST(1)
A ROLLEDBACK 0 LOST 8
GTMRJEX01\\A\\1
SET\\1\\A.1\\1.1\\^ACCT(1)=\"1\"
A PRIMARY 4 FROM 1
GTMRJEX01\\A\\1
";

/// A rollback below an epoch and two openings, in two regions; and again, down to nothing. A cycle isn't drawn twice.
#[test]
fn rollbacks_across_generations(rt: HostRuntime) {
    prints(&rt, rt.alloc(), ACROSS_GENERATIONS);
}

/// Jobs of updater 1 that set nodes of this name from one number up to another.
fn sets(rt: &impl Abort, alloc: Global, name: &str, from: u32, to: u32) -> String {
    let mut text = String::new(alloc);
    for i in from..=to {
        write!(text, "1 SET ^{name}({i})={i}\n").expect(rt, "memory");
    }
    text
}

/// What ZWRITE prints of such nodes.
fn nodes(rt: &impl Abort, alloc: Global, name: &str, from: u32, to: u32) -> String {
    let mut text = String::new(alloc);
    for i in from..=to {
        write!(text, "^{name}({i})=\"{i}\"\n").expect(rt, "memory");
    }
    text
}

/// What a run of updater 1 prints whose jobs become the entries of these numbers, which are those behind so many earlier ones.
fn replies(rt: &impl Abort, alloc: Global, from: u32, to: u32, earlier: u32) -> String {
    let mut text = String::new(alloc);
    for i in from..=to {
        let serial = i.saturating_sub(earlier);
        write!(text, "1.{serial} SEQ {i}\n").expect(rt, "memory");
    }
    write!(text, "A AT {to}\n").expect(rt, "memory");
    text
}

/// What a site of 100 nodes with an epoch behind 90 of them did up to its STOP.
fn hundred(rt: &impl Abort, alloc: Global) -> String {
    let first = sets(rt, alloc, "X", 1, 90);
    let more = sets(rt, alloc, "X", 91, 100);
    let text = format!(in alloc;
        "CREATE A R\nSTART A PRIMARY\nRUN A\n{first}END\nEPOCH A\nRUN A\n{more}END\nSTOP A\n"
    );
    text.expect(rt, "memory")
}

fn hundred_printed(rt: &impl Abort, alloc: Global) -> String {
    let first = replies(rt, alloc, 1, 90, 0);
    let more = replies(rt, alloc, 91, 100, 0);
    let text = format!(in alloc;
        "A CREATED\nA PRIMARY 1 FROM 1\n{first}A EPOCH 90\n{more}A DOWN 100\n"
    );
    text.expect(rt, "memory")
}

/// A rollback below an epoch, a section and a crash behind it: the epoch that was discarded isn't gone back to.
#[test]
fn rollback_then_crash(rt: HostRuntime) {
    let begun = hundred(&rt, rt.alloc());
    let later = sets(&rt, rt.alloc(), "Y", 1, 15);
    let script = format!(in rt.alloc();
        "{begun}ROLLBACK A RESYNC 81\nSTART A PRIMARY\nRUN A\n{later}END\nCRASH A 0\nSTART A PRIMARY\nZWRITE A\n"
    );
    let script = script.expect(&rt, "memory");
    let (status, out) = ran_well(&rt, rt.alloc(), script.as_bytes());
    ended(&rt, status, Status::Ok);
    let printed = hundred_printed(&rt, rt.alloc());
    let replies = replies(&rt, rt.alloc(), 81, 95, 80);
    let kept = nodes(&rt, rt.alloc(), "X", 1, 80);
    let set = nodes(&rt, rt.alloc(), "Y", 1, 15);
    let want = format!(in rt.alloc();
        "{printed}A ROLLEDBACK 80 LOST 2\nA PRIMARY 2 FROM 81\n{replies}A CRASHED\nA PRIMARY 3 FROM 96\n{kept}{set}"
    );
    let want = want.expect(&rt, "memory");
    same(&rt, out.as_slice(), want.as_bytes());
}

/// A command on a site of 100 nodes that is down.
#[derive(Drop)]
struct Row {
    command: &'static str,
    /// What it prints where no call fails.
    done: &'static str,
    /// How many of the nodes it leaves.
    kept: u32,
}

/// What is printed behind the site's STOP where the command's disk call behind so many fails, if it makes as many; the site crashes then
/// with that pick, and is started again.
fn behind(rt: &impl Abort, alloc: Global, row: &Row, calls: u32, pick: u32) -> String {
    let begun = hundred(rt, alloc);
    let printed = hundred_printed(rt, alloc);
    let command = row.command;
    let script = format!(in alloc;
        "{begun}FUSE A {calls}\n{command}\nCRASH A {pick}\nSTART A PRIMARY\nZWRITE A\n"
    );
    let script = script.expect(rt, "memory");
    let (status, out) = ran_well(rt, alloc, script.as_bytes());
    ended(rt, status, Status::Ok);
    let front = format!(in alloc; "{printed}A FUSED {calls}\n").expect(rt, "memory");
    let out = String::from_utf8(out).expect(rt, "text");
    let (_, rest) = out
        .split_once(front.as_str())
        .expect(rt, "what was done before");
    String::from_str(alloc, rest).expect(rt, "memory")
}

/// Whether this is what a command that failed prints, with so many nodes behind it.
fn has_left(rt: &impl Abort, alloc: Global, kept: u32, out: &str) -> bool {
    let from = kept.saturating_add(1);
    let nodes = nodes(rt, alloc, "X", 1, kept);
    let text = format!(in alloc; "A DISKFAULT 1\nA CRASHED\nA PRIMARY 2 FROM {from}\n{nodes}");
    let text = text.expect(rt, "memory");
    out == text.as_str()
}

/// Fails each disk call of the command in turn, up to the first run without a fault. All nodes stand then, or those that it leaves.
fn each_call_fails(rt: &impl Abort, alloc: Global, row: &Row, pick: u32) {
    for calls in 0..1000 {
        let out = behind(rt, alloc, row, calls, pick);
        let all = has_left(rt, alloc, 100, out.as_str());
        if !all && !has_left(rt, alloc, row.kept, out.as_str()) {
            let done = row.done;
            let want = format!(in alloc; "{done}A NOTRUNNING\n").expect(rt, "memory");
            assert!(rt; out.starts_with(want.as_str()), "at {calls}");
            assert!(rt; 10 < calls);
            return;
        }
    }
    assert!(rt; false, "each run has a fault");
}

#[test]
fn a_rollback_that_fails_at_each_call(rt: HostRuntime) {
    let row = Row {
        command: "ROLLBACK A RESYNC 81",
        done: "A ROLLEDBACK 80 LOST 2\n",
        kept: 80,
    };
    for pick in [0, 1, 2, 4] {
        each_call_fails(&rt, rt.alloc(), &row, pick);
    }
}

#[test]
fn a_recovery_that_fails_at_each_call(rt: HostRuntime) {
    let row = Row {
        command: "RECOVER A BACKWARD",
        done: "A RECOVERED 100\n",
        kept: 100,
    };
    for pick in [0, 1, 2, 4] {
        each_call_fails(&rt, rt.alloc(), &row, pick);
    }
}

/// Behind a rollback no update is made again either: the lost-transaction file and the nodes are still there in a later run.
#[test]
fn a_rollback_stands_in_a_later_run(rt: HostRuntime) {
    let mut disks: Vec<MemDisk> = disks(&rt, rt.alloc());
    let script =
        b"CREATE A R\nSTART A PRIMARY\nRUN A\n1 SET ^X=1\n1 SET ^X=2\nEND\nSTOP A\nROLLBACK A RESYNC 2\n";
    let (status, _) = ran_on(&rt, rt.alloc(), &mut disks, script);
    ended(&rt, status, Status::Ok);
    let script = b"ATTACH\nTYPE A LOST 2\nSTART A PRIMARY\nZWRITE A\n";
    let (status, out) = ran_on(&rt, rt.alloc(), &mut disks, script);
    ended(&rt, status, Status::Ok);
    let want =
        b"A ATTACHED\nGTMRJEX01\\A\\2\nSET\\2\\A.1\\1.2\\^X=\"2\"\nA PRIMARY 2 FROM 2\n^X=\"1\"\n";
    same(&rt, out.as_slice(), want);
}

/// What a script prints on a disk with this instance file, the first of all.
fn prints_over(rt: &impl Abort, alloc: Global, instance: &[u8], row: &str) {
    let mut disks = disks(rt, alloc);
    let disk = disks.first_mut().expect(rt, "a disk");
    write_file(rt, disk, 0, instance);
    let (script, want) = cut(rt, row);
    let (status, out) = ran_on(rt, alloc, &mut disks, script);
    ended(rt, status, Status::Ok);
    same(rt, out.as_slice(), want);
}

/// CREATE of A with region R, which keeps no images.
const NO_IMAGES: &[u8] = b"\x01\0\0\0\x08\x01\x01\x01A\x01\x01R\0\0";

const WITHOUT_IMAGES: &str = "\
ATTACH
START A PRIMARY
RUN A
1 SET ^X=1
1 SET ^X=2
END
STOP A
ROLLBACK A RESYNC 2
ROLLBACK A RESYNC 3
START A PRIMARY
ZWRITE A
--
A ATTACHED
A PRIMARY 1 FROM 1
1.1 SEQ 1
1.2 SEQ 2
A AT 2
A DOWN 2
A NOBEFORE R 1
A ROLLEDBACK 2 LOST 2
A PRIMARY 2 FROM 3
^X=\"2\"
";

/// A region without images can't go back behind its last epoch.
#[test]
fn a_region_without_images(rt: HostRuntime) {
    prints_over(&rt, rt.alloc(), NO_IMAGES, WITHOUT_IMAGES);
}

/// CREATE of A with region R, and CUT(0, 65534).
const NO_GENERATION_LEFT: &[u8] =
    b"\x01\0\0\0\x08\x01\x01\x01A\x01\x01R\x01\x01\0\0\0\x0d\x03\0\0\0\0\0\0\0\0\0\0\xff\xfe\0";

const AT_THE_LIMIT: &str = "\
ATTACH
ROLLBACK A RESYNC 1
RECOVER A BACKWARD
--
A ATTACHED
A GENLIMIT
A GENLIMIT
";

/// Behind the last generation that an opening may draw nothing is rolled back or recovered.
#[test]
fn a_rollback_at_the_last_generation(rt: HostRuntime) {
    prints_over(&rt, rt.alloc(), NO_GENERATION_LEFT, AT_THE_LIMIT);
}
