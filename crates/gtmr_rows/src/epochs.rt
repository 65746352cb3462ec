// Epochs: what EPOCH and STOP leave, whatever call of theirs fails, and starts from the blocks that they wrote.
use super::ran::{FIRST_SET, FIRST_SET_PRINTS, disks, ended, prints, ran_on, ran_well, same};
use repl_disk::{Disk, MemDisk};
use site_runner::Status;
use std::alloc::Global;
use std::fmt::Write;
use std::process::Abort;

const REFUSALS_OF_EPOCH: &str = "\
EPOCH A
CREATE A R
EPOCH A
START A PRIMARY
EPOCH A
RUN A
1 SET ^X(1)=1
END
EPOCH A
EPOCH A
FUSE A 0
EPOCH A
EPOCH A
STOP A
SHOW A
CRASH A 0
EPOCH A
START A PRIMARY
STOP A
EPOCH A
--
A NOSITE
A CREATED
A NOTRUNNING
A PRIMARY 1 FROM 1
A EPOCH 0
1.1 SEQ 1
A AT 1
A EPOCH 1
A EPOCH 1
A FUSED 0
A DISKFAULT 1
A STOPPED 1
A STOPPED 1
A STATE FAILED 1
A CRASHED
A NOTRUNNING
A PRIMARY 2 FROM 2
A DOWN 1
A NOTRUNNING
";

/// EPOCH answers the first cause in its order, and a site that is open is brought to one as often as it's asked.
#[test]
fn refusals_of_epoch(rt: HostRuntime) {
    prints(&rt, rt.alloc(), REFUSALS_OF_EPOCH);
}

const TWO_REGIONS: &str = "\
CREATE A ACCT HIST
MAP A HIST H*
START A PRIMARY
RUN A
1 SET ^ACCT(1)=1
1 SET ^HIST(1)=2
1 SET ^ACCT(2)=3
END
EPOCH A
RUN A
1 KILL ^ACCT(1)
1 TSTART
1 SET ^ACCT(3)=4
1 SET ^HIST(2)=5
1 TCOMMIT
END
CRASH A 0
START A PRIMARY
ZWRITE A
RUN A
1 KILL ^HIST
END
EPOCH A
CRASH A 1
START A PRIMARY
ZWRITE A
EXTRACT A 5
--
A CREATED
A MAPPED
A PRIMARY 1 FROM 1
1.1 SEQ 1
1.2 SEQ 2
1.3 SEQ 3
A AT 3
A EPOCH 3
1.4 SEQ 4
1.5 SEQ 5
A AT 5
A CRASHED
A PRIMARY 2 FROM 6
^ACCT(2)=\"3\"
^ACCT(3)=\"4\"
^HIST(1)=\"2\"
^HIST(2)=\"5\"
1.1 SEQ 6
A AT 6
A EPOCH 6
A CRASHED
A PRIMARY 3 FROM 7
^ACCT(2)=\"3\"
^ACCT(3)=\"4\"
GTMRJEX01\\A\\5
TSTART\\5\\A.1\\1.5
SET\\5\\A.1\\1.5\\^ACCT(3)=\"4\"
SET\\5\\A.1\\1.5\\^HIST(2)=\"5\"
TCOM\\5\\A.1\\1.5
KILL\\6\\A.2\\1.1\\^HIST
";

/// Entries behind an epoch of two regions are made again, and those before it stand in the blocks.
#[test]
fn epochs_of_two_regions(rt: HostRuntime) {
    prints(&rt, rt.alloc(), TWO_REGIONS);
}

/// A command whose disk calls fail at a site of 50 nodes.
#[derive(Drop)]
struct Row {
    /// What is done before it, behind the nodes' entries.
    before: &'static str,
    /// What that prints.
    printed: &'static str,
    /// How many entries there are then.
    length: u32,
    command: &'static str,
    /// What it prints where no call fails.
    done: &'static str,
    /// Whether it leaves the site open, so that it can crash.
    open: bool,
}

/// What is printed up to the command.
fn begun(rt: &impl Abort, alloc: Global, row: &Row, calls: u32) -> String {
    let text = format!(in alloc; "A CREATED\nA PRIMARY 1 FROM 1\n");
    let mut text = text.expect(rt, "memory");
    for i in 1..=50u32 {
        write!(text, "1.{i} SEQ {i}\n").expect(rt, "memory");
    }
    let printed = row.printed;
    write!(text, "A AT 50\n{printed}A FUSED {calls}\n").expect(rt, "memory");
    text
}

/// What a crash, a start and a list of all nodes print.
fn left(rt: &impl Abort, alloc: Global, row: &Row) -> String {
    let from = row.length.saturating_add(1);
    let text = format!(in alloc; "A CRASHED\nA PRIMARY 2 FROM {from}\n");
    let mut text = text.expect(rt, "memory");
    for i in 1..=50u32 {
        write!(text, "^X({i})=\"{i}\"\n").expect(rt, "memory");
    }
    text
}

/// The jobs of 50 nodes.
fn sets(rt: &impl Abort, alloc: Global) -> String {
    let mut text = String::new(alloc);
    for i in 1..=50u32 {
        write!(text, "1 SET ^X({i})={i}\n").expect(rt, "memory");
    }
    text
}

/// What is printed where the command's disk call behind so many fails, if it makes as many; the site crashes then with that pick, and is
/// started again.
fn printed(rt: &impl Abort, alloc: Global, row: &Row, calls: u32, pick: u32) -> Vec<u8> {
    let sets = sets(rt, alloc);
    let before = row.before;
    let command = row.command;
    let script = format!(in alloc;
        "CREATE A R\nSTART A PRIMARY\nRUN A\n{sets}END\n{before}FUSE A {calls}\n{command} A\nCRASH A {pick}\nSTART A PRIMARY\nZWRITE A\n"
    );
    let script = script.expect(rt, "memory");
    let (_, out) = ran_well(rt, alloc, script.as_bytes());
    out
}

/// Whether this is what a command that failed prints, with all nodes behind it.
fn has_failed(rt: &impl Abort, alloc: Global, row: &Row, calls: u32, out: &[u8]) -> bool {
    let begun = begun(rt, alloc, row, calls);
    let left = left(rt, alloc, row);
    let text = format!(in alloc; "{begun}A DISKFAULT 1\n{left}").expect(rt, "memory");
    out == text.as_bytes()
}

/// This is what a command that didn't fail prints. Of one that leaves the site down the fuse burns on in the start.
fn was_done(rt: &impl Abort, alloc: Global, row: &Row, calls: u32, out: &[u8]) {
    let begun = begun(rt, alloc, row, calls);
    let done = row.done;
    let text = format!(in alloc; "{begun}{done}").expect(rt, "memory");
    assert!(rt; out.starts_with(text.as_bytes()), "at {calls}");
    let left = left(rt, alloc, row);
    assert!(rt; !row.open || out.ends_with(left.as_bytes()), "at {calls}");
}

/// Fails each disk call of the command in turn, up to the first run without a fault.
fn each_call_fails(rt: &impl Abort, alloc: Global, row: &Row, pick: u32) {
    for calls in 0..1000 {
        let out = printed(rt, alloc, row, calls, pick);
        if !has_failed(rt, alloc, row, calls, out.as_slice()) {
            was_done(rt, alloc, row, calls, out.as_slice());
            assert!(rt; 5 < calls);
            return;
        }
    }
    assert!(rt; false, "each run has a fault");
}

const EPOCH_BEFORE: &str = "EPOCH A\nRUN A\n1 KILL ^X(50)\n1 SET ^X(50)=50\nEND\n";

const EPOCH_BEFORE_PRINTS: &str = "A EPOCH 50\n1.51 SEQ 51\n1.52 SEQ 52\nA AT 52\n";

/// A first epoch.
#[test]
fn an_epoch_that_fails_at_each_call(rt: HostRuntime) {
    let row = Row {
        before: "",
        printed: "",
        length: 50,
        command: "EPOCH",
        done: "A EPOCH 50\nA CRASHED\n",
        open: true,
    };
    for pick in [0, 1, 2, 4] {
        each_call_fails(&rt, rt.alloc(), &row, pick);
    }
}

/// An epoch behind another one, to which a start goes back by images.
#[test]
fn a_second_epoch_that_fails_at_each_call(rt: HostRuntime) {
    let row = Row {
        before: EPOCH_BEFORE,
        printed: EPOCH_BEFORE_PRINTS,
        length: 52,
        command: "EPOCH",
        done: "A EPOCH 52\nA CRASHED\n",
        open: true,
    };
    for pick in [0, 1, 2, 4] {
        each_call_fails(&rt, rt.alloc(), &row, pick);
    }
}

#[test]
fn a_stop_that_fails_at_each_call(rt: HostRuntime) {
    let row = Row {
        before: EPOCH_BEFORE,
        printed: EPOCH_BEFORE_PRINTS,
        length: 52,
        command: "STOP",
        done: "A DOWN 52\nA NOTRUNNING\n",
        open: false,
    };
    for pick in [0, 1, 2, 4] {
        each_call_fails(&rt, rt.alloc(), &row, pick);
    }
}

/// The byte at place 17 of the first region's database file; 0 where the file ends before it.
fn byte_of_the_node<D: Disk>(rt: &impl Abort, disk: &mut D) -> u8 {
    if disk.len(1).expect(rt, "a length") < 18 {
        return 0;
    }
    let mut read = [0; 1];
    disk.read_at(1, 17, &mut read).expect(rt, "a byte");
    read[0]
}

/// Writes these bytes into the first region's database file, which doesn't end before that place.
fn write_blocks<D: Disk>(rt: &impl Abort, disk: &mut D, at: u64, bytes: &[u8]) {
    if disk.len(1).expect(rt, "a length") < at {
        return;
    }
    disk.room(1, 1, bytes.len() as u64).expect(rt, "memory");
    disk.write_at(1, at, bytes).expect(rt, "a write");
}

/// The disks of a site that was stopped with one node, the byte of whose value is an `a` in its block.
fn with_a_node(rt: &impl Abort, alloc: Global) -> Vec<MemDisk> {
    let mut disks = disks(rt, alloc);
    let (status, out) = ran_on(rt, alloc, &mut disks, FIRST_SET);
    ended(rt, status, Status::Ok);
    same(rt, out.as_slice(), FIRST_SET_PRINTS);
    let disk = disks.first_mut().expect(rt, "a disk");
    assert_eq!(rt; byte_of_the_node(rt, disk), b'a');
    disks
}

/// The site on these disks is taken up and started, and its nodes are listed.
fn start_prints(rt: &impl Abort, alloc: Global, disks: &mut Vec<MemDisk>, want: &[u8]) {
    let script = b"ATTACH\nSTART A PRIMARY\nZWRITE A\n";
    let (status, out) = ran_on(rt, alloc, disks, script);
    ended(rt, status, Status::Ok);
    same(rt, out.as_slice(), want);
}

/// Behind a STOP no update is made again: the value is what stands in the block.
#[test]
fn starts_from_blocks(rt: HostRuntime) {
    let mut disks = with_a_node(&rt, rt.alloc());
    let disk = disks.first_mut().expect(&rt, "a disk");
    write_blocks(&rt, disk, 17, b"b");
    let want = b"A ATTACHED\nA PRIMARY 2 FROM 2\n^X(1)=\"b\"\n";
    start_prints(&rt, rt.alloc(), &mut disks, want);
}

/// A block that is outside the format is named, and the site stays down.
#[test]
fn a_damaged_block(rt: HostRuntime) {
    let mut disks = with_a_node(&rt, rt.alloc());
    let disk = disks.first_mut().expect(&rt, "a disk");
    write_blocks(&rt, disk, 0, b"\xff\xff");
    let want = b"A ATTACHED\nA NOTAFILE 1 0\nA NOTRUNNING\n";
    start_prints(&rt, rt.alloc(), &mut disks, want);
}

/// So is one behind the first, by its place.
#[test]
fn a_damaged_second_block(rt: HostRuntime) {
    let mut disks = disks(&rt, rt.alloc());
    let value = "x".repeat(rt.alloc(), 1400).expect(&rt, "memory");
    let script = format!(in rt.alloc();
        "CREATE A R\nSTART A PRIMARY\nRUN A\n1 SET ^X(1)=\"{value}\"\n1 SET ^X(2)=\"{value}\"\n1 SET ^X(3)=\"{value}\"\nEND\nSTOP A\n"
    );
    let script = script.expect(&rt, "memory");
    ran_on(&rt, rt.alloc(), &mut disks, script.as_bytes());
    let disk = disks.first_mut().expect(&rt, "a disk");
    write_blocks(&rt, disk, 4096, b"\xff\xff");
    let want = b"A ATTACHED\nA NOTAFILE 1 4096\nA NOTRUNNING\n";
    start_prints(&rt, rt.alloc(), &mut disks, want);
}
