// Sections over memory disks that fail at any call.
ghost use Rattle.std.specs.Prelude.{◌≡◌, [], Some, IfSome, IfOk};
ghost use Rattle.disk_defs.specs.Gates.{records};
ghost use Rattle.journal_defs.specs.Numbers.{INSTANCE};
ghost use Rattle.site_store.specs.Site.{HasReign};
ghost use Rattle.site_store.specs.Owning.{IsGoing, memory_of};

use gvn_globals::Lookup;
use gvn_key::Bytes;
use gvn_model::{Job, JobQueue, Jobs, Statements};
use gvn_text::read_statement;
use repl_disk::{Disk, MemDisk};
use repl_section::{Reign, RunError};
use site_store::{RegionSpec, Site, SiteError};
use std::alloc::Global;
use std::process::Abort;

/// A job of the statements that these lines spell.
fn job(rt: &impl Abort, alloc: Global, lines: &str) -> Job {
    let mut statements = Statements::new(alloc);
    for line in lines.lines() {
        statements
            .push(read_statement(alloc, line.as_bytes()).expect(rt, "it succeeds"))
            .expect(rt, "it succeeds");
    }
    Job { statements }
}

/// A job of one statement for each of these lines.
fn queue(rt: &impl Abort, alloc: Global, lines: &str) -> JobQueue {
    let mut queue = JobQueue::new(alloc);
    for line in lines.lines() {
        queue.push(job(rt, alloc, line)).expect(rt, "it succeeds");
    }
    queue
}

/// Makes the site A of one region R on a disk without one.
fn make<D: Disk>(alloc: Global, disk: &mut D) -> Result<(), SiteError>
    requires { IfSome (D.disk disk.old).content (λ files. records (files INSTANCE) ≡ Some []) }
{
    let name = Bytes::of(alloc, b"A")?;
    let region = RegionSpec {
        name: Bytes::of(alloc, b"R")?,
        before: true,
    };
    Site::create(alloc, disk, &name, &[region])
}

/// A disk with a new site.
fn made(rt: &impl Abort, alloc: Global) -> MemDisk {
    let mut disk = MemDisk::new(alloc).expect(rt, "it succeeds");
    make(alloc, &mut disk).expect(rt, "it succeeds");
    disk
}

/// Opens the site of a disk and begins a reign. Where that fails the disk comes back.
fn begin<D: Disk>(alloc: Global, disk: D) -> Result<Reign<D>, D>
    ensures ready { IfOk result (λ reign. IsGoing D.disk reign.site) }
    ensures begun { IfOk result (λ reign. HasReign (memory_of reign.site)) }
{
    let mut site = match Site::load(alloc, disk) {
        Ok(site) => site,
        Err((disk, _)) => return Err(disk),
    };
    if site.start_reign().is_err() {
        return Err(site.abandon());
    }
    Ok(Reign {
        site,
        serials: [1; 64],
    })
}

/// The reign that begins on the site of a disk.
fn reign_on<D: Disk>(rt: &impl Abort, alloc: Global, disk: D) -> Reign<D>
    ensures ready { IsGoing D.disk result.site }
    ensures begun { HasReign (memory_of result.site) }
{
    begin(alloc, disk).ok().expect(rt, "it succeeds")
}

/// Jobs see what stands, sums and tests are made on it, and a job that is rolled back leaves nothing.
#[test]
fn jobs_see_what_stands(rt: HostRuntime) {
    let alloc = rt.alloc();
    let lines =
        "SET ^X(1)=\"abc\"\nSET ^X(1,2)=2\nINCR ^X(1) 1\nINCR ^Y -5\nCHECK ^Y>=0\nKILL ^X(1)\nDATA ^X\nDATA ^Y\nGET ^Y\nORDER ^X(\"\")";
    let disk = made(&rt, alloc);
    let mut jobs = Jobs::new(alloc);
    jobs.push(queue(&rt, alloc, lines))
        .expect(&rt, "it succeeds");
    let mut text = Bytes::new(alloc);
    let mut reign = reign_on(&rt, alloc, disk);
    reign
        .run(alloc, &mut jobs, &[1; 12], &mut text)
        .expect(&rt, "it succeeds");
    let told =
        b"1.1 SEQ 1\n1.2 SEQ 2\n1.3 ROLLEDBACK NOTNUM\n1.4 SEQ 3 -5\n1.5 ROLLEDBACK CHECK\n1.6 SEQ 4\n1.7 READ 0\n1.8 READ 1\n1.9 READ \"-5\"\n1.10 READ \"\"\n";
    assert_eq!(rt; text.as_slice(), told.as_slice());
}

/// Updater 1 has a transaction, a read and a SET, and updater 2 a read.
fn section(rt: &impl Abort, alloc: Global) -> Jobs {
    let mut first = JobQueue::new(alloc);
    first
        .push(job(rt, alloc, "SET ^X=1\nSET ^Y=2"))
        .expect(rt, "it succeeds");
    first
        .push(job(rt, alloc, "GET ^Y"))
        .expect(rt, "it succeeds");
    first
        .push(job(rt, alloc, "SET ^X=3"))
        .expect(rt, "it succeeds");
    let mut jobs = Jobs::new(alloc);
    jobs.push(first).expect(rt, "it succeeds");
    jobs.push(queue(rt, alloc, "GET ^X"))
        .expect(rt, "it succeeds");
    jobs
}

/// Runs that section in a reign, and adds its replies.
fn run_section<D: Disk>(
    rt: &impl Abort,
    alloc: Global,
    reign: &mut Reign<D>,
    order: &[u8],
    text: &mut Bytes,
)
    requires ready { IsGoing D.disk reign.old.site }
    requires begun { HasReign (memory_of reign.old.site) }
    ensures ready { IsGoing D.disk reign.new.site }
    ensures begun { HasReign (memory_of reign.new.site) }
{
    reign
        .run(alloc, &mut section(rt, alloc), order, text)
        .expect(rt, "it succeeds");
}

/// Two sections of one reign.
fn run_twice<D: Disk>(rt: &impl Abort, alloc: Global, disk: D, text: &mut Bytes) -> D {
    let mut reign = reign_on(rt, alloc, disk);
    run_section(rt, alloc, &mut reign, &[1, 2, 1, 1], text);
    run_section(rt, alloc, &mut reign, &[2, 1], text);
    reign.site.abandon()
}

/// Serials go on in a reign, and entries and globals in the next one too.
#[test]
fn entries_globals_and_serials_go_on(rt: HostRuntime) {
    let alloc = rt.alloc();
    let disk = made(&rt, alloc);
    let mut text = Bytes::new(alloc);
    let disk = run_twice(&rt, alloc, disk, &mut text);
    let mut again = reign_on(&rt, alloc, disk);
    run_section(&rt, alloc, &mut again, &[2, 1], &mut text);
    let told =
        b"1.1 SEQ 1\n2.1 READ \"1\"\n1.2 READ \"2\"\n1.3 SEQ 2\n2.2 READ \"3\"\n1.4 SEQ 3\n2.1 READ \"1\"\n1.1 SEQ 4\n";
    assert_eq!(rt; text.as_slice(), told.as_slice());
}

/// Decides two jobs, hardens both entries at once, and releases both replies. Answers how many entries were hardened before that.
fn decide_two<D: Disk>(
    rt: &impl Abort,
    alloc: Global,
    reign: &mut Reign<D>,
    text: &mut Bytes,
) -> u64
    requires ready { IsGoing D.disk reign.old.site }
    requires begun { HasReign (memory_of reign.old.site) }
{
    let first = reign
        .decide(alloc, 1, job(rt, alloc, "SET ^X=1"))
        .expect(rt, "it succeeds");
    let second = reign
        .decide(alloc, 2, job(rt, alloc, "INCR ^X 1"))
        .expect(rt, "it succeeds");
    let before = reign.site.hardened_length();
    reign.harden().expect(rt, "it succeeds");
    reign.release(first, text).expect(rt, "it succeeds");
    reign.release(second, text).expect(rt, "it succeeds");
    before
}

/// Replies of two jobs may wait for one hardening.
#[test]
fn two_entries_are_hardened_at_once(rt: HostRuntime) {
    let alloc = rt.alloc();
    let disk = made(&rt, alloc);
    let mut text = Bytes::new(alloc);
    let mut reign = reign_on(&rt, alloc, disk);
    let before = decide_two(&rt, alloc, &mut reign, &mut text);
    assert_eq!(rt; before, 0);
    assert_eq!(rt; text.as_slice(), b"1.1 SEQ 1\n2.1 SEQ 2 2\n".as_slice());
}

/// How many of a section's jobs are answered before the calls of the disk fail.
fn run_some(rt: &impl Abort, alloc: Global, mut disk: MemDisk, calls: u64) -> (MemDisk, u64) {
    disk.fuse(calls);
    let mut reign = match begin(alloc, disk) {
        Ok(reign) => reign,
        Err(disk) => return (disk, 0),
    };
    let mut text = Bytes::new(alloc);
    let decided = match reign.run(alloc, &mut section(rt, alloc), &[1, 2, 1, 1], &mut text) {
        Ok(()) => Some(4),
        Err(RunError::Failed { undecided }) => Some(4 - undecided.min(4)),
        Err(RunError::NoMemory) => None,
    };
    let answered = decided.expect(rt, "memory");
    (reign.site.abandon(), answered)
}

/// A section runs where so many calls of the disk succeed, and a crash takes the image of that pick. Each acknowledged entry stands, and
/// at most one more; a transaction stands whole or not at all.
fn stand_after(rt: &impl Abort, alloc: Global, calls: u64, pick: u64) {
    let (mut disk, answered) = run_some(rt, alloc, made(rt, alloc), calls);
    let told = match answered {
        0 => 0,
        4 => 2,
        _ => 1,
    };
    disk.crash(pick);
    let again = Site::load(alloc, disk).ok().expect(rt, "a site");
    let left = again.sequence_length();
    assert!(rt;
        told <= left && left <= told + 1,
        "pick {pick}, calls {calls}"
    );
    assert_eq!(rt; again.nodes(), if left == 0 { 0 } else { 2 });
}

/// Whatever call fails and whatever image a crash takes.
#[test]
fn acknowledged_entries_stand(rt: HostRuntime) {
    for pick in [0, 1, 2, 4] {
        for calls in 0..64u64 {
            stand_after(&rt, rt.alloc(), calls, pick);
        }
    }
}
