// Lists and copies with memory to spare, and jobs in turn.
ghost use Rattle.std.specs.Prelude.{◌≡◌, length};

use crate::rows::{holds, same};
use gvn_globals::Globals;
use gvn_key::terms::{Statement, Update};
use gvn_key::{Bytes, Key};
use gvn_model::{
    Entries, Entry, History, Job, JobQueue, Jobs, NamedModes, Origin, Reign, Reigns, Stamp,
    Statements, Transaction, Updates,
};
use gvn_text::read_statement;
use std::alloc::Global;
use std::process::Abort;

fn stamp(rt: &impl Abort, alloc: Global, cycle: u32) -> Stamp {
    let root = Bytes::of(alloc, b"A").expect(rt, "memory");
    Stamp { root, cycle }
}

fn reign(rt: &impl Abort, alloc: Global, cycle: u32, start: u64) -> Reign {
    let stamp = stamp(rt, alloc, cycle);
    Reign { stamp, start }
}

/// The reigns A.1 from 1 and A.2 from 7, and 9 entries.
fn two_reigns(rt: &impl Abort, alloc: Global) -> History
    ensures { length result.reigns ≡ 2 }
{
    let mut reigns = Reigns::new(alloc);
    reigns.push(reign(rt, alloc, 1, 1)).expect(rt, "memory");
    reigns.push(reign(rt, alloc, 2, 7)).expect(rt, "memory");
    History { length: 9, reigns }
}

#[test]
fn copies_a_history(rt: HostRuntime) {
    let history = two_reigns(&rt, rt.alloc());
    let mut made = history.copy().expect(&rt, "memory");
    holds(&rt, made.length == 9, b"the length");
    holds(&rt, made.reigns.len() == 2, b"two reigns");
    holds(&rt, !made.reigns.is_empty(), b"some reigns");
    holds(
        &rt,
        matches!(made.reigns.as_slice(), [_, second] if second.start == 7),
        b"the start",
    );
    let reign = history.reigns.item(1);
    holds(&rt, reign.stamp.cycle == 2, b"the cycle");
    let begun = history.reigns.begun_by(6).expect(&rt, "memory");
    holds(&rt, begun.len() == 1, b"one reign that began by entry 6");
    made.reigns.drop_last();
    holds(
        &rt,
        matches!(made.reigns.as_slice(), [first] if first.start == 1),
        b"the first reign alone",
    );
}

fn key(rt: &impl Abort, alloc: Global, text: &[u8]) -> Key {
    Key::parse(alloc, text).expect(rt, "a key")
}

/// SET of a node to "a".
fn set(rt: &impl Abort, alloc: Global, text: &[u8]) -> Update {
    let value = Bytes::of(alloc, b"a").expect(rt, "memory");
    Update::Set(key(rt, alloc, text), value)
}

/// A SET and a KILL.
fn two_updates(rt: &impl Abort, alloc: Global) -> Updates
    ensures { length result ≡ 2 }
{
    let mut updates = Updates::new(alloc);
    updates.push(set(rt, alloc, b"^X")).expect(rt, "memory");
    let kill = Update::Kill(key(rt, alloc, b"^Y"));
    updates.push(kill).expect(rt, "memory");
    updates
}

/// Entry 3, the fifth job of updater 2, with these updates.
fn entry(rt: &impl Abort, alloc: Global, updates: Updates) -> Entry
    ensures { result.transaction.updates ≡ updates }
{
    let origin = Origin {
        updater: 2,
        serial: 5,
    };
    Entry {
        number: 3,
        stamp: stamp(rt, alloc, 1),
        transaction: Transaction { origin, updates },
    }
}

#[test]
fn copies_an_entry(rt: HostRuntime) {
    holds(&rt, Updates::new(rt.alloc()).is_empty(), b"no updates");
    let entry = entry(&rt, rt.alloc(), two_updates(&rt, rt.alloc()));
    let made = entry.copy().expect(&rt, "memory");
    holds(&rt, made.number == 3, b"the number");
    same(&rt, made.stamp.root.as_slice(), b"A");
    let (t, u) = (&made.transaction, &entry.transaction);
    holds(&rt, t.origin == u.origin, b"the origin");
    holds(&rt, t.updates.len() == 2, b"two updates");
    holds(&rt, matches!(u.updates.item(1), Update::Kill(_)), b"KILL");
    holds(
        &rt,
        matches!(t.updates.as_slice(), [Update::Set(..), _]),
        b"SET",
    );
}

#[test]
fn copies_a_list_of_entries(rt: HostRuntime) {
    let mut entries = Entries::new(rt.alloc());
    holds(&rt, entries.is_empty(), b"no entries");
    let entry = entry(&rt, rt.alloc(), Updates::new(rt.alloc()));
    entries.push(entry).expect(&rt, "memory");
    let made = entries.copy().expect(&rt, "memory");
    holds(&rt, made.len() == 1, b"one entry");
    holds(&rt, made.item(0).number == 3, b"the number");
    holds(&rt, entries.as_slice().len() == 1, b"one entry still");
}

/// Globals with `^X(1)` and `^X`.
fn two_nodes(rt: &impl Abort, alloc: Global) -> Globals {
    let mut globals = Globals::new(alloc);
    globals
        .apply(&set(rt, alloc, b"^X(1)"))
        .expect(rt, "memory");
    globals.apply(&set(rt, alloc, b"^X")).expect(rt, "memory");
    globals
}

#[test]
fn sets_nodes(rt: HostRuntime) {
    let globals = two_nodes(&rt, rt.alloc());
    let top = key(&rt, rt.alloc(), b"^X");
    holds(&rt, globals.nodes() == 2, b"two nodes");
    holds(&rt, globals.defined(&top) == 11, b"a value and descendants");
    same(&rt, globals.get(&top).unwrap_or(b""), b"a");
}

#[test]
fn takes_nodes_away(rt: HostRuntime) {
    let mut globals = two_nodes(&rt, rt.alloc());
    let top = key(&rt, rt.alloc(), b"^X");
    let next = globals.after(&top).expect(&rt, "memory");
    holds(&rt, next.is_some(), b"the next node");
    let zkill = Update::ZKill(key(&rt, rt.alloc(), b"^X"));
    globals.apply(&zkill).expect(&rt, "memory");
    holds(&rt, globals.nodes() == 1, b"one node");
    globals.apply(&Update::Kill(top)).expect(&rt, "memory");
    holds(&rt, globals.nodes() == 0, b"no node");
}

fn statement(rt: &impl Abort, alloc: Global, text: &[u8]) -> Statement {
    read_statement(alloc, text).expect(rt, "a statement")
}

/// A job of one statement.
fn job(rt: &impl Abort, alloc: Global) -> Job {
    let mut statements = Statements::new(alloc);
    let statement = statement(rt, alloc, b"SET ^X(1)=\"abc\"");
    statements.push(statement).expect(rt, "memory");
    Job { statements }
}

/// Updater 1 has two jobs, and the first of them two statements.
fn two_jobs(rt: &impl Abort, alloc: Global) -> Jobs {
    let mut queue = JobQueue::new(alloc);
    queue.push(job(rt, alloc)).expect(rt, "memory");
    let mut jobs = Jobs::new(alloc);
    jobs.push(queue).expect(rt, "memory");
    let statement = statement(rt, alloc, b"SET ^X(1,2)=\"abc\"");
    jobs.add_statement(1, statement).expect(rt, "memory");
    jobs.add(1, job(rt, alloc)).expect(rt, "memory");
    jobs
}

#[test]
fn takes_jobs_in_turn(rt: HostRuntime) {
    let mut jobs = two_jobs(&rt, rt.alloc());
    let first = jobs.take_next(1).expect(&rt, "a job");
    holds(&rt, first.statements.len() == 2, b"two statements");
    holds(&rt, jobs.take_next(1).is_some(), b"the second job");
    holds(&rt, jobs.take_next(1).is_none(), b"no third job");
    holds(&rt, jobs.take_next(7).is_none(), b"no updater");
}

#[test]
fn copies_jobs(rt: HostRuntime) {
    let mut jobs = Jobs::new(rt.alloc());
    holds(&rt, jobs.is_empty(), b"no updaters");
    jobs.push(JobQueue::new(rt.alloc())).expect(&rt, "memory");
    let copied = jobs.copy().expect(&rt, "memory");
    holds(&rt, copied.len() == 1, b"one updater");
    holds(&rt, copied.item(0).is_empty(), b"no jobs");
    holds(&rt, copied.as_slice()[0].len() == 0, b"no jobs");
}

#[test]
fn copies_names(rt: HostRuntime) {
    let mut named = NamedModes::new(rt.alloc());
    holds(&rt, named.is_empty(), b"no names");
    let name = Bytes::of(rt.alloc(), b"R").expect(&rt, "memory");
    named.push((name, true)).expect(&rt, "memory");
    let made = named.copy().expect(&rt, "memory");
    holds(&rt, made.len() == 1, b"one name");
    holds(&rt, made.item(0).1, b"the mode");
    same(&rt, made.as_slice()[0].0.as_slice(), b"R");
}
