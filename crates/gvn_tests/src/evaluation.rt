// Jobs on globals.
use crate::rows::{cut, holds, lines, same};
use gvn_eval::{eval, eval_owned};
use gvn_globals::Globals;
use gvn_key::terms::Update;
use gvn_key::{Bytes, Key};
use gvn_model::{Answers, Cause, Evaluated, Job, Origin, Statements, Updates};
use gvn_text::read_statement;
use std::alloc::Global;
use std::process::Abort;

// A row is what is said of a job, which is how many updates there are and the answers, or the cause; and its one statement.

const COUNTED: &[u8] = b"\
1|SET ^X=\"abc\"
NOTNUM|INCR ^X 1
1 -5|INCR ^Y -5
1 999999999999999999|INCR ^Z 999999999999999999
NOTNUM|INCR ^Z 1
CHECK|CHECK ^Y>=0
0|CHECK ^X=\"abc\"
0 \"\"|ORDER ^Y(\"\")
0 \"abc\"|GET ^X
";

const KILLS: &[u8] = b"\
1|SET ^X(1)=\"abc\"
1|SET ^X(1,2)=\"abc\"
1|SET ^Y(1)=\"abc\"
1|SET ^Y(1,2)=\"abc\"
1|KILL ^X(1)
1|ZKILL ^Y(1)
0 0|DATA ^X(1)
0 10|DATA ^Y(1)
0 1|DATA ^Y(1,2)
0 10|DATA ^Y
";

const BEFORE: &[u8] = b"\
1|SET ^T(1)=1
1|SET ^T(2)=2
1|SET ^T(2,1)=3
1|SET ^T(3)=4
1|SET ^U=5
";

const BEHIND_KILLS: &[u8] = b"\
KILL ^T(2)
DATA ^T(2,1)
ORDER ^T(1)
KILL ^T
DATA ^T
ORDER ^T(\"\")
SET ^T(3,5)=6
DATA ^T
ORDER ^T(\"\")
ORDER ^T(3)
KILL ^T(3)
DATA ^T
SET ^T(1)=7
KILL ^T
SET ^T(2,2)=8
DATA ^T(2,1)
ORDER ^T(1)
DATA ^U
";

// Each is made many times, one behind the other, and all together.
const KILLS_AND_SETS: &[u8] = b"\
KILL ^T(2)
KILL ^T
SET ^T(2,1)=6
KILL ^T(2)
KILL ^T
SET ^T(3)=7
ZKILL ^T(3)
KILL ^T
SET ^T(2)=8
KILL ^T(1)
SET ^T(4)=\"abc\"
KILL ^T(3)
";

const BEHIND_ALL: &[u8] = b"\
0 10|DATA ^T
0 0|DATA ^T(1)
0 1|DATA ^T(2)
0 0|DATA ^T(2,1)
0 0|DATA ^T(3)
0 \"abc\"|GET ^T(4)
0 1|DATA ^U
";

const FULL: &[u8] = b"\
FULL|SET ^X=\"abc\"
1|SET ^AAAA=\"abc\"
";

fn cause_name(cause: Cause) -> &'static [u8] {
    match cause {
        Cause::Check => b"CHECK",
        Cause::NotNum => b"NOTNUM",
        Cause::Full => b"FULL",
        Cause::SeqLimit => b"SEQLIMIT",
    }
}

/// Adds how many updates there are, and the answers.
fn write_done(rt: &impl Abort, updates: &Updates, answers: &Answers, text: &mut Bytes) {
    text.push_decimal(updates.len() as u64).expect(rt, "memory");
    for answer in answers.as_slice() {
        text.push(b' ').expect(rt, "memory");
        text.push_all(answer.as_slice()).expect(rt, "memory");
    }
}

/// Makes these updates one by one.
fn apply(rt: &impl Abort, globals: &mut Globals, updates: &Updates) {
    for update in updates.as_slice() {
        globals.apply(update).expect(rt, "memory");
    }
}

const ORIGIN: Origin = Origin {
    updater: 1,
    serial: 1,
};

/// What is said of what a job comes to.
fn said(rt: &impl Abort, alloc: Global, evaluated: &Evaluated) -> Bytes {
    let mut text = Bytes::new(alloc);
    match evaluated {
        Evaluated::RolledBack(cause) => text.push_all(cause_name(*cause)).expect(rt, "memory"),
        Evaluated::Done { updates, answers } => write_done(rt, updates, answers, &mut text),
    }
    text
}

/// What is said of a job of updater 1 that is taken.
fn said_of_taken(rt: &impl Abort, alloc: Global, globals: &Globals, job: &Job) -> Bytes {
    let taken = job.copy().expect(rt, "memory");
    let made = eval_owned(alloc, taken, ORIGIN, globals).expect(rt, "memory");
    said(rt, alloc, &made)
}

/// What a job of updater 1 comes to. The same is said of one that is taken.
fn evaluated(rt: &impl Abort, alloc: Global, globals: &Globals, job: &Job) -> Evaluated {
    let made = eval(alloc, job, ORIGIN, globals).expect(rt, "memory");
    let taken = said_of_taken(rt, alloc, globals, job);
    same(rt, said(rt, alloc, &made).as_slice(), taken.as_slice());
    made
}

/// What is said of a job, whose updates are then made.
fn run(rt: &impl Abort, alloc: Global, globals: &mut Globals, job: &Job) -> Bytes {
    let made = evaluated(rt, alloc, globals, job);
    if let Evaluated::Done { updates, .. } = &made {
        apply(rt, globals, updates);
    }
    said(rt, alloc, &made)
}

/// Adds a statement so many times.
fn add(rt: &impl Abort, alloc: Global, statements: &mut Statements, text: &[u8], times: u32) {
    for _ in 0..times {
        let statement = read_statement(alloc, text).expect(rt, "a statement");
        statements.push(statement).expect(rt, "memory");
    }
}

/// A job of each of these statements so many times.
fn job_of(rt: &impl Abort, alloc: Global, texts: &[u8], times: u32) -> Job {
    let mut statements = Statements::new(alloc);
    for text in &lines(rt, alloc, texts) {
        add(rt, alloc, &mut statements, text, times);
    }
    Job { statements }
}

/// Each row of a table is a job.
fn run_rows(rt: &impl Abort, alloc: Global, globals: &mut Globals, table: &[u8]) {
    for row in &lines(rt, alloc, table) {
        let (want, text) = cut(row);
        let job = job_of(rt, alloc, text, 1);
        same(rt, run(rt, alloc, globals, &job).as_slice(), want);
    }
}

#[test]
fn counts_and_checks(rt: HostRuntime) {
    run_rows(&rt, rt.alloc(), &mut Globals::new(rt.alloc()), COUNTED);
}

#[test]
fn kills_and_tells_data(rt: HostRuntime) {
    run_rows(&rt, rt.alloc(), &mut Globals::new(rt.alloc()), KILLS);
}

/// All rows are one job, which sees its own updates.
#[test]
fn sees_its_own_updates(rt: HostRuntime) {
    let mut statements = Statements::new(rt.alloc());
    for row in &lines(&rt, rt.alloc(), KILLS) {
        add(&rt, rt.alloc(), &mut statements, cut(row).1, 1);
    }
    let mut globals = Globals::new(rt.alloc());
    let said = run(&rt, rt.alloc(), &mut globals, &Job { statements });
    same(&rt, said.as_slice(), b"6 0 10 1 10");
}

/// A job that kills nodes and those below them again and again walks past what it killed, and to what it set there.
#[test]
fn walks_past_what_it_killed(rt: HostRuntime) {
    let mut globals = Globals::new(rt.alloc());
    run_rows(&rt, rt.alloc(), &mut globals, BEFORE);
    let job = job_of(&rt, rt.alloc(), BEHIND_KILLS, 1);
    let said = run(&rt, rt.alloc(), &mut globals, &job);
    same(&rt, said.as_slice(), b"7 0 3 0 \"\" 10 3 \"\" 0 0 2 1");
}

/// Makes the updates of a job all together.
fn run_together(rt: &impl Abort, alloc: Global, globals: &mut Globals, job: &Job) {
    match evaluated(rt, alloc, globals, job) {
        Evaluated::RolledBack(cause) => holds(rt, false, cause_name(cause)),
        Evaluated::Done { updates, .. } => {
            let updates = updates.as_slice();
            globals.apply_all(alloc, updates).expect(rt, "memory");
        }
    }
}

/// A transaction that kills a node again and again, with SETs between, leaves what was set behind the last KILL.
#[test]
fn kills_many_times_together(rt: HostRuntime) {
    let mut globals = Globals::new(rt.alloc());
    run_rows(&rt, rt.alloc(), &mut globals, BEFORE);
    let job = job_of(&rt, rt.alloc(), KILLS_AND_SETS, 20);
    run_together(&rt, rt.alloc(), &mut globals, &job);
    run_rows(&rt, rt.alloc(), &mut globals, BEHIND_ALL);
}

fn letter(n: u32) -> u8 {
    b'A' + (n % 20) as u8
}

/// A node for each number below 160,000.
fn numbered(rt: &impl Abort, alloc: Global, n: u32) -> Key {
    let name = [letter(n / 8000), letter(n / 400), letter(n / 20), letter(n)];
    Key::new(alloc, &name, &[]).expect(rt, "a key")
}

#[test]
fn is_full(rt: HostRuntime) {
    let mut globals = Globals::new(rt.alloc());
    for n in 0..100_000 {
        let key = numbered(&rt, rt.alloc(), n);
        let update = Update::Set(key, Bytes::new(rt.alloc()));
        globals.apply(&update).expect(&rt, "memory");
    }
    run_rows(&rt, rt.alloc(), &mut globals, FULL);
}
