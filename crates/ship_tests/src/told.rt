// A session, and what is seen of it afterwards.
ghost use Rattle.std.specs.Prelude.{◌≡◌, ◌<◌, ◌≤◌, ◌^◌};
ghost use Rattle.global_defs.specs.declared.limits.TheConstants.{NUMBERS_END};
ghost use Rattle.ship_stands.specs.Sites.{IsFitSite};

use gvn_key::Bytes;
use repl_link::{Linker, MemLinker};
use session_turns::TurnError;
use ship_session::{SessionEnd, finish};
use ship_stands::{Primary, Record, Site, Stopped, Unread, history};
use std::alloc::Global;
use std::process::Abort;

/// Three reigns of one root.
pub const REIGNS: [Record; 3] = [(b'A', 1, 1), (b'A', 2, 2), (b'A', 3, 4)];

/// What a primary ships: how many entries, how many updates each has and how many bytes a value has.
#[derive(Clone, Copy, Debug, PartialEq, Eq)]
pub struct Ships {
    pub length: u64,
    pub updates: u16,
    pub value: u16,
}

/// Entries of one update each, whose value is one byte.
pub fn small(length: u64) -> Ships
    ensures { result.length ≡ length }
{
    Ships {
        length,
        updates: 1,
        value: 1,
    }
}

/// How a session ended, with the numbers in it.
#[derive(Clone, Copy, Debug, PartialEq, Eq)]
pub enum How {
    At(u64),
    LinkCut,
    RollbackFirst(u64),
    BadFrame(u64),
    Failed(Unread),
    Site(Stopped),
    NoMemory,
}

/// What is seen behind a session.
#[derive(Clone, Copy, Debug, PartialEq, Eq)]
pub struct Told {
    pub how: How,
    pub length: u64,
    pub hardened: u64,
    pub reigns: usize,
    pub applied: u64,
    pub sum: u64,
    pub cuts: u64,
}

fn made(ended: Result<SessionEnd<Unread>, TurnError<Stopped>>) -> How {
    match ended {
        Ok(SessionEnd::At(number)) => How::At(number),
        Ok(SessionEnd::LinkCut) => How::LinkCut,
        Ok(SessionEnd::RollbackFirst(number)) => How::RollbackFirst(number),
        Ok(SessionEnd::BadFrame { offset }) => How::BadFrame(offset),
        Ok(SessionEnd::Failed(error)) => How::Failed(error),
        Err(TurnError::Site(error)) => How::Site(error),
        Err(TurnError::NoMemory) => How::NoMemory,
    }
}

// Links whose next connections of session 0 are cut after so many bytes.
fn links(rt: &impl Abort, alloc: Global, cuts: &[u64]) -> MemLinker {
    let mut links = MemLinker::new(alloc);
    for bytes in cuts {
        links.cut_after(0, *bytes).expect(rt, "memory");
    }
    links
}

/// What a session is between, and what stops it.
#[derive(Clone, Copy, Debug, PartialEq, Eq)]
pub struct Plan<'a> {
    pub ships: Ships,
    // How many entries the secondary has, and its reigns.
    pub begun: u64,
    pub reigns: &'a [Record],
    // From which number on no entry can be read, and at which one the secondary stops, where these aren't 0.
    pub spoilt: u64,
    pub stop: u64,
}

// The secondary of a plan.
fn site(rt: &impl Abort, alloc: Global, plan: Plan<'_>) -> Site
    ensures { IsFitSite result }
{
    let mine = history(alloc, plan.begun, plan.reigns).expect(rt, "a history");
    let mut site = Site::new(mine).expect(rt, "a site");
    site.stop_at(plan.stop);
    site
}

// The primary of a plan.
fn primary(rt: &impl Abort, alloc: Global, plan: Plan<'_>) -> Primary
    ensures { result.count ≡ plan.entry.ships.length }
{
    let ships = plan.ships;
    let primary = Primary::new(alloc, ships.length, ships.updates, ships.value);
    let mut primary = primary.expect(rt, "a primary");
    primary.spoil(plan.spoilt);
    primary
}

/// A session from a primary with three reigns, over links whose connections are cut after so many bytes.
pub fn session(rt: &impl Abort, alloc: Global, plan: Plan<'_>, cuts: &[u64]) -> Told
    requires { plan.ships.length < NUMBERS_END }
{
    let theirs = history(alloc, plan.ships.length, &REIGNS).expect(rt, "a history");
    let mut primary = primary(rt, alloc, plan);
    let mut site = site(rt, alloc, plan);
    let mut links = links(rt, alloc, cuts);
    let name = Bytes::of(alloc, b"B").expect(rt, "memory");
    let ended = finish(
        alloc,
        &theirs,
        &name,
        &mut primary,
        &mut site,
        &mut links,
        0,
        0,
    );
    Told {
        how: made(ended),
        length: site.length(),
        hardened: site.hardened(),
        reigns: site.reigns(),
        applied: site.applied(),
        sum: site.sum(),
        cuts: links.cuts(0),
    }
}

// How many of the three reigns have begun by then.
fn begun_by(number: u64) -> usize
    ensures { result ≤ 3 }
{
    if number < 1 {
        0
    } else if number < 2 {
        1
    } else if number < 4 {
        2
    } else {
        3
    }
}

/// A session of a primary with three reigns, to a secondary that has the first so many of its entries.
pub fn shipped(rt: &impl Abort, alloc: Global, ships: Ships, begun: u64, cuts: &[u64]) -> Told
    requires { ships.length < NUMBERS_END }
{
    let plan = Plan {
        ships,
        begun,
        reigns: &REIGNS[..begun_by(begun)],
        spoilt: 0,
        stop: 0,
    };
    session(rt, alloc, plan, cuts)
}
