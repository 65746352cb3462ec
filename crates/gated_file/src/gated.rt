//! A gated file that is open for calls.
ghost use Rattle.std.specs.Prelude.{◌≡◌, ◌≤◌, ◌<◌, ◌+◌, ◌*◌, ◌++◌, [], ◌∷◌, List, length, IsTrue, IfOk, OnOk, OnErr, IsErrOf, vec_capacity};
ghost use Rattle.global_defs.specs.declared.limits.TheConstants.{LONGEST_BODY};
ghost use Rattle.disk_defs.specs.Disk.{Image, AtEachMoment, HasCause};
ghost use Rattle.disk_defs.specs.Frames.{Only, OnlyOn, OthersStay};
ghost use Rattle.disk_defs.specs.Gates.{Body, framed, Stands};

use crate::error::GateError;
use gvn_key::NoMemory;
use repl_disk::Disk;
use std::alloc::Global;
use std::collections::VecDeque;

/// The greatest length of a body in bytes.
const LONGEST: u64 = global_defs::limits::LONGEST_BODY as u64;

/// At most so many bodies are reserved in one call.
const MOST_BODIES: u32 = 1 << 30;

/// No place past this one is used.
const FARTHEST: u64 = 1 << 59;

/// A gated file that is open for calls.
///
/// Its fields are there for contracts: `HasState` says what they have to do with the disk, and a field that was changed by hand
/// leaves nothing of it.
#[derive(Drop)]
pub struct Gated {
    pub alloc: Global,
    /// The file's number.
    pub file: u32,
    /// The place of the last closed gate, in bytes from the file's start.
    pub end: u64,
    /// The places of the other closed gates, in order.
    pub closed: VecDeque<u64>,
    /// What one append writes.
    pub buffer: Vec<u8>,
    /// How many bodies may be appended.
    pub bodies_left: u64,
    /// How many bytes these may have together.
    pub bytes_left: u64,
    /// How many calls of `sync` may be made.
    pub syncs_left: u64,
    /// Whether all that was appended is on the disk.
    pub synced: bool,
}

/// Length, body and a closed gate.
fn fill(buffer: &mut Vec<u8>, body: &[u8])
    requires short { length body.now ≤ LONGEST_BODY }
    requires room { length body.now + 5 ≤ vec_capacity buffer.old }
    ensures items { buffer.new.items ≡ framed body.now ++ 0 ∷ [] }
    ensures capacity { vec_capacity buffer.old ≤ vec_capacity buffer.new }
{
    buffer.clear();
    let head = (body.len() as u32).to_be_bytes();
    if buffer.extend_from_slice(&head).is_err() {
        unreachable!();
    }
    if buffer.extend_from_slice(body).is_err() {
        unreachable!();
    }
    if buffer.push(0).is_err() {
        unreachable!();
    }
}

impl Gated {
    ghost use Rattle.gated_file.specs.State.{State, appended, synced, opened_one, opened_all};
    ghost use Rattle.gated_file.specs.Gated.{IsReady, HasState, HasSameRoom};

    /// Makes room for so many more bodies of so many bytes, their gates and two syncs for each.
    pub fn reserve<D: Disk>(
        &mut self,
        disk: &mut D,
        bodies: u32,
        bytes: u64,
    ) -> Result<(), NoMemory>
        requires ready { IsReady (D.disk disk.old) self.old }
        ensures ready { IsReady (D.disk disk.new) self.new }
        ensures bodies { OnOk result (self.new.bodies_left ≡ self.old.bodies_left + bodies) }
        ensures bytes { OnOk result (self.new.bytes_left ≡ self.old.bytes_left + bytes) }
        ensures syncs { OnOk result (self.new.syncs_left ≡ self.old.syncs_left + 2 * bodies) }
        ensures err { OnErr result (HasSameRoom self.old self.new) }
        ensures state { (s : State) → HasState (D.disk disk.old) self.old s → HasState (D.disk disk.new) self.new s }
        ensures file { self.new.file ≡ self.old.file }
        ensures is_synced { self.new.synced ≡ self.old.synced }
        ensures frame { OthersStay (Only self.old.file) (D.disk disk.old) (D.disk disk.new) }
        ensures any_moment { AtEachMoment (D.disk disk.old) (D.disk disk.new) (Image (D.disk disk.old)) }
        ensures faults { (D.disk disk.new).faults ≡ (D.disk disk.old).faults }
    {
        let Some(bodies_left) = self.bodies_left.checked_add(bodies as u64) else {
            return Err(NoMemory);
        };
        let Some(bytes_left) = self.bytes_left.checked_add(bytes) else {
            return Err(NoMemory);
        };
        let Some(syncs_left) = self.syncs_left.checked_add(2 * bodies as u64) else {
            return Err(NoMemory);
        };
        if bodies >= MOST_BODIES
            || bodies_left >= FARTHEST
            || bytes_left >= FARTHEST
            || self.end >= FARTHEST
        {
            return Err(NoMemory);
        }
        self.buffer.clear();
        self.buffer.reserve(bytes_left.min(LONGEST) as usize + 5)?;
        self.closed.reserve(bodies_left as usize)?;
        let added = disk.room(self.file, 4 * bodies, bytes + 6 * bodies as u64);
        if added.is_err() {
            return Err(NoMemory);
        }
        self.bodies_left = bodies_left;
        self.bytes_left = bytes_left;
        self.syncs_left = syncs_left;
        Ok(())
    }

    /// Appends a body behind a closed gate, and answers where that gate stands.
    pub fn append_body<D: Disk>(&mut self, disk: &mut D, body: &[u8]) -> Result<u64, GateError>
        requires size { 1 ≤ length body.now }
        requires short { length body.now ≤ LONGEST_BODY }
        requires ready { IsReady (D.disk disk.old) self.old }
        requires room { 1 ≤ self.old.bodies_left }
        requires bytes { length body.now ≤ self.old.bytes_left }
        ensures ready { OnOk result (IsReady (D.disk disk.new) self.new) }
        ensures room { OnOk result (self.new.bodies_left + 1 ≡ self.old.bodies_left) }
        ensures bytes { OnOk result (self.new.bytes_left + length body.now ≡ self.old.bytes_left) }
        ensures syncs { OnOk result (self.new.syncs_left ≡ self.old.syncs_left) }
        ensures file { self.new.file ≡ self.old.file }
        ensures place { IfOk result (λ place. place ≡ self.old.end) }
        ensures appended { OnOk result ((s : State) → HasState (D.disk disk.old) self.old s → HasState (D.disk disk.new) self.new (appended s body.now)) }
        ensures any_moment { (s : State) → HasState (D.disk disk.old) self.old s → AtEachMoment (D.disk disk.old) (D.disk disk.new) (OnlyOn (D.disk disk.old) self.old.file (Stands s.hard s.opening)) }
        ensures frame { OthersStay (Only self.old.file) (D.disk disk.old) (D.disk disk.new) }
        ensures cause { HasCause (D.disk disk.old).faults (D.disk disk.new).faults result }
        ensures failed { OnErr result (IsErrOf result GateError.Failed) }
    {
        fill(&mut self.buffer, body);
        let place = self.end;
        disk.write_at(self.file, place + 1, &self.buffer)?;
        if self.closed.push_back(place).is_err() {
            unreachable!();
        }
        self.end = place + (body.len() as u64) + 5;
        self.bodies_left -= 1;
        self.bytes_left -= body.len() as u64;
        self.synced = false;
        Ok(place)
    }

    /// Puts all that was appended, and the gates that were opened, on the disk.
    pub fn sync<D: Disk>(&mut self, disk: &mut D) -> Result<(), GateError>
        requires ready { IsReady (D.disk disk.old) self.old }
        requires room { 1 ≤ self.old.syncs_left }
        ensures ready { OnOk result (IsReady (D.disk disk.new) self.new) }
        ensures room { OnOk result (self.new.bodies_left ≡ self.old.bodies_left) }
        ensures bytes { OnOk result (self.new.bytes_left ≡ self.old.bytes_left) }
        ensures syncs { OnOk result (self.new.syncs_left + 1 ≡ self.old.syncs_left) }
        ensures file { self.new.file ≡ self.old.file }
        ensures is_synced { OnOk result (IsTrue self.new.synced) }
        ensures synced { OnOk result ((s : State) → HasState (D.disk disk.old) self.old s → HasState (D.disk disk.new) self.new (synced s)) }
        ensures any_moment { (s : State) → HasState (D.disk disk.old) self.old s → AtEachMoment (D.disk disk.old) (D.disk disk.new) (OnlyOn (D.disk disk.old) self.old.file (Stands s.hard s.opening)) }
        ensures frame { OthersStay (Only self.old.file) (D.disk disk.old) (D.disk disk.new) }
        ensures cause { HasCause (D.disk disk.old).faults (D.disk disk.new).faults result }
        ensures failed { OnErr result (IsErrOf result GateError.Failed) }
    {
        disk.sync(self.file)?;
        self.syncs_left -= 1;
        self.synced = true;
        Ok(())
    }

    /// Opens the first closed gate.
    fn open_first<D: Disk>(&mut self, disk: &mut D) -> Result<(), GateError>
        requires ready { IsReady (D.disk disk.old) self.old }
        requires some { 0 < length self.old.closed.items }
        requires is_synced { IsTrue self.old.synced }
        ensures ready { OnOk result (IsReady (D.disk disk.new) self.new) }
        ensures room { OnOk result (self.new.bodies_left ≡ self.old.bodies_left) }
        ensures bytes { OnOk result (self.new.bytes_left ≡ self.old.bytes_left) }
        ensures syncs { OnOk result (self.new.syncs_left ≡ self.old.syncs_left) }
        ensures file { self.new.file ≡ self.old.file }
        ensures is_synced { IsTrue self.new.synced }
        ensures fewer { length self.new.closed.items + 1 ≡ length self.old.closed.items }
        ensures opened { OnOk result ((s : State) → HasState (D.disk disk.old) self.old s → (body : Body) × (bodies : List Body) × (s.closed ≡ body ∷ bodies) × HasState (D.disk disk.new) self.new (opened_one s body bodies)) }
        ensures any_moment { (s : State) → HasState (D.disk disk.old) self.old s → AtEachMoment (D.disk disk.old) (D.disk disk.new) (OnlyOn (D.disk disk.old) self.old.file (Stands s.hard (s.opening ++ s.closed))) }
        ensures frame { OthersStay (Only self.old.file) (D.disk disk.old) (D.disk disk.new) }
        ensures cause { HasCause (D.disk disk.old).faults (D.disk disk.new).faults result }
        ensures failed { OnErr result (IsErrOf result GateError.Failed) }
    {
        let Some(place) = self.closed.pop_front() else {
            unreachable!();
        };
        disk.write_at(self.file, place, &[1])?;
        Ok(())
    }

    /// Opens the gates of all that was appended.
    pub fn open_gates<D: Disk>(&mut self, disk: &mut D) -> Result<(), GateError>
        requires ready { IsReady (D.disk disk.old) self.old }
        requires is_synced { IsTrue self.old.synced }
        ensures ready { OnOk result (IsReady (D.disk disk.new) self.new) }
        ensures room { OnOk result (self.new.bodies_left ≡ self.old.bodies_left) }
        ensures bytes { OnOk result (self.new.bytes_left ≡ self.old.bytes_left) }
        ensures syncs { OnOk result (self.new.syncs_left ≡ self.old.syncs_left) }
        ensures file { self.new.file ≡ self.old.file }
        ensures is_synced { IsTrue self.new.synced }
        ensures opened { OnOk result ((s : State) → HasState (D.disk disk.old) self.old s → HasState (D.disk disk.new) self.new (opened_all s)) }
        ensures any_moment { (s : State) → HasState (D.disk disk.old) self.old s → AtEachMoment (D.disk disk.old) (D.disk disk.new) (OnlyOn (D.disk disk.old) self.old.file (Stands s.hard (s.opening ++ s.closed))) }
        ensures frame { OthersStay (Only self.old.file) (D.disk disk.old) (D.disk disk.new) }
        ensures cause { HasCause (D.disk disk.old).faults (D.disk disk.new).faults result }
        ensures failed { OnErr result (IsErrOf result GateError.Failed) }
    {
        while !self.closed.is_empty() {
            self.open_first(disk)?;
        }
        Ok(())
    }
}
