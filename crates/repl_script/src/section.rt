// Sections that aren't ended.
ghost use Rattle.std.specs.Prelude.{◌≡◌, ◌+◌, ◌-◌, ◌&&◌, ◌<◌, ◌≤◌, ◌∷◌, ◌++◌, [], true, false, length, map, take, drop, get_or, set, replicate, count_by, nat_le, codes, IfOk, OnOk, OnErr};
ghost use Rattle.std.specs.List.{list_any};
ghost use Rattle.global_defs.specs.declared.limits.TheConstants.{MOST_UPDATERS};
ghost use Rattle.gvn_key.specs.Terms.{statement_value};
ghost use Rattle.gvn_model.specs.Jobs.{job_value};
ghost use Rattle.gvn_text.specs.Reads as texts;
ghost use Rattle.script_defs.specs.Parts.{word_end, without_spaces};
ghost use Rattle.command_defs.specs.Parts.{column, is_name};
ghost use Rattle.command_defs.specs.Commands.{Run, IsFormed, IsWhole};
ghost use Rattle.command_defs.specs.Sections.{begun, is_open, jobs_of, last_job, is_update_word, is_full_job, is_full, transaction_begun, transaction_ended, with_statement};
ghost use Rattle.command_defs.specs.Updaters.{is_update, is_of_size, is_updater};
ghost use Rattle.command_defs.specs.Script.{section_reading, job_by, stated, end_reading};
ghost use Rattle.repl_script.specs.Commands.{command_value};
ghost use Rattle.repl_script.specs.Entries.{ReadsEntry, IsAllowed, FeedsSection, located};
ghost use Rattle.repl_script.specs.Places.{at_all};
ghost use Rattle.repl_script.specs.Reads.{fault_value};

use super::command::Command;
use super::fault::{Fault, bad, column};
use super::parts::{cut_part, ended, number};
use super::places::{last_of, no_jobs, put_job, put_statement};
use global_defs::limits::MOST_STATEMENTS;
use gvn_key::terms::Statement;
use gvn_key::{Bytes, NoMemory};
use gvn_model::{Job, Jobs, Statements};
use gvn_text::{TextError, read_located};
use std::alloc::Global;
use std::marker::Model;

/// How many updaters there are.
const UPDATERS: u64 = global_defs::limits::MOST_UPDATERS as u64;

/// How many of them may be updates.
const MOST_UPDATES: usize = global_defs::limits::MOST_UPDATES as usize;

/// What a good line of a section is.
#[derive(Drop)]
pub enum Entry {
    /// This updater's TSTART.
    Begin(u8),
    /// This updater's TCOMMIT.
    Commit(u8),
    /// A statement of this updater.
    Statement(u8, Statement),
    /// END.
    End,
}

/// The jobs of 64 updaters so far, and who has an open transaction.
#[derive(Drop)]
pub struct Section {
    site: Bytes,
    /// The last job of an updater whose transaction is open isn't whole. The last updaters that have no job are left out.
    jobs: Jobs,
    /// The updaters in the order of their jobs' first lines.
    order: Bytes,
    opened: [bool; 64],
}

impl Model for Section {
    ghost use Rattle.command_defs.specs.Sections as defs;
    ghost use Rattle.repl_script.specs.Places.{at_all};

    ghost Value = { defs.Section };

    ghost view = { λ s. record { name = s.site; jobs = at_all s.jobs; order = s.order; opened = s.opened } };

    ghost invariant = { λ s. defs.IsSound (record { name = s.site; jobs = at_all s.jobs; order = s.order; opened = s.opened }) };
}

/// No updater has an open transaction.
fn nobody() -> [bool; 64]
    ensures { result ≡ replicate 64 false }
{
    [false; 64]
}

/// Whether anybody has an open transaction. It looks at all of them, with no branch on what it finds.
#[tactic(auto, using(std::proofs::lemmas::List::Folds::list_any_more))]
fn is_any_open(opened: &[bool; 64]) -> bool
    ensures { result ≡ list_any (λ b. b) opened.now }
{
    let mut any = false;
    for open in opened {
        any |= *open;
    }
    any
}

/// Adds a job behind the others of an updater, and the updater to the order.
fn add_job(jobs: &mut Jobs, order: &mut Bytes, updater: u8, job: Job) -> Result<(), NoMemory>
    requires { (0 < updater) × (updater ≤ MOST_UPDATERS) }
    ensures jobs { OnOk result (at_all jobs.new ≡ set (at_all jobs.old) (updater - 1) (get_or (at_all jobs.old) (updater - 1) [] ++ job_value job ∷ [])) }
    ensures order { OnOk result (order.new ≡ order.old ++ updater ∷ []) }
    ensures jobs_kept { OnErr result (at_all jobs.new ≡ at_all jobs.old) }
    ensures order_kept { OnErr result (order.new ≡ order.old) }
{
    let before = order.len();
    order.push(updater)?;
    if put_job(order.allocator(), jobs, updater, job).is_err() {
        order.truncate(before);
        return Err(NoMemory);
    }
    Ok(())
}

/// A job of one statement.
fn job_of(alloc: Global, statement: Statement) -> Result<Job, NoMemory>
    ensures { IfOk result (λ job. job_value job ≡ statement_value statement ∷ []) }
{
    let mut statements = Statements::with_capacity(alloc, 1)?;
    statements.push(statement)?;
    Ok(Job { statements })
}

fn is_update(statement: &Statement) -> bool
    ensures { result ≡ is_update (statement_value statement.now) }
{
    matches!(
        statement,
        Statement::Set(..) | Statement::Kill(_) | Statement::ZKill(_) | Statement::Incr(..)
    )
}

/// How many of these statements are updates.
fn count_updates(statements: &[Statement]) -> usize
    ensures { result ≡ count_by is_update (map statement_value statements.now) }
{
    statements.iter().filter(|s| is_update(s)).count()
}

fn is_update_word(word: &[u8]) -> bool
    ensures { result ≡ is_update_word word.now }
{
    word == b"SET".as_slice()
        || word == b"KILL".as_slice()
        || word == b"ZKILL".as_slice()
        || word == b"INCR".as_slice()
}

/// Whether a transaction takes no update more. Only one of so many statements is looked through.
fn has_most_updates(statements: &[Statement]) -> bool
    ensures { result ≡ nat_le 256 (count_by is_update (map statement_value statements.now)) }
{
    MOST_UPDATES <= statements.len() && MOST_UPDATES <= count_updates(statements)
}

/// Whether a transaction takes no statement of that word.
fn is_full_job(job: &Statements, word: &[u8]) -> bool
    ensures { result ≡ is_full_job job.now word.now }
{
    MOST_STATEMENTS <= job.len() || (is_update_word(word) && has_most_updates(job.as_slice()))
}

/// A statement's fault, by the place of its part in the line.
fn located(len: u16, left: &[u8], fault: gvn_text::Fault) -> Fault
    ensures { fault_value result ≡ located (column len left.now) (texts.fault_value fault) }
{
    match fault.error {
        TextError::NoMemory => Fault::NoMemory,
        TextError::BadQuote { .. } | TextError::BadChar { .. } | TextError::ValueTooLong { .. } => {
            Fault::Bad {
                column: column(len, left).saturating_add(fault.part),
            }
        }
    }
}

impl Section {
    /// A section of a site without lines. It takes no memory yet.
    pub fn begin(alloc: Global, site: Bytes) -> Self
        requires { is_name site ≡ true }
        ensures { result ≡ begun site }
    {
        Section {
            site,
            jobs: no_jobs(alloc),
            order: Bytes::new(alloc),
            opened: nobody(),
        }
    }

    /// Whether an updater has an open transaction.
    fn is_open(&self, updater: u8) -> bool
        requires { is_updater updater ≡ true }
        ensures { result ≡ is_open self.now updater }
    {
        self.opened[usize::from(updater - 1)]
    }

    /// Whether an updater has an open transaction that takes no statement of that word.
    fn is_full(&self, updater: u8, word: &[u8]) -> bool
        requires { is_updater updater ≡ true }
        ensures full { result ≡ is_full self.now updater word.now }
        ensures sized { is_open self.now updater ≡ true → is_of_size (last_job (jobs_of self.now updater)) ≡ true }
    {
        if !self.is_open(updater) {
            return false;
        }
        is_full_job(&last_of(&self.jobs, updater).statements, word)
    }

    /// What a line of the section is. `left` is the line without spaces at its front.
    fn read(&self, alloc: Global, len: u16, left: &[u8]) -> Result<Entry, Fault>
        ensures reading { ReadsEntry self.now (section_reading self.now len left.now) result }
        ensures allowed { IfOk result (IsAllowed self.now) }
    {
        let first = cut_part(left);
        if first.part == b"END".as_slice() {
            return self.read_end(len, first.behind);
        }
        let (updater, behind) = number(1, UPDATERS, len, left)?;
        self.read_job(alloc, updater as u8, len, behind)
    }

    fn read_end(&self, len: u16, behind: &[u8]) -> Result<Entry, Fault>
        ensures { ReadsEntry self.now (end_reading self.now len behind.now) result }
    {
        if is_any_open(&self.opened) {
            return Err(Fault::Bad { column: 1 });
        }
        ended(len, behind)?;
        Ok(Entry::End)
    }

    /// What stands behind an updater's number.
    fn read_job(&self, alloc: Global, updater: u8, len: u16, left: &[u8]) -> Result<Entry, Fault>
        requires { is_updater updater ≡ true }
        ensures reading { ReadsEntry self.now (job_by self.now updater (take (word_end left.now) left.now) len left.now (without_spaces (drop (word_end left.now) left.now))) result }
        ensures allowed { IfOk result (IsAllowed self.now) }
    {
        let cut = cut_part(left);
        if cut.part == b"TSTART".as_slice() {
            if self.is_open(updater) {
                return Err(bad(len, left));
            }
            ended(len, cut.behind)?;
            return Ok(Entry::Begin(updater));
        }
        if cut.part == b"TCOMMIT".as_slice() {
            if !self.is_open(updater) {
                return Err(bad(len, left));
            }
            ended(len, cut.behind)?;
            return Ok(Entry::Commit(updater));
        }
        if self.is_full(updater, cut.part) {
            return Err(bad(len, left));
        }
        match read_located(alloc, left) {
            Ok(statement) => Ok(Entry::Statement(updater, statement)),
            Err(fault) => Err(located(len, left, fault)),
        }
    }

    fn begin_transaction(&mut self, alloc: Global, updater: u8) -> Result<(), NoMemory>
        requires { is_updater updater ≡ true }
        ensures ok { OnOk result (self.new ≡ transaction_begun self.old updater) }
        ensures err { OnErr result (self.new ≡ self.old) }
    {
        let job = Job {
            statements: Statements::new(alloc),
        };
        add_job(&mut self.jobs, &mut self.order, updater, job)?;
        self.opened[usize::from(updater - 1)] = true;
        Ok(())
    }

    fn end_transaction(&mut self, updater: u8)
        requires { is_updater updater ≡ true }
        ensures { self.new ≡ transaction_ended self.old updater }
    {
        self.opened[usize::from(updater - 1)] = false;
    }

    fn add_statement(
        &mut self,
        alloc: Global,
        updater: u8,
        statement: Statement,
    ) -> Result<(), NoMemory>
        requires allowed { IsAllowed self.old (Entry.Statement updater statement) }
        ensures ok { OnOk result (self.new ≡ with_statement self.old updater (statement_value statement)) }
        ensures err { OnErr result (self.new ≡ self.old) }
    {
        if self.is_open(updater) {
            return put_statement(&mut self.jobs, updater, statement);
        }
        let job = job_of(alloc, statement)?;
        add_job(&mut self.jobs, &mut self.order, updater, job)
    }

    /// Takes a line of the section. Answers whether the line ends it.
    pub fn feed(&mut self, alloc: Global, len: u16, left: &[u8]) -> Result<bool, Fault>
        ensures { FeedsSection self.old self.new (section_reading self.old len left.now) result }
    {
        match self.read(alloc, len, left)? {
            Entry::Begin(updater) => self.begin_transaction(alloc, updater)?,
            Entry::Commit(updater) => self.end_transaction(updater),
            Entry::Statement(updater, statement) => {
                self.add_statement(alloc, updater, statement)?;
            }
            Entry::End => return Ok(true),
        }
        Ok(false)
    }

    /// The command of the section.
    pub fn finish(self) -> Command
        ensures command { command_value result ≡ Run self.name self.jobs self.order }
        ensures formed { IsFormed (command_value result) × IsWhole (command_value result) }
    {
        let Section {
            site,
            jobs,
            order,
            opened: _,
        } = self;
        Command::Run { site, jobs, order }
    }
}
