//! How far an extract has been read.
ghost use Rattle.std.specs.Prelude.{◌≡◌, ◌<◌, ◌^◌, IfOk};
ghost use Rattle.std.specs.Option.{option_map};
ghost use Rattle.gvn_key.specs.Terms.{update_value};
ghost use Rattle.gvn_model.specs.Numbered.{numbered};
ghost use Rattle.jnl_extract.specs.Lines.{follows, HasNumber, next_stage, begun, gone_on, made_entry};
ghost use Rattle.jnl_extract.specs.Values.{head_value, line_value, stage_value};

use super::fields::{Head, same_head};
use super::lines::Line;
use global_defs::limits::NUMBERS_END;
use gvn_key::NoMemory;
use gvn_key::terms::Update;
use gvn_model::{Entries, Entry, Transaction, Updates};
use std::alloc::Global;

/// How many updates an entry may have.
const MOST_UPDATES: usize = global_defs::limits::MOST_UPDATES as usize;

/// The entries that were read, and the one whose last line is still to come.
#[derive(Debug, Drop)]
pub(crate) struct Stage {
    /// The number of the next entry, or of the one that is being read.
    pub next: u64,
    /// The entries that are whole.
    pub entries: Entries,
    /// An entry behind its first line, with its updates so far.
    pub pending: Option<Entry>,
}

/// Whether a line of these fields begins the next entry.
fn follows(next: u64, head: &Head) -> bool
    ensures { result ≡ follows next (head_value head.now) }
{
    head.number == next && next < NUMBERS_END
}

/// The entry of these fields and updates.
fn made_entry(head: Head, updates: Updates) -> Entry
    ensures { numbered result ≡ made_entry (head_value head) updates }
{
    Entry {
        number: head.number,
        stamp: head.stamp,
        transaction: Transaction {
            origin: head.origin,
            updates,
        },
    }
}

/// Behind whole entries stands an update alone, or the first line of more.
fn begun(
    alloc: Global,
    next: u64,
    mut entries: Entries,
    line: Line,
) -> Result<Option<Stage>, NoMemory>
    ensures { IfOk result (λ stage. option_map stage_value stage ≡ begun next entries (line_value line)) }
{
    match line {
        Line::Closes(_) => Ok(None),
        Line::Opens(head) => {
            if !follows(next, &head) {
                return Ok(None);
            }
            let pending = Some(made_entry(head, Updates::new(alloc)));
            Ok(Some(Stage {
                next,
                entries,
                pending,
            }))
        }
        Line::Holds(head, update) => {
            if !follows(next, &head) {
                return Ok(None);
            }
            let mut updates = Updates::new(alloc);
            updates.push(update)?;
            entries.push(made_entry(head, updates))?;
            Ok(Some(Stage {
                next: next + 1,
                entries,
                pending: None,
            }))
        }
    }
}

/// Behind an entry's first line stand its updates, and its last line behind two or more.
fn gone_on(
    next: u64,
    mut entries: Entries,
    mut entry: Entry,
    line: Line,
) -> Result<Option<Stage>, NoMemory>
    requires { next < NUMBERS_END }
    ensures { IfOk result (λ stage. option_map stage_value stage ≡ gone_on next entries (numbered entry) (line_value line)) }
{
    match line {
        Line::Opens(_) => Ok(None),
        Line::Holds(head, update) => {
            if !same_head(&entry, &head) || MOST_UPDATES <= entry.transaction.updates.len() {
                return Ok(None);
            }
            entry.transaction.updates.push(update)?;
            Ok(Some(Stage {
                next,
                entries,
                pending: Some(entry),
            }))
        }
        Line::Closes(head) => {
            if !same_head(&entry, &head) || entry.transaction.updates.len() < 2 {
                return Ok(None);
            }
            entries.push(entry)?;
            Ok(Some(Stage {
                next: next + 1,
                entries,
                pending: None,
            }))
        }
    }
}

/// What a line leads to: nothing where no extract goes on with it.
pub(crate) fn next_stage(alloc: Global, stage: Stage, line: Line) -> Result<Option<Stage>, NoMemory>
    requires { HasNumber (stage_value stage) }
    ensures { IfOk result (λ next. option_map stage_value next ≡ next_stage (stage_value stage) (line_value line)) }
{
    let Stage {
        next,
        entries,
        pending,
    } = stage;
    match pending {
        None => begun(alloc, next, entries, line),
        Some(entry) => gone_on(next, entries, entry, line),
    }
}
