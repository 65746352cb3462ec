//! Extracts read.
ghost use Rattle.std.specs.Prelude.{◌≡◌, ◌≤◌, ◌-◌, ℕ, List, length, IfOk, IfErr, MatchOption};
ghost use Rattle.jnl_extract.specs.Extracts.{IsExtract, IsExtractOf, IsBadLine, extract_text};
ghost use Rattle.jnl_extract.specs.Lines.{HasNumber, Refuses, Takes, Begins};
ghost use Rattle.jnl_extract.specs.Values.{stage_value, Gives, TellsAt, TellsBadLine};
ghost use Rattle.global_defs.specs.Entry.{Sequence};

use super::cut::cut;
use super::lines::{read_header, read_line};
use super::stage::{Stage, next_stage};
use gvn_key::{Bytes, NoMemory};
use gvn_model::Entries;
use std::alloc::Global;
use thiserror::Error;

/// Entries of a site in order, as its extract has them.
#[derive(Debug, Drop)]
pub struct Extract {
    /// The name of the site.
    pub site: Bytes,
    /// The number that the extract begins with, from 1 to 2 ^ 40.
    pub from: u64,
    /// The entries from that number on.
    pub entries: Entries,
}

/// Why a text isn't read.
#[derive(Clone, Copy, Debug, PartialEq, Eq, Error)]
pub enum ExtractError {
    /// No extract goes on with the line that begins at this byte, counted from 0.
    #[error("no extract goes on with the line at byte {offset}")]
    BadLine {
        /// Where the line begins: at the text's end where a line is missing there.
        offset: u64,
    },
    /// There was no memory.
    #[error("out of memory")]
    NoMemory,
}

impl From<NoMemory> for ExtractError {
    ghost use Rattle.std.specs.Prelude.{◌≡◌};
    ghost use Rattle.jnl_extract.specs.declared.reading.ExtractError.TheVariants as errors;

    ghost from_gives = { λ _ e. e ≡ errors.NoMemory };

    fn from(_: NoMemory) -> Self {
        ExtractError::NoMemory
    }
}

/// The line at the front of what is left of a text is bad.
fn bad_line(text: &[u8], left: &[u8]) -> ExtractError
    requires { length left.now ≤ length text.now }
    ensures { result ≡ ExtractError.BadLine (length text.now - length left.now) }
{
    ExtractError::BadLine {
        offset: (text.len() - left.len()) as u64,
    }
}

/// What the line at the front leads to, and what is left behind it.
fn step(alloc: Global, stage: Stage, left: &[u8]) -> Result<Option<(Stage, &[u8])>, NoMemory>
    requires { HasNumber (stage_value stage) }
    ensures { IfOk result (λ found. MatchOption found (Refuses (stage_value stage) left.now)
        (λ p. Takes (stage_value stage) left.now (stage_value p.0) p.1.now)) }
{
    match cut(left, b'\n') {
        None => Ok(None),
        Some((line, rest)) => match read_line(alloc, line)? {
            None => Ok(None),
            Some(line) => match next_stage(alloc, stage, line)? {
                None => Ok(None),
                Some(next) => Ok(Some((next, rest))),
            },
        },
    }
}

/// The extract of a text, by its header and what stands behind it.
fn read_entries(
    alloc: Global,
    text: &[u8],
    rest: &[u8],
    site: Bytes,
    from: u64,
) -> Result<Extract, ExtractError>
    requires { Begins text.now site from rest.now }
    ensures read { IfOk result (λ x. IsExtractOf text.now x.site x.from x.entries) }
    ensures bad { IfErr result (λ e. TellsBadLine text.now e) }
{
    let mut stage = Stage {
        next: from,
        entries: Entries::new(alloc),
        pending: None,
    };
    let mut left = rest;
    while !left.is_empty() {
        match step(alloc, stage, left)? {
            None => return Err(bad_line(text, left)),
            Some((next, rest)) => {
                stage = next;
                left = rest;
            }
        }
    }
    match stage.pending {
        None => Ok(Extract {
            site,
            from,
            entries: stage.entries,
        }),
        Some(_) => Err(bad_line(text, left)),
    }
}

/// The extract that a text is, or its first line that no extract goes on with.
pub fn read_extract(alloc: Global, text: &[u8]) -> Result<Extract, ExtractError>
    // What is read is what the text is the extract of.
    ensures read { IfOk result (λ x. IsExtractOf text.now x.site x.from x.entries) }
    // A bad line is the first that no extract goes on with.
    ensures bad { IfErr result (λ e. TellsBadLine text.now e) }
    // What is an extract is read to what it is of.
    ensures only { (site : List ℕ) (from : ℕ) (entries : Sequence) → IsExtract site from entries → text.now ≡ extract_text site from entries → Gives site from entries result }
    // A first bad line is told.
    ensures exact { (offset : ℕ) → IsBadLine text.now offset → TellsAt offset result }
{
    match cut(text, b'\n') {
        None => Err(ExtractError::BadLine { offset: 0 }),
        Some((line, rest)) => match read_header(alloc, line)? {
            None => Err(ExtractError::BadLine { offset: 0 }),
            Some((site, from)) => read_entries(alloc, text, rest, site, from),
        },
    }
}
