//! Scripts line by line.
ghost use Rattle.std.specs.Prelude.{◌≡◌, ◌+◌, ◌≤◌, ◌<◌, ◌↔◌, length, IfOk, IfErr, OnOk, OnErr, IfSome, IfNone};
ghost use Rattle.command_defs.specs.Commands.{Run, IsFormed, IsWhole};
ghost use Rattle.command_defs.specs.Sections.{Section};
ghost use Rattle.command_defs.specs.Script.{Outside, Within, Ends, outside_reading, reading_at, line_reading};
ghost use Rattle.repl_script.specs.Commands.{command_value};
ghost use Rattle.repl_script.specs.Feeds.{Moves, TellsBad, EndsAs, Feeds};

use super::command::Command;
use super::error::ScriptError;
use super::fault::Fault;
use super::orders::{read_command, read_run};
use super::parts::{cut_part, trimmed, without_spaces};
use super::section::Section;
use global_defs::limits::{LONGEST_LINE, MOST_LINES};
use gvn_key::Bytes;
use std::alloc::Global;
use std::marker::Model;

/// Takes the lines of a script one after another and gives its commands. It's seen as where the next line stands, between
/// commands or in a section, and how many lines it took.
#[derive(Drop)]
pub struct Script {
    alloc: Global,
    lines: u32,
    /// The section that isn't ended.
    section: Option<Section>,
}

impl Model for Script {
    ghost use Rattle.std.specs.Prelude.{◌≤◌};
    ghost use Rattle.global_defs.specs.declared.limits.TheConstants.{MOST_LINES};
    ghost use Rattle.repl_script.specs.Feeds as feeds;

    ghost Value = { feeds.Progress };

    ghost view = { λ s. record { position = feeds.position_of s.section; lines = s.lines } };

    ghost invariant = { λ s. s.lines ≤ MOST_LINES };
}

impl Script {
    /// A script of which no line was taken.
    pub fn new(alloc: Global) -> Self
        ensures { result ≡ record { position = Outside; lines = 0 } }
    {
        Script {
            alloc,
            lines: 0,
            section: None,
        }
    }

    /// Takes the next line, without its line feed, and gives the command that ends with it. An error takes no line.
    pub fn feed(&mut self, line: &[u8]) -> Result<Option<Command>, ScriptError>
        // No command: the line is ignored, or it begins or continues a section.
        ensures none { IfOk result (λ found. IfNone found (Moves self.old.position self.new.position (line_reading self.old.position line.now))) }
        // A command: it ends with this line.
        ensures some { IfOk result (λ found. IfSome found (λ command. (line_reading self.old.position line.now ≡ Ends (command_value command)) × (self.new.position ≡ Outside))) }
        ensures count { OnOk result (self.new.lines ≡ self.old.lines + 1) }

        // A bad line is told with its number and column.
        ensures bad { IfErr result (λ e. TellsBad e self.old line.now) }
        // Before all else it is tested that the lines aren't too many.
        ensures too_long { (result ≡ Err ScriptError.ScriptTooLong) ↔ (MOST_LINES ≤ self.old.lines) }
        ensures kept { OnErr result (self.new ≡ self.old) }

        // Names, numbers and the sizes of jobs are within their limits.
        ensures formed { IfOk result (λ found. IfSome found (λ command. IsFormed (command_value command))) }
        // A section's order uses up the jobs of each updater.
        ensures whole { IfOk result (λ found. IfSome found (λ command. IsWhole (command_value command))) }
    {
        if MOST_LINES <= self.lines {
            return Err(ScriptError::ScriptTooLong);
        }
        match self.take(line) {
            Ok(found) => {
                self.lines += 1;
                Ok(found)
            }
            Err(Fault::Bad { column }) => Err(ScriptError::BadLine {
                line: self.lines + 1,
                column,
            }),
            Err(Fault::NoMemory) => Err(ScriptError::NoMemory),
        }
    }

    /// Takes a line, and doesn't count it.
    fn take(&mut self, line: &[u8]) -> Result<Option<Command>, Fault>
        ensures fed { Feeds self.old.position self.new.position (line_reading self.old.position line.now) result }
        ensures lines { self.new.lines ≡ self.old.lines }
        ensures kept { OnErr result (self.new ≡ self.old) }
        ensures formed { IfOk result (λ found. IfSome found (λ command. IsFormed (command_value command) × IsWhole (command_value command))) }
    {
        if LONGEST_LINE < line.len() {
            return Err(Fault::Bad {
                column: LONGEST_LINE as u32 + 1,
            });
        }
        let text = trimmed(line);
        let len = text.len() as u16;
        match without_spaces(text) {
            [] | [b';', ..] => Ok(None),
            left => self.take_text(len, left),
        }
    }

    /// Takes what isn't ignored of a line.
    fn take_text(&mut self, len: u16, left: &[u8]) -> Result<Option<Command>, Fault>
        ensures fed { Feeds self.old.position self.new.position (reading_at self.old.position len left.now) result }
        ensures lines { self.new.lines ≡ self.old.lines }
        ensures kept { OnErr result (self.new ≡ self.old) }
        ensures formed { IfOk result (λ found. IfSome found (λ command. IsFormed (command_value command) × IsWhole (command_value command))) }
    {
        let Some(section) = &mut self.section else {
            return self.outside(len, left);
        };
        match section.feed(self.alloc, len, left) {
            Ok(false) => Ok(None),
            Ok(true) => Ok(Some(self.finish())),
            Err(fault) => Err(fault),
        }
    }

    /// A line between commands.
    fn outside(&mut self, len: u16, left: &[u8]) -> Result<Option<Command>, Fault>
        requires { self.old.position ≡ Outside }
        ensures fed { Feeds Outside self.new.position (outside_reading len left.now) result }
        ensures lines { self.new.lines ≡ self.old.lines }
        ensures kept { OnErr result (self.new ≡ self.old) }
        ensures formed { IfOk result (λ found. IfSome found (λ command. IsFormed (command_value command) × IsWhole (command_value command))) }
    {
        let first = cut_part(left);
        if first.part == b"RUN".as_slice() {
            let site = Bytes::of(self.alloc, read_run(len, first.behind)?)?;
            self.section = Some(Section::begin(self.alloc, site));
            return Ok(None);
        }
        let command = read_command(self.alloc, first.part, len, left, first.behind)?;
        Ok(Some(command))
    }

    /// The command of the section that isn't ended, which goes.
    fn finish(&mut self) -> Command
        requires { (s : Section) × (self.old.position ≡ Within s) }
        ensures command { (s : Section) → self.old.position ≡ Within s → command_value result ≡ Run s.name s.jobs s.order }
        ensures position { self.new.position ≡ Outside }
        ensures lines { self.new.lines ≡ self.old.lines }
        ensures formed { IsFormed (command_value result) × IsWhole (command_value result) }
    {
        let Some(section) = self.section.take() else {
            unreachable!();
        };
        section.finish()
    }

    /// Whether the lines may end here: a section that lacks its END makes the line after the last bad.
    pub fn end(&self) -> Result<(), ScriptError>
        ensures { EndsAs self.now.position self.now.lines tt result }
    {
        match self.section {
            None => Ok(()),
            Some(_) => Err(ScriptError::BadLine {
                line: self.lines + 1,
                column: 1,
            }),
        }
    }
}
