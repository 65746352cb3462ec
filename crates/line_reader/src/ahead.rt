//! Bytes that were read ahead.
ghost use Rattle.std.specs.Prelude.{◌≡◌, ◌≤◌, ◌<◌, ◌+◌, ◌==◌, ℕ, List, [], length, drop, position, IfOk, IfErr, IfSome, OnErr, MatchBool};
ghost use Rattle.std.specs.Io.KnownBytes.{Consumes, IsAtEnd};
ghost use Rattle.global_defs.specs.Counts.{HasCause};
ghost use Rattle.line_reader.specs.Lines.{IsPiece, EndsLine, LineCause, Moves, Takes, left_behind};

use crate::line::{LineEnd, LineError};
use global_defs::limits::LONGEST_LINE;
use repl_io::{Failed, Source};
use std::alloc::AllocError;
use std::marker::Model;

/// How many bytes a piece has at most.
const PIECE: usize = 4096;

/// How many bytes are taken of a line that is too long.
const TOO_LONG: usize = LONGEST_LINE + 1;

/// What was read of a source and not taken yet, and how many bytes more may be read.
#[derive(Debug, Drop)]
pub struct ReadAhead {
    bytes: [u8; 4096],
    from: usize,
    end: usize,
    room: u32,
}

impl Model for ReadAhead {
    ghost use Rattle.std.specs.Prelude.{◌≤◌, take, drop};
    ghost use Rattle.line_reader.specs.Ahead as defs;

    ghost Value = { defs.Ahead };

    ghost coded = { defs.ahead_code };

    ghost view = { λ a. record { bytes = drop a.from (take a.end a.bytes); room = a.room } };

    ghost invariant = { λ a. (a.from ≤ a.end) × (a.end ≤ 4096) };
}

impl ReadAhead {
    /// Nothing was read yet, and so many bytes may be.
    pub fn new(room: u32) -> Self
        ensures bytes { result.bytes ≡ [] }
        ensures room { result.room ≡ room }
    {
        ReadAhead {
            bytes: [0; PIECE],
            from: 0,
            end: 0,
            room,
        }
    }

    /// What was read and not taken.
    fn left(&self) -> &[u8]
        ensures { result.now ≡ self.now.bytes }
    {
        &self.bytes[self.from..self.end]
    }

    /// Takes so many of the bytes that were read.
    fn take(&mut self, count: usize)
        requires { count ≤ length self.old.bytes }
        ensures bytes { self.new.bytes ≡ drop count self.old.bytes }
        ensures room { self.new.room ≡ self.old.room }
    {
        self.from += count;
    }

    /// Reads the next piece, where all was taken, and answers whether there is one: not at the end of the input.
    fn refill<S: Source>(&mut self, script: &mut S) -> Result<bool, Failed>
        requires empty { self.old.bytes ≡ [] }
        requires room { 0 < self.old.room }
        ensures takes { Takes self.old self.new (S.left script.old) (S.left script.new) [] }
        ensures more { IfOk result (λ more. MatchBool more (0 < length self.new.bytes) ((self.new.bytes ≡ []) × IsAtEnd (S.left script.new))) }
        ensures failed { OnErr result (self.new.bytes ≡ []) }
        ensures cause { HasCause (S.faults script.old) (S.faults script.new) result }
    {
        let most = PIECE.min(self.room as usize);
        self.from = 0;
        self.end = 0;
        let count = script.read(&mut self.bytes[..most])?;
        self.end = count;
        self.room -= count as u32;
        Ok(count > 0)
    }

    /// Reads a piece unless there are bytes that weren't taken, and answers whether there are some now: not at the end of the input.
    fn fill<S: Source>(&mut self, script: &mut S) -> Result<bool, Failed>
        requires room { 0 < self.old.room + length self.old.bytes }
        ensures takes { Takes self.old self.new (S.left script.old) (S.left script.new) [] }
        ensures more { IfOk result (λ more. MatchBool more (0 < length self.new.bytes) ((self.new.bytes ≡ []) × IsAtEnd (S.left script.new))) }
        ensures failed { OnErr result (self.new.bytes ≡ []) }
        ensures cause { HasCause (S.faults script.old) (S.faults script.new) result }
    {
        if !self.left().is_empty() {
            return Ok(true);
        }
        self.refill(script)
    }

    /// Moves bytes that were read to the end of a line: those up to a line feed, which is taken too, or as many as there are and as the
    /// line may have. Whether a line feed came.
    fn move_piece(&mut self, line: &mut Vec<u8>) -> Result<bool, AllocError>
        requires some { 0 < length self.old.bytes }
        requires short { length line.old.items < 4097 }
        ensures moves { IfOk result (λ fed. Moves fed self.old.bytes self.new.bytes line.old.items line.new.items) }
        ensures within { IfOk result (λ fed. MatchBool fed (length line.new.items ≤ 4096) (length line.new.items ≤ 4097)) }
        ensures room { self.new.room ≡ self.old.room }
        ensures err { OnErr result ((self.new ≡ self.old) × (line.new.items ≡ line.old.items)) }
    {
        let left = self.left();
        let most = left.len().min(TOO_LONG - line.len());
        let piece = &left[..most];
        match feed_in(piece) {
            Some(i) => {
                line.extend_from_slice(&piece[..i])?;
                self.take(i + 1);
                Ok(true)
            }
            None => {
                line.extend_from_slice(piece)?;
                self.take(most);
                Ok(false)
            }
        }
    }

    /// Takes the next line, without its line feed, of at most 4,096 bytes; of a longer one 4,097. What was in the vector goes.
    ///
    /// # Errors
    /// `Failed` only where the source's count of faults rose; the line has then all bytes that were taken for it. `NoMemory`.
    pub fn read_line<S: Source>(
        &mut self,
        script: &mut S,
        line: &mut Vec<u8>,
    ) -> Result<LineEnd, LineError>
        requires room { 4097 ≤ self.old.room + length self.old.bytes }
        ensures piece { IfOk result (λ end. IsPiece line.new.items) }
        ensures end { IfOk result (λ end. EndsLine end line.new.items (left_behind self.old (S.left script.old)) (left_behind self.new (S.left script.new))) }
        ensures failed { IfErr result (λ e. e ≡ LineError.Failed → (self.new.bytes ≡ []) × IsPiece line.new.items × Consumes (left_behind self.old (S.left script.old)) (left_behind self.new (S.left script.new)) line.new.items) }
        ensures takes { (bytes : List ℕ) × Takes self.old self.new (S.left script.old) (S.left script.new) bytes × (length bytes ≤ 4097) }
        ensures cause { LineCause (S.faults script.old) (S.faults script.new) result }
    {
        line.clear();
        while line.len() < TOO_LONG {
            match self.fill(script) {
                Ok(true) => {}
                Ok(false) => {
                    return Ok(if line.is_empty() {
                        LineEnd::Nothing
                    } else {
                        LineEnd::Input
                    });
                }
                Err(_) => return Err(LineError::Failed),
            }
            match self.move_piece(line) {
                Ok(true) => return Ok(LineEnd::Feed),
                Ok(false) => {}
                Err(_) => return Err(LineError::NoMemory),
            }
        }
        Ok(LineEnd::TooLong)
    }

    /// Whether no byte is left. It takes none.
    pub fn is_at_end<S: Source>(&mut self, script: &mut S) -> Result<bool, Failed>
        requires room { 0 < self.old.room + length self.old.bytes }
        ensures end { IfOk result (λ end. MatchBool end (IsAtEnd (left_behind self.new (S.left script.new))) (0 < length self.new.bytes)) }
        ensures takes { Takes self.old self.new (S.left script.old) (S.left script.new) [] }
        ensures failed { OnErr result (self.new.bytes ≡ []) }
        ensures cause { HasCause (S.faults script.old) (S.faults script.new) result }
    {
        Ok(!self.fill(script)?)
    }
}

/// Where the first line feed stands.
fn feed_in(bytes: &[u8]) -> Option<usize>
    ensures place { result ≡ position (λ b. b == 10) bytes.now }
    ensures within { IfSome result (λ i. i < length bytes.now) }
{
    bytes.iter().position(|b| *b == b'\n')
}
