//! How far a region's journals are read.
ghost use Rattle.std.specs.Prelude.{◌≡◌, ◌≢◌, ◌≤◌, ◌<◌, ℕ, List, [], IfOk, IfSome, OnOk, IsErrOf, Some};
ghost use Rattle.global_defs.specs.declared.limits.TheConstants.{MOST_GENERATIONS, MOST_REGIONS};
ghost use Rattle.disk_defs.specs.Disk.{Files, Reads, MayFailUncounted};
ghost use Rattle.journal_defs.specs.Numbers.{journal_file};
ghost use Rattle.journal_defs.specs.Sequence.{Placed};
ghost use Rattle.entry_index.specs.Pieces.{IsPieceOf, FindsSign};
ghost use Rattle.entry_index.specs.Cursors.{IsSound, IsAt, IsNextRecord, IsSameRegion, IsReady, Stepped, left, placed_by};
ghost use Rattle.entry_index.specs.Telling.{TellsSign};

use crate::error::IndexError;
use crate::generations::{find_sign, may_join};
use crate::parts::part_sign;
use crate::pieces::Pieces;
use crate::place::PartPlace;
use crate::placed::PlacedSign;
use crate::sign::Sign;
use crate::signed_part::PartSign;
use jnl_file::{JournalError, journal_file};
use repl_disk::Disk;
use std::alloc::Global;

/// A region's journals on the way through them, from generation to generation.
#[derive(Drop)]
pub struct Reader {
    /// The region, below 8.
    pub region: u8,
    /// The last generation that is read.
    pub last: u32,
    /// The generation of the journal at hand; past the last one when all are read.
    pub generation: u32,
    /// The last generation before that one that began, or 0.
    pub previous: u32,
    /// The last one that began, that one among them, or 0.
    pub began: u32,
    /// Where the next record's gate stands in the journal at hand, in bytes from its start.
    pub at: u64,
    /// The journal at hand.
    pub pieces: Pieces,
}

/// What stood at a reader's place.
#[derive(Clone, Copy, Debug)]
pub enum Step {
    /// A record, with its sign. The reader has passed it.
    Read(PlacedSign),
    /// The end of the journal at hand. The reader has gone on to the next one.
    Turned,
    /// No record that can stand there.
    NoRecord,
}

/// The journal in this file, of which nothing is read yet.
fn begin<D: Disk>(alloc: Global, disk: &mut D, file: u32) -> Result<Pieces, IndexError>
    ensures told { IfOk result (λ made. IfSome (D.disk disk.new).content (IsPieceOf made)) }
    ensures file { IfOk result (λ made. made.file ≡ file) }
    ensures never { (file offset : ℕ) → IsErrOf result (IndexError.NotAFile file offset) → ⊥ }
    ensures reads { Reads (D.disk disk.old) (D.disk disk.new) }
    ensures faults { MayFailUncounted (D.disk disk.old).faults (D.disk disk.new).faults (IsErrOf result IndexError.Failed) }
{
    match Pieces::of(alloc, disk, file) {
        Ok(pieces) => Ok(pieces),
        Err(JournalError::NoMemory) => Err(IndexError::NoMemory),
        Err(JournalError::Failed | JournalError::NotARecord { .. }) => Err(IndexError::Failed),
    }
}

/// The part whose record's body these bytes are, with its place.
#[inline(always)]
fn placed_part(body: &[u8], place: PartPlace) -> Option<PartSign>
    ensures { IfSome result (λ part. (part.place ≡ place) × TellsSign body.now (Some (placed_by part).sign)) }
{
    let [5, rest @ ..] = body else {
        return None;
    };
    match part_sign(rest) {
        Some(
            Sign::Tcom {
                number,
                mask,
                origin,
                count,
                span,
            },
        ) => Some(PartSign {
            number,
            mask,
            origin,
            count,
            span,
            place,
        }),
        _ => None,
    }
}

impl Reader {
    /// A region's journals up to a generation, of which nothing is read yet.
    pub fn of<D: Disk>(
        alloc: Global,
        disk: &mut D,
        region: u8,
        last: u32,
    ) -> Result<Reader, IndexError>
        requires region { region < MOST_REGIONS }
        requires last { last ≤ MOST_GENERATIONS }
        ensures ready { IfOk result (IsReady (D.disk disk.new).content region last) }
        ensures begun { IfOk result (λ made. IfSome (D.disk disk.old).content (λ files. IsAt files made [])) }
        ensures never { (file offset : ℕ) → IsErrOf result (IndexError.NotAFile file offset) → ⊥ }
        ensures reads { Reads (D.disk disk.old) (D.disk disk.new) }
        ensures faults { MayFailUncounted (D.disk disk.old).faults (D.disk disk.new).faults (IsErrOf result IndexError.Failed) }
    {
        let pieces = begin(alloc, disk, journal_file(region, 1))?;
        Ok(Reader {
            region,
            last,
            generation: 1,
            previous: 0,
            began: 0,
            at: 0,
            pieces,
        })
    }

    /// Goes on to the journal of the next generation.
    fn turn<D: Disk>(&mut self, alloc: Global, disk: &mut D) -> Result<(), IndexError>
        requires sound { IsSound self.old }
        requires inside { self.old.generation ≤ self.old.last }
        requires told { IfSome (D.disk disk.old).content (IsPieceOf self.old.pieces) }
        ensures turned { (files : Files) (journal : List Placed) → OnOk result (IsAt files self.old journal → FindsSign (files self.old.pieces.file) self.old.at None → IsAt files self.new journal) }
        ensures sound { OnOk result (IsSound self.new) }
        ensures same { IsSameRegion self.old self.new }
        ensures further { OnOk result (left self.new < left self.old) }
        ensures told { OnOk result (IfSome (D.disk disk.new).content (IsPieceOf self.new.pieces)) }
        ensures never { (file offset : ℕ) → IsErrOf result (IndexError.NotAFile file offset) → ⊥ }
        ensures reads { Reads (D.disk disk.old) (D.disk disk.new) }
        ensures faults { MayFailUncounted (D.disk disk.old).faults (D.disk disk.new).faults (IsErrOf result IndexError.Failed) }
    {
        self.generation += 1;
        self.previous = self.began;
        self.at = 0;
        if self.generation <= self.last {
            self.pieces = begin(alloc, disk, journal_file(self.region, self.generation))?;
        }
        Ok(())
    }

    /// Passes a record with this sign, with the next gate at this place, where it can stand here.
    fn pass(&mut self, sign: Sign, next: u64) -> Step
        requires sound { IsSound self.old }
        requires inside { self.old.generation ≤ self.old.last }
        requires further { self.old.at < next }
        ensures stepped { (files : Files) (journal : List Placed) → IsAt files self.old journal → FindsSign (files self.old.pieces.file) self.old.at (Some (sign, next)) → Stepped files self.old.region self.new journal result }
        ensures sound { IsSound self.new }
        ensures same { IsSameRegion self.old self.new }
        ensures further { result ≢ Step.NoRecord → left self.new < left self.old }
        ensures pieces { self.new.pieces ≡ self.old.pieces }
    {
        let (region, generation) = (self.region, self.generation);
        if !may_join(&sign, self.at == 0, region, generation, self.previous) {
            return Step::NoRecord;
        }
        let placed = PlacedSign {
            generation,
            offset: self.at,
            sign,
        };
        self.at = next;
        self.began = generation;
        Step::Read(placed)
    }

    /// The part whose record stands here, where all of it is at hand; then it's passed. Most records are told so.
    #[inline(always)]
    pub fn pass_part(&mut self) -> Option<PartSign>
        requires sound { IsSound self.old }
        requires inside { self.old.generation ≤ self.old.last }
        ensures passed { IfSome result (λ part. (files : Files) → IsPieceOf self.old.pieces files → (journal : List Placed) → IsAt files self.old journal → IsNextRecord files self.old.region self.new journal (placed_by part)) }
        ensures none { result ≡ None → self.new ≡ self.old }
        ensures sound { IsSound self.new }
        ensures same { IsSameRegion self.old self.new }
        ensures further { IfSome result (λ part. left self.new < left self.old) }
        ensures pieces { self.new.pieces ≡ self.old.pieces }
    {
        let (generation, offset) = (self.generation, self.at);
        if offset == 0 {
            return None;
        }
        let body = self.pieces.body_at_hand(offset)?;
        let next = offset + 5 + body.len() as u64;
        let part = placed_part(body, PartPlace { generation, offset })?;
        self.at = next;
        self.began = generation;
        Some(part)
    }

    /// Reads one record, or goes on to the next journal at a closed gate.
    pub fn step<D: Disk>(&mut self, alloc: Global, disk: &mut D) -> Result<Step, IndexError>
        requires sound { IsSound self.old }
        requires inside { self.old.generation ≤ self.old.last }
        requires told { IfSome (D.disk disk.old).content (IsPieceOf self.old.pieces) }
        ensures stepped { IfOk result (λ step. IfSome (D.disk disk.old).content (λ files. (journal : List Placed) → IsAt files self.old journal → Stepped files self.old.region self.new journal step)) }
        ensures sound { OnOk result (IsSound self.new) }
        ensures same { IsSameRegion self.old self.new }
        ensures further { IfOk result (λ step. step ≢ Step.NoRecord → left self.new < left self.old) }
        ensures told { IfOk result (λ step. step ≢ Step.NoRecord → IfSome (D.disk disk.new).content (IsPieceOf self.new.pieces)) }
        ensures never { (file offset : ℕ) → IsErrOf result (IndexError.NotAFile file offset) → ⊥ }
        ensures reads { Reads (D.disk disk.old) (D.disk disk.new) }
        ensures faults { MayFailUncounted (D.disk disk.old).faults (D.disk disk.new).faults (IsErrOf result IndexError.Failed) }
    {
        match find_sign(&mut self.pieces, disk, self.at) {
            Ok(Some((sign, next))) => Ok(self.pass(sign, next)),
            Ok(None) => {
                self.turn(alloc, disk)?;
                Ok(Step::Turned)
            }
            Err(JournalError::NotARecord { .. }) => Ok(Step::NoRecord),
            Err(JournalError::Failed) => Err(IndexError::Failed),
            Err(JournalError::NoMemory) => Err(IndexError::NoMemory),
        }
    }
}
