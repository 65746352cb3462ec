// What has come over a connection and wasn't heard yet.
ghost use Rattle.std.specs.Prelude.{◌≡◌, ◌≢◌, ◌↔◌, ◌+◌, ◌<◌, ◌++◌, ◌∷◌, ◌||◌, ℕ, List, [], length, true, false, IsTrue, IfOk, MatchOption, OnOk, OnErr, IsErrOf};
ghost use Rattle.wire_defs.specs.Frames as defs;
ghost use Rattle.wire_defs.specs.Frames.{BeginsFrame, IsFrame, spelled_frame};
ghost use Rattle.wire_defs.specs.Links.{SameReceiving, IsReached, counted};
ghost use Rattle.repl_wire.specs.Values.{frame_value};
ghost use Rattle.receiver_server.specs.Incomings.{nothing_came, unheard, HasRead, Pulls};
ghost use Rattle.receiver_server.specs.Answers.{is_ended, patience_cost};

use super::step::{HearError, Step};
use gvn_key::NoMemory;
use repl_link::{Cut, LinkRx, Received};
use repl_wire::{Frame, FrameError, FrameList, Frames, frame_length};
use std::alloc::Global;
use std::collections::VecDeque;
use std::marker::Model;
use std::mem;

// How many bytes a step receives at most.
const PIECE: usize = 4096;

// The frames of one piece at most, and the beginning of another.
#[derive(Drop)]
pub(crate) struct Inbox {
    alloc: Global,
    // The frames that weren't heard yet.
    waiting: VecDeque<Frame>,
    // The bytes behind them.
    frames: Frames,
    // Whether no frame begins as those do.
    bad: bool,
    // Where bytes are received, and how many of these weren't read yet.
    piece: Vec<u8>,
    fresh: usize,
    // How many bytes weren't heard yet, where none is bad.
    left: u64,
}

impl Model for Inbox {
    ghost use Rattle.std.specs.Prelude.{map, take};
    ghost use Rattle.repl_wire.specs.Values.{frame_value};
    ghost use Rattle.receiver_server.specs.Incomings.{Incoming, IsInbox};

    ghost Value = { Incoming };

    ghost view = { λ i. record { waiting = map frame_value i.waiting.items; reading = i.frames; bad = i.bad; fresh = take i.fresh i.piece.items } };

    ghost invariant = { λ i. IsInbox (map frame_value i.waiting.items) i.frames.rest i.bad i.fresh i.piece.items i.left };
}

impl Inbox {
    // Before the first byte.
    pub(crate) fn new(alloc: Global) -> Result<Inbox, NoMemory>
        ensures { IfOk result (λ i. i ≡ nothing_came) }
    {
        Ok(Inbox {
            alloc,
            waiting: VecDeque::new(alloc),
            frames: Frames::new(alloc),
            bad: false,
            piece: Vec::from_slice(alloc, &[0; PIECE])?,
            fresh: 0,
            left: 0,
        })
    }

    // How many frames wait.
    pub(crate) fn count(&self) -> usize
        ensures { result ≡ length self.now.waiting }
    {
        self.waiting.len()
    }

    // The first frame that waits.
    pub(crate) fn first(&self) -> Option<&Frame>
        ensures is { MatchOption result (self.now.waiting ≡ []) (λ f. (fs : List defs.Frame) × (self.now.waiting ≡ frame_value f.now ∷ fs)) }
        ensures form { MatchOption result (Unit {0}) (λ f. IsFrame (frame_value f.now)) }
        ensures rest { self.now.bad ≡ false → BeginsFrame self.now.reading.rest }
    {
        self.waiting.front()
    }

    // Takes the first frame that waits, and tells how many bytes it has.
    pub(crate) fn take_first(&mut self) -> Option<(Frame, u64)>
        ensures is { MatchOption result (self.old.waiting ≡ []) (λ r. (self.old.waiting ≡ frame_value r.0 ∷ self.new.waiting) × (r.1 ≡ length (spelled_frame (frame_value r.0)))) }
        ensures form { MatchOption result (Unit {0}) (λ r. IsFrame (frame_value r.0)) }
        ensures rest { self.new ≡ record self.old { waiting = self.new.waiting } }
    {
        let frame = self.waiting.pop_front()?;
        let length = frame_length(&frame);
        self.left = self.left.saturating_sub(length);
        Some((frame, length))
    }

    // Whether no frame begins as the bytes do that aren't whole frames.
    pub(crate) fn is_bad(&self) -> bool
        ensures is { result ≡ self.now.bad }
        ensures rest { self.now.bad ≡ false → BeginsFrame self.now.reading.rest }
    {
        self.bad
    }

    // Whether bytes have come that weren't heard.
    pub(crate) fn has_left(&self) -> bool
        requires { self.now.bad ≡ false }
        ensures { IsTrue result ↔ (0 < unheard self.now) }
    {
        self.left != 0
    }

    // Reads the bytes that were received. The list of the frames heard before is used again.
    fn read(&mut self) -> Result<(), NoMemory>
        requires good { self.old.bad ≡ false }
        requires empty { self.old.waiting ≡ [] }
        ensures ok { OnOk result (HasRead self.old self.new) }
        ensures err { OnErr result (self.new ≡ self.old) }
    {
        let heard = mem::replace(&mut self.waiting, VecDeque::new(self.alloc));
        let items = Vec::from(heard);
        let mut list = FrameList::of(items);
        match self.frames.feed(&self.piece[..self.fresh], &mut list) {
            Ok(()) => {}
            Err(FrameError::BadFrame { .. }) => self.bad = true,
            Err(FrameError::NoMemory) => return Err(NoMemory),
        }
        self.fresh = 0;
        self.waiting = VecDeque::from(list.into_vec());
        Ok(())
    }

    // Receives bytes where none is left to be read, and reads them.
    #[inline(never)]
    pub(crate) fn pull<R: LinkRx>(&mut self, rx: &mut R) -> Result<Step, HearError>
        requires good { self.old.bad ≡ false }
        requires empty { self.old.waiting ≡ [] }
        ensures line { R.line rx.new ≡ R.line rx.old }
        ensures same { SameReceiving (R.receiving rx.old) (R.receiving rx.new) }
        ensures came { (piece : List ℕ) × Pulls result piece self.old self.new × (IsTrue (R.receiving rx.old).shown → (R.receiving rx.new).received ≡ (R.receiving rx.old).received ++ piece) }
        ensures rest { self.new.bad ≡ false → BeginsFrame self.new.reading.rest }
        ensures waits { IsTrue (R.receiving rx.old).told → IfOk result (λ a. a ≡ Step.Waits → ((R.receiving rx.old).unread ≡ []) × ((R.receiving rx.old).ended ≡ false)) }
        ensures ended { IsTrue (R.receiving rx.old).told → IfOk result (λ a. a ≡ Step.Ended → ((R.receiving rx.new).unread ≡ []) × IsTrue (R.receiving rx.new).ended) }
        ensures closed { (R.receiving rx.new).closed ≡ ((R.receiving rx.old).closed || is_ended result) }
        ensures cut { IsErrOf result HearError.Cut → (R.receiving rx.new).cuts ≡ counted (R.receiving rx.old).cuts 1 }
        ensures uncut { (IsErrOf result HearError.Cut → ⊥) → (R.receiving rx.new).cuts ≡ (R.receiving rx.old).cuts }
        ensures cut_only { IsTrue (R.receiving rx.old).told → IsErrOf result HearError.Cut → IsReached (R.receiving rx.old).order (R.receiving rx.old).received }
        ensures patience { self.old.fresh ≡ [] → (R.receiving rx.old).told ≡ false → OnOk result ((R.receiving rx.new).patience + patience_cost result ≡ (R.receiving rx.old).patience) }
    {
        if self.fresh == 0 {
            match rx.receive(&mut self.piece) {
                Ok(Received::Bytes(count)) => {
                    self.fresh = count;
                    self.left += count as u64;
                }
                Ok(Received::NotYet) => return Ok(Step::Waits),
                Ok(Received::Ended) => return Ok(Step::Ended),
                Err(Cut) => return Err(HearError::Cut),
            }
        }
        match self.read() {
            Ok(()) => Ok(Step::Received),
            Err(_) => Err(HearError::NoMemory),
        }
    }
}
