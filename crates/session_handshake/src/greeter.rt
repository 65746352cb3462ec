// A primary that waits for a HELLO.
ghost use Rattle.std.specs.Prelude.{◌≡◌, ◌≢◌, ◌+◌, ◌<◌, ◌≤◌, ◌^◌, ◌++◌, [], ℕ, None, Some, false, true, length, IsTrue, IfOk, IfErr, OnOk, IsErrOf};
ghost use Rattle.gvn_model.specs.Entries.{history_value};
ghost use Rattle.wire_defs.specs.Frames.{IsFrame};
ghost use Rattle.wire_defs.specs.Links.{SameReceiving, counted};
ghost use Rattle.repl_wire.specs.Values.{frame_value};
ghost use Rattle.ship_defs.specs.Greeting.{IsBadToPrimary};
ghost use Rattle.receiver_server.specs.Answers.{answer_frame};
ghost use Rattle.session_handshake.specs.Answering.{Awaits, IsGreetedBy, Judges};

use super::answer::answer;
use super::connection::GreetError;
use super::hello::is_admitted;
use gvn_model::History;
use receiver_server::Handshake;
use repl_link::{Cut, LinkRx, Received};
use repl_wire::{Frame, FrameError, FrameList, Frames, frame_length};
use std::alloc::Global;

// How many bytes it receives at once.
const PIECE: usize = 4096;

// The beginning of a HELLO, as far as it has come.
#[derive(Drop)]
pub(crate) struct Greeter {
    alloc: Global,
    frames: Frames,
    // How many bytes have come.
    count: u64,
}

// The answer to a frame where it is a HELLO that is admitted and all that came, or else where the bytes are bad.
fn judged(theirs: &History, first: &Frame, count: u64) -> Result<Handshake, u64>
    requires { IsFrame (frame_value first.now) }
    ensures { Judges (history_value theirs.now) (frame_value first.now) count result }
{
    match first {
        Frame::Hello { history, .. } if is_admitted(history) => {
            let length = frame_length(first);
            if length == count {
                Ok(answer(theirs, history))
            } else {
                Err(length)
            }
        }
        _ => Err(0),
    }
}

impl Greeter {
    // Before the first byte.
    pub(crate) fn new(alloc: Global) -> Greeter
        ensures awaits { Awaits result.frames result.count }
        ensures nothing { result.frames.rest ≡ [] }
    {
        Greeter {
            alloc,
            frames: Frames::new(alloc),
            count: 0,
        }
    }

    // Reads bytes that came, and answers the HELLO where it is whole.
    fn read(&mut self, theirs: &History, piece: &[u8]) -> Result<Option<Handshake>, GreetError>
        requires awaits { Awaits self.old.frames self.old.count }
        requires few { length piece.now ≤ 4096 }
        ensures awaits { IfOk result (λ o. o ≡ None → Awaits self.new.frames self.new.count × (self.new.frames.rest ≡ self.old.frames.rest ++ piece.now)) }
        ensures greeted { IfOk result (λ o. (h : Handshake) → o ≡ Some h → IsGreetedBy (history_value theirs.now) (self.old.frames.rest ++ piece.now) (answer_frame h)) }
        ensures bad { IfErr result (λ e. (offset : ℕ) → e ≡ GreetError.BadFrame offset → IsBadToPrimary (self.old.frames.rest ++ piece.now) false offset) }
        ensures uncut { IsErrOf result GreetError.Cut → ⊥ }
    {
        let mut list = FrameList::new(self.alloc);
        let bad = match self.frames.feed(piece, &mut list) {
            Ok(()) => false,
            Err(FrameError::BadFrame { .. }) => true,
            Err(FrameError::NoMemory) => return Err(GreetError::NoMemory),
        };
        self.count += piece.len() as u64;
        match list.as_slice() {
            [first, ..] => match judged(theirs, first, self.count) {
                Ok(answer) => Ok(Some(answer)),
                Err(offset) => Err(GreetError::BadFrame { offset }),
            },
            [] if bad => Err(GreetError::BadFrame { offset: 0 }),
            [] => Ok(None),
        }
    }

    // Receives bytes, and answers the HELLO where it is whole.
    pub(crate) fn step<R: LinkRx>(
        &mut self,
        theirs: &History,
        rx: &mut R,
    ) -> Result<Option<Handshake>, GreetError>
        requires awaits { Awaits self.old.frames self.old.count }
        requires open { (R.receiving rx.old).closed ≡ false }
        ensures line { R.line rx.new ≡ R.line rx.old }
        ensures same { SameReceiving (R.receiving rx.old) (R.receiving rx.new) }
        ensures awaits { IfOk result (λ o. o ≡ None → Awaits self.new.frames self.new.count) }
        ensures kept { IsTrue (R.receiving rx.old).shown → (R.receiving rx.old).received ≡ self.old.frames.rest → IfOk result (λ o. o ≡ None → (R.receiving rx.new).received ≡ self.new.frames.rest) }
        ensures greeted { IsTrue (R.receiving rx.old).shown → (R.receiving rx.old).received ≡ self.old.frames.rest
            → IfOk result (λ o. (h : Handshake) → o ≡ Some h → IsGreetedBy (history_value theirs.now) (R.receiving rx.new).received (answer_frame h)) }
        ensures bad { IsTrue (R.receiving rx.old).shown → (R.receiving rx.old).received ≡ self.old.frames.rest
            → IfErr result (λ e. (offset : ℕ) → e ≡ GreetError.BadFrame offset → IsBadToPrimary (R.receiving rx.new).received (R.receiving rx.new).closed offset) }
        ensures closed { OnOk result ((R.receiving rx.new).closed ≡ false) }
        ensures moves { IsTrue (R.receiving rx.old).told → (R.receiving rx.old).unread ≢ [] → IfOk result (λ o. o ≡ None → length self.old.frames.rest < length self.new.frames.rest) }
        ensures grows { IfOk result (λ o. o ≡ None → length self.old.frames.rest ≤ length self.new.frames.rest) }
        ensures tires { (R.receiving rx.old).told ≡ false → IfOk result (λ o. o ≡ None → length self.old.frames.rest + (R.receiving rx.new).patience < length self.new.frames.rest + (R.receiving rx.old).patience) }
        ensures cut { IsErrOf result GreetError.Cut → (R.receiving rx.new).cuts ≡ counted (R.receiving rx.old).cuts 1 }
        ensures uncut { (IsErrOf result GreetError.Cut → ⊥) → (R.receiving rx.new).cuts ≡ (R.receiving rx.old).cuts }
    {
        let mut piece = [0; PIECE];
        match rx.receive(&mut piece) {
            Ok(Received::Bytes(count)) => self.read(theirs, &piece[..count]),
            Ok(Received::NotYet) => Ok(None),
            Ok(Received::Ended) => Err(GreetError::BadFrame { offset: 0 }),
            Err(Cut) => Err(GreetError::Cut),
        }
    }
}
