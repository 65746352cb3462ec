// The Receiver Server.
ghost use Rattle.std.specs.Prelude.{◌≡◌, ◌≢◌, ◌↔◌, ◌+◌, ◌<◌, ◌≤◌, ◌^◌, ◌||◌, ℕ, List, [], ◌∷◌, length, false, IsTrue, IfOk, IfErr, OnOk, OnErr, IsErrOf};
ghost use Rattle.std.specs.List.{AllByRecursion};
ghost use Rattle.global_defs.specs.declared.limits.TheConstants.{NUMBERS_END};
ghost use Rattle.global_defs.specs.Fields.{IsReign};
ghost use Rattle.global_defs.specs.Prefix.{IsPrefix};
ghost use Rattle.gvn_model.specs.Entries.{history_value};
ghost use Rattle.wire_defs.specs.Frames as defs;
ghost use Rattle.wire_defs.specs.Frames.{BeginsFrame};
ghost use Rattle.wire_defs.specs.Links.{SameReceiving, IsReached, counted};
ghost use Rattle.ship_defs.specs.Arrivals.{Arrival};
ghost use Rattle.ship_defs.specs.Hearing.{Heard, unbegun, Over};
ghost use Rattle.recv_pool.specs.Pools.{put_in, free, reign_of, SameIn};
ghost use Rattle.repl_wire.specs.Values.{frame_value};
ghost use Rattle.receiver_server.specs.Hearings.{purpose_value, reign_behind, MayCome};
ghost use Rattle.receiver_server.specs.Answers.{is_ended, patience_cost, IsHearAnswer, IsOverAnswer};
ghost use Rattle.receiver_server.specs.Listenings.{listening, IsHearing, IsQuiet, IsIdle, IsUnfitBehind, Hears, Does, StepTells, HasHeard, HasPut};

use super::hearer::{Hearer, Purpose};
use super::inbox::Inbox;
use super::step::{Handshake, HearError, Step};
use gvn_key::NoMemory;
use gvn_model::{History, Reign};
use recv_pool::PoolIn;
use repl_link::LinkRx;
use repl_wire::Frame;
use std::alloc::Global;
use std::marker::Model;

/// Receives frames over one connection. It keeps the frames of one piece at most, whatever has come.
#[derive(Drop)]
pub struct Receiver {
    purpose: Purpose,
    hearer: Hearer,
    // Where the next frame begins.
    offset: u64,
    inbox: Inbox,
}

impl Model for Receiver {
    ghost use Rattle.receiver_server.specs.Hearings.{purpose_value};
    ghost use Rattle.receiver_server.specs.Listenings.{Listening};

    ghost Value = { Listening };

    ghost view = { λ r. record { purpose = purpose_value r.purpose; heard = r.hearer; offset = r.offset; incoming = r.inbox } };
}

// How a step answers that a frame was heard.
fn step_of(frame: &Frame) -> Step
    ensures { StepTells result (frame_value frame.now) }
{
    match frame {
        Frame::Resume(number) => Step::Answered(Handshake::Resume(*number)),
        Frame::RollbackFirst(number) => Step::Answered(Handshake::RollbackFirst(*number)),
        Frame::Hello { .. } | Frame::History(_) | Frame::Entry(..) | Frame::Bye(_) => Step::Heard,
    }
}

impl Receiver {
    /// Before the first byte, for a secondary with that history.
    pub fn new(alloc: Global, mine: &History, purpose: Purpose) -> Result<Receiver, NoMemory>
        requires few { mine.now.length < NUMBERS_END }
        requires form { AllByRecursion IsReign (history_value mine.now).reigns }
        ensures is { IfOk result (λ r. r ≡ listening (purpose_value purpose) (unbegun (history_value mine.now))) }
        ensures hears { IfOk result (λ r. IsHearing (unbegun (history_value mine.now)) r [] [] []) }
    {
        Ok(Receiver {
            purpose,
            hearer: Hearer::new(mine)?,
            offset: 0,
            inbox: Inbox::new(alloc)?,
        })
    }

    /// Where the next frame begins, counted from the connection's first byte.
    pub fn offset(&self) -> u64
        ensures { result ≡ self.now.offset }
    {
        self.offset
    }

    /// Whether the connection's last frame was heard.
    pub fn is_over(&self) -> bool
        ensures { IsTrue result ↔ (self.now.heard.last ≡ Over) }
    {
        self.hearer.is_over()
    }

    /// Whether frames have come that weren't heard yet.
    pub fn has_waiting(&self) -> bool
        ensures is { IsTrue result ↔ (self.now.incoming.waiting ≢ []) }
        ensures rest { self.now.incoming.bad ≡ false → BeginsFrame self.now.incoming.reading.rest }
    {
        self.inbox.first().is_some()
    }

    /// How many frames have come that weren't heard yet.
    pub fn waiting(&self) -> usize
        ensures { result ≡ length self.now.incoming.waiting }
    {
        self.inbox.count()
    }

    // No frame that fits stands where the next one is to begin.
    fn bad_frame(&self) -> HearError
        ensures { result ≡ HearError.BadFrame self.now.offset }
    {
        HearError::BadFrame {
            offset: self.offset,
        }
    }

    // Hears the first frame that waits.
    fn take_next(&mut self, reign: Option<Reign>, pool: &mut PoolIn) -> Step
        requires may { (f : defs.Frame) × (fs : List defs.Frame) × (self.old.incoming.waiting ≡ f ∷ fs) × MayCome self.old.heard f }
        requires told { reign_of reign ≡ reign_behind self.old.heard.last }
        requires place { 0 < free pool.old }
        ensures pool { SameIn pool.old pool.new }
        ensures hears { (f : defs.Frame) × StepTells result f × HasHeard f self.old self.new × HasPut f self.old self.new (put_in pool.old) (put_in pool.new) }
        ensures places { free pool.old + length (put_in pool.old) ≡ free pool.new + length (put_in pool.new) }
        ensures one { length (put_in pool.new) ≤ length (put_in pool.old) + 1 }
    {
        let (frame, length) = match self.inbox.take_first() {
            Some(first) => first,
            None => unreachable!(),
        };
        let step = step_of(&frame);
        let arrived = self.hearer.hear(self.purpose, self.offset, frame, reign);
        self.offset = self.offset.saturating_add(length);
        if let Some(arrived) = arrived {
            pool.put(arrived);
        }
        step
    }

    // Hears the first frame that waits, where it fits.
    fn hear_next(&mut self, pool: &mut PoolIn) -> Result<Step, HearError>
        requires some { self.old.incoming.waiting ≢ [] }
        requires place { 0 < free pool.old }
        ensures pool { SameIn pool.old pool.new }
        ensures places { free pool.old + length (put_in pool.old) ≡ free pool.new + length (put_in pool.new) }
        ensures one { length (put_in pool.new) ≤ length (put_in pool.old) + 1 }
        ensures hears { (begun : Heard) (received : List ℕ) (frames : List defs.Frame) → IsHearing begun self.old received (put_in pool.old) frames
            → (now : List defs.Frame) × Hears result frames now × IsHearing begun self.new received (put_in pool.new) now }
        ensures does { Does result self.old self.new }
        ensures same { self.new.incoming.bad ≡ self.old.incoming.bad }
        ensures reading { self.new.incoming.reading ≡ self.old.incoming.reading }
        ensures err { OnErr result (put_in pool.new ≡ put_in pool.old) }
        ensures bad { IfErr result (λ e. (offset : ℕ) → e ≡ HearError.BadFrame offset → (begun : Heard) (received : List ℕ) (frames : List defs.Frame)
            → IsHearing begun self.old received (put_in pool.old) frames → IsUnfitBehind self.old.purpose begun frames received false offset) }
        ensures behind { self.old.heard.last ≡ Over → IsOverAnswer result }
        ensures only { IsHearAnswer result }
    {
        let frame = match self.inbox.first() {
            Some(frame) => frame,
            None => unreachable!(),
        };
        if !self.hearer.may_come(frame) {
            return Err(self.bad_frame());
        }
        match self.hearer.reign_told() {
            Ok(reign) => Ok(self.take_next(reign, pool)),
            Err(_) => Err(HearError::NoMemory),
        }
    }

    // Receives bytes, where no frame waits.
    fn receive<R: LinkRx>(&mut self, rx: &mut R) -> Result<Step, HearError>
        requires empty { self.old.incoming.waiting ≡ [] }
        ensures line { R.line rx.new ≡ R.line rx.old }
        ensures same { SameReceiving (R.receiving rx.old) (R.receiving rx.new) }
        ensures heard { (frames : List defs.Frame) → Hears result frames frames }
        ensures hears { IsTrue (R.receiving rx.old).shown → (begun : Heard) (put : List Arrival) (frames : List defs.Frame)
            → IsHearing begun self.old (R.receiving rx.old).received put frames → IsHearing begun self.new (R.receiving rx.new).received put frames }
        ensures does { Does result self.old self.new }
        ensures rest { self.new.incoming.bad ≡ false → BeginsFrame self.new.incoming.reading.rest }
        ensures bad { IfErr result (λ e. (offset : ℕ) → e ≡ HearError.BadFrame offset → IsTrue (R.receiving rx.old).shown → (begun : Heard) (put : List Arrival) (frames : List defs.Frame)
            → IsHearing begun self.old (R.receiving rx.old).received put frames → IsUnfitBehind self.old.purpose begun frames (R.receiving rx.new).received false offset) }
        ensures behind { self.old.heard.last ≡ Over → IsOverAnswer result }
        ensures over { IfOk result (λ a. a ≡ Step.Over → IsQuiet self.new × (self.new.heard.last ≡ Over)) }
        ensures ended { IfOk result (λ a. a ≡ Step.Ended → IsIdle self.new × (self.new.heard.last ≢ Over) × IsTrue (R.receiving rx.new).closed) }
        ensures at_end { IsTrue (R.receiving rx.old).told → IfOk result (λ a. a ≡ Step.Ended → ((R.receiving rx.new).unread ≡ []) × IsTrue (R.receiving rx.new).ended) }
        ensures closed { (R.receiving rx.new).closed ≡ ((R.receiving rx.old).closed || is_ended result) }
        ensures waits { IsTrue (R.receiving rx.old).told → IfOk result (λ a. a ≡ Step.Waits → ((R.receiving rx.old).unread ≡ []) × ((R.receiving rx.old).ended ≡ false)) }
        ensures nothing { IsTrue (R.receiving rx.old).shown → IfOk result (λ a. a ≡ Step.Waits → (R.receiving rx.new).received ≡ (R.receiving rx.old).received) }
        ensures patience { self.old.incoming.fresh ≡ [] → self.old.heard.last ≢ Over → (R.receiving rx.old).told ≡ false
            → OnOk result ((R.receiving rx.new).patience + patience_cost result ≡ (R.receiving rx.old).patience) }
        ensures grows { IsTrue (R.receiving rx.old).shown → IsPrefix (R.receiving rx.old).received (R.receiving rx.new).received }
        ensures cut { IsErrOf result HearError.Cut → (R.receiving rx.new).cuts ≡ counted (R.receiving rx.old).cuts 1 }
        ensures uncut { (IsErrOf result HearError.Cut → ⊥) → (R.receiving rx.new).cuts ≡ (R.receiving rx.old).cuts }
        ensures cut_only { IsTrue (R.receiving rx.old).told → IsErrOf result HearError.Cut → IsReached (R.receiving rx.old).order (R.receiving rx.old).received }
    {
        if self.inbox.is_bad() {
            return Err(self.bad_frame());
        }
        if self.hearer.is_over() {
            if self.inbox.has_left() {
                return Err(self.bad_frame());
            }
            return Ok(Step::Over);
        }
        self.inbox.pull(rx)
    }

    /// Hears the next frame that has come, and puts its entry into the pool, or else receives bytes. Where it fails, all that was
    /// received and isn't heard yet stays.
    #[inline(always)]
    pub fn step<R: LinkRx>(&mut self, rx: &mut R, pool: &mut PoolIn) -> Result<Step, HearError>
        ensures line { R.line rx.new ≡ R.line rx.old }
        ensures same { SameReceiving (R.receiving rx.old) (R.receiving rx.new) }
        ensures pool { SameIn pool.old pool.new }
        ensures places { free pool.old + length (put_in pool.old) ≤ free pool.new + length (put_in pool.new) }
        ensures one { length (put_in pool.new) ≤ length (put_in pool.old) + 1 }
        // what was received stays told as frames heard, frames that wait and bytes behind them, whatever the answer is
        ensures hears { IsTrue (R.receiving rx.old).shown → (begun : Heard) (frames : List defs.Frame)
            → IsHearing begun self.old (R.receiving rx.old).received (put_in pool.old) frames
            → (now : List defs.Frame) × Hears result frames now × IsHearing begun self.new (R.receiving rx.new).received (put_in pool.new) now }
        ensures does { Does result self.old self.new }
        ensures err { OnErr result (put_in pool.new ≡ put_in pool.old) }
        // a step that received has put nothing
        ensures received { IfOk result (λ a. a ≡ Step.Received → pool.new ≡ pool.old) }
        // the place of a bad frame; what arrived before it was put into the pool
        ensures bad { IfErr result (λ e. (offset : ℕ) → e ≡ HearError.BadFrame offset → IsTrue (R.receiving rx.old).shown → (begun : Heard) (frames : List defs.Frame)
            → IsHearing begun self.old (R.receiving rx.old).received (put_in pool.old) frames
            → IsUnfitBehind self.old.purpose begun frames (R.receiving rx.new).received false offset) }
        // behind the last frame there is nothing more, or a bad frame
        ensures behind { self.old.heard.last ≡ Over → 0 < free pool.old → IsOverAnswer result }
        ensures over { IfOk result (λ a. a ≡ Step.Over → IsQuiet self.new × (self.new.heard.last ≡ Over)) }
        ensures ended { IfOk result (λ a. a ≡ Step.Ended → IsIdle self.new × (self.new.heard.last ≢ Over) × IsTrue (R.receiving rx.new).closed) }
        ensures at_end { IsTrue (R.receiving rx.old).told → IfOk result (λ a. a ≡ Step.Ended → ((R.receiving rx.new).unread ≡ []) × IsTrue (R.receiving rx.new).ended) }
        ensures closed { (R.receiving rx.new).closed ≡ ((R.receiving rx.old).closed || is_ended result) }
        // it waits for a place in the pool, or for bytes
        ensures full { self.old.incoming.waiting ≢ [] → IfOk result (λ a. a ≡ Step.Waits → free pool.new ≡ 0) }
        ensures room { self.old.incoming.waiting ≢ [] → 0 < free pool.old → IfOk result (λ a. a ≡ Step.Waits → ⊥) }
        ensures waits { self.old.incoming.waiting ≡ [] → IsTrue (R.receiving rx.old).told → IfOk result (λ a. a ≡ Step.Waits → ((R.receiving rx.old).unread ≡ []) × ((R.receiving rx.old).ended ≡ false)) }
        ensures nothing { IsTrue (R.receiving rx.old).shown → IfOk result (λ a. a ≡ Step.Waits → (R.receiving rx.new).received ≡ (R.receiving rx.old).received) }
        ensures patience { self.old.incoming.waiting ≡ [] → self.old.incoming.fresh ≡ [] → self.old.heard.last ≢ Over → (R.receiving rx.old).told ≡ false
            → OnOk result ((R.receiving rx.new).patience + patience_cost result ≡ (R.receiving rx.old).patience) }
        ensures still { self.old.incoming.waiting ≢ [] → R.receiving rx.new ≡ R.receiving rx.old }
        // less than a frame is kept of the bytes behind those that wait
        ensures rest { self.new.incoming.bad ≡ false → BeginsFrame self.new.incoming.reading.rest }
        ensures grows { IsTrue (R.receiving rx.old).shown → IsPrefix (R.receiving rx.old).received (R.receiving rx.new).received }
        ensures cut { IsErrOf result HearError.Cut → (R.receiving rx.new).cuts ≡ counted (R.receiving rx.old).cuts 1 }
        ensures uncut { (IsErrOf result HearError.Cut → ⊥) → (R.receiving rx.new).cuts ≡ (R.receiving rx.old).cuts }
        ensures cut_only { IsTrue (R.receiving rx.old).told → IsErrOf result HearError.Cut → IsReached (R.receiving rx.old).order (R.receiving rx.old).received }
    {
        if self.has_waiting() {
            if pool.has_place() {
                self.hear_next(pool)
            } else {
                Ok(Step::Waits)
            }
        } else {
            self.receive(rx)
        }
    }
}
