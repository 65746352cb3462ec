// The answer goes to the secondary.
ghost use Rattle.std.specs.Prelude.{◌≡◌, ◌≢◌, ◌⊎◌, ◌+◌, ◌<◌, ◌≤◌, ◌++◌, [], ◌∷◌, ℕ, List, Bool, None, Some, false, IsTrue, IfOk, IfErr, OnOk, IsErrOf};
ghost use Rattle.wire_defs.specs.Frames as defs;
ghost use Rattle.wire_defs.specs.Frames.{IsFrame, spelled_frame};
ghost use Rattle.wire_defs.specs.Links.{SameSending, SameReceiving, SendingLooked, ReceivingLooked, counted};
ghost use Rattle.ship_defs.specs.Hearing.{Heard, Over};
ghost use Rattle.recv_pool.specs.Pools.{put_in, free, SameIn};
ghost use Rattle.receiver_server.specs.Listenings.{IsUnfitBehind, IsQuiet};
ghost use Rattle.receiver_server.specs.Answers.{answer_frame};
ghost use Rattle.session_handshake.specs.Answering.{AwaitsAnswer, HasAnswer, StepMeans, EndMeans, left_of, left_to_hear};
ghost use Rattle.session_handshake.specs.Exchanges.{views, HaveLines, SameEnds, cuts_of, Carries, Gets};

use super::connection::GreetError;
use super::outgoing::Outgoing;
use gvn_key::Bytes;
use receiver_server::{Handshake, HearError, Receiver, Step};
use recv_pool::PoolIn;
use repl_link::{Cut, Ends, LinkRx, LinkTx, Linker};

// What a step of the secondary means for the asking. `waiting` tells that it has frames that it didn't hear.
fn meant(
    step: Result<Step, HearError>,
    waiting: bool,
    offset: u64,
) -> Result<Option<Handshake>, GreetError>
    ensures { StepMeans step waiting offset result }
{
    match step {
        Ok(Step::Answered(answer)) => Ok(Some(answer)),
        Ok(Step::Ended) => Err(GreetError::BadFrame { offset }),
        Ok(Step::Waits) if waiting => Err(GreetError::BadFrame { offset }),
        Ok(_) => Ok(None),
        Err(HearError::Cut) => Err(GreetError::Cut),
        Err(HearError::BadFrame { offset }) => Err(GreetError::BadFrame { offset }),
        Err(HearError::NoMemory) => Err(GreetError::NoMemory),
    }
}

// What has come of the answer is heard.
fn hear_step<R: LinkRx>(
    receiver: &mut Receiver,
    pool: &mut PoolIn,
    rx: &mut R,
) -> Result<Option<Handshake>, GreetError>
    requires awaits { AwaitsAnswer receiver.old (R.receiving rx.old).shown (R.receiving rx.old).received (put_in pool.old) (free pool.old) }
    requires open { (R.receiving rx.old).closed ≡ false }
    ensures line { R.line rx.new ≡ R.line rx.old }
    ensures same { SameReceiving (R.receiving rx.old) (R.receiving rx.new) }
    ensures pool { SameIn pool.old pool.new }
    ensures purpose { receiver.new.purpose ≡ receiver.old.purpose }
    ensures awaits { IfOk result (λ o. o ≡ None → AwaitsAnswer receiver.new (R.receiving rx.new).shown (R.receiving rx.new).received (put_in pool.new) (free pool.new)) }
    ensures still { IfOk result (λ o. o ≡ None → receiver.new.heard ≡ receiver.old.heard) }
    ensures answered { IfOk result (λ o. (h : Handshake) → o ≡ Some h
        → HasAnswer receiver.old.heard receiver.new (R.receiving rx.new).shown (R.receiving rx.new).received (put_in pool.new) (free pool.new) h) }
    ensures bad { IsTrue (R.receiving rx.old).shown → IfErr result (λ e. (offset : ℕ) → e ≡ GreetError.BadFrame offset
        → IsUnfitBehind receiver.old.purpose receiver.old.heard [] (R.receiving rx.new).received (R.receiving rx.new).closed offset) }
    ensures closed { OnOk result ((R.receiving rx.new).closed ≡ false) }
    ensures cut { IsErrOf result GreetError.Cut → (R.receiving rx.new).cuts ≡ counted (R.receiving rx.old).cuts 1 }
    ensures uncut { (IsErrOf result GreetError.Cut → ⊥) → (R.receiving rx.new).cuts ≡ (R.receiving rx.old).cuts }
    ensures moves { IsTrue (R.receiving rx.old).told → (receiver.old.incoming.waiting ≡ [] → (R.receiving rx.old).unread ≢ []) → IfOk result (λ o. o ≡ None → left_of receiver.new.incoming < left_of receiver.old.incoming) }
    ensures fewer { IfOk result (λ o. o ≡ None → left_of receiver.new.incoming ≤ left_of receiver.old.incoming) }
    ensures tires { (R.receiving rx.old).told ≡ false → IfOk result (λ o. o ≡ None → left_of receiver.new.incoming + (R.receiving rx.new).patience < left_of receiver.old.incoming + (R.receiving rx.old).patience) }
{
    let step = receiver.step(rx, pool);
    meant(step, receiver.has_waiting(), receiver.offset())
}

// A piece of the answer is sent, and what has come of it is heard.
fn answer_step<T: LinkTx, R: LinkRx>(
    answer: &mut Outgoing,
    receiver: &mut Receiver,
    pool: &mut PoolIn,
    tx: &mut T,
    rx: &mut R,
) -> Result<Option<Handshake>, GreetError>
    requires awaits { AwaitsAnswer receiver.old (R.receiving rx.old).shown (R.receiving rx.old).received (put_in pool.old) (free pool.old) }
    requires open { (R.receiving rx.old).closed ≡ false }
    ensures lines { (T.line tx.new ≡ T.line tx.old) × (R.line rx.new ≡ R.line rx.old) }
    ensures same_tx { SameSending (T.sending tx.old) (T.sending tx.new) }
    ensures same_rx { SameReceiving (R.receiving rx.old) (R.receiving rx.new) }
    ensures finished { (T.sending tx.new).finished ≡ (T.sending tx.old).finished }
    ensures sent { IsTrue (T.sending tx.old).told → (T.sending tx.new).sent ++ answer.new ≡ (T.sending tx.old).sent ++ answer.old }
    ensures pool { SameIn pool.old pool.new }
    ensures purpose { receiver.new.purpose ≡ receiver.old.purpose }
    ensures awaits { IfOk result (λ o. o ≡ None → AwaitsAnswer receiver.new (R.receiving rx.new).shown (R.receiving rx.new).received (put_in pool.new) (free pool.new)) }
    ensures still { IfOk result (λ o. o ≡ None → receiver.new.heard ≡ receiver.old.heard) }
    ensures answered { IfOk result (λ o. (h : Handshake) → o ≡ Some h
        → HasAnswer receiver.old.heard receiver.new (R.receiving rx.new).shown (R.receiving rx.new).received (put_in pool.new) (free pool.new) h) }
    ensures bad { IsTrue (R.receiving rx.old).shown → IfErr result (λ e. (offset : ℕ) → e ≡ GreetError.BadFrame offset
        → IsUnfitBehind receiver.old.purpose receiver.old.heard [] (R.receiving rx.new).received (R.receiving rx.new).closed offset) }
    ensures closed { OnOk result ((R.receiving rx.new).closed ≡ false) }
    ensures cut { (T.sending tx.old).cuts + (R.receiving rx.old).cuts ≡ 0 → IsErrOf result GreetError.Cut → (T.sending tx.new).cuts + (R.receiving rx.new).cuts ≡ 1 }
    ensures uncut { (IsErrOf result GreetError.Cut → ⊥) → ((T.sending tx.new).cuts ≡ (T.sending tx.old).cuts) × ((R.receiving rx.new).cuts ≡ (R.receiving rx.old).cuts) }
    ensures fewer { (told : Bool) → (T.sending tx.old).told ≡ told → (R.receiving rx.old).told ≡ told
        → (IsTrue told → ((0 < (T.sending tx.old).free) × (answer.old ≢ [])) ⊎ (receiver.old.incoming.waiting ≡ [] → (R.receiving rx.old).unread ≢ []))
        → IfOk result (λ o. o ≡ None →
        left_to_hear told answer.new receiver.new.incoming ((T.sending tx.new).patience + (R.receiving rx.new).patience)
        < left_to_hear told answer.old receiver.old.incoming ((T.sending tx.old).patience + (R.receiving rx.old).patience)) }
{
    match answer.send(tx) {
        Ok(()) => hear_step(receiver, pool, rx),
        Err(Cut) => Err(GreetError::Cut),
    }
}

// The same over the ends of one connection, which know all that is free or unread.
fn answer_turn<L: Linker>(
    links: &L,
    ends: &mut Ends<L::Tx, L::Rx>,
    answer: &mut Outgoing,
    receiver: &mut Receiver,
    pool: &mut PoolIn,
) -> Result<Option<Handshake>, GreetError>
    requires lines { HaveLines L.Tx.line L.Rx.line ends.old }
    requires one { (L.Tx.sending ends.old.up_tx).connection ≡ (L.Tx.sending ends.old.down_tx).connection }
    requires frame { IsTrue (L.links links.now).told → (f : defs.Frame) × IsFrame f × Carries (L.links links.now).told (spelled_frame f) (L.Tx.sending ends.old.up_tx) answer.old }
    requires told { (L.Tx.sending ends.old.up_tx).told ≡ (L.links links.now).told }
    requires gets { Gets (L.links links.now).told (L.links links.now).shown (L.Rx.receiving ends.old.down_rx) (L.Rx.receiving ends.old.down_rx).received }
    requires awaits { AwaitsAnswer receiver.old (L.links links.now).shown (L.Rx.receiving ends.old.down_rx).received (put_in pool.old) (free pool.old) }
    ensures lines { HaveLines L.Tx.line L.Rx.line ends.new }
    ensures same { SameEnds (views L.Tx.sending L.Rx.receiving ends.old) (views L.Tx.sending L.Rx.receiving ends.new) }
    ensures down_tx { SendingLooked (L.Tx.sending ends.old.down_tx) (L.Tx.sending ends.new.down_tx) }
    ensures up_rx { ReceivingLooked (L.Rx.receiving ends.old.up_rx) (L.Rx.receiving ends.new.up_rx) }
    ensures carries { (whole : List ℕ) → Carries (L.links links.now).told whole (L.Tx.sending ends.old.up_tx) answer.old → Carries (L.links links.now).told whole (L.Tx.sending ends.new.up_tx) answer.new }
    ensures pool { SameIn pool.old pool.new }
    ensures purpose { receiver.new.purpose ≡ receiver.old.purpose }
    ensures awaits { IfOk result (λ o. o ≡ None → AwaitsAnswer receiver.new (L.links links.now).shown (L.Rx.receiving ends.new.down_rx).received (put_in pool.new) (free pool.new)) }
    ensures still { IfOk result (λ o. o ≡ None → receiver.new.heard ≡ receiver.old.heard) }
    ensures answered { IfOk result (λ o. (h : Handshake) → o ≡ Some h
        → HasAnswer receiver.old.heard receiver.new (L.links links.now).shown (L.Rx.receiving ends.new.down_rx).received (put_in pool.new) (free pool.new) h) }
    ensures bad { IsTrue (L.links links.now).shown → IfErr result (λ e. (offset : ℕ) → e ≡ GreetError.BadFrame offset
        → IsUnfitBehind receiver.old.purpose receiver.old.heard [] (L.Rx.receiving ends.new.down_rx).received (L.Rx.receiving ends.new.down_rx).closed offset) }
    ensures closed { OnOk result ((L.Rx.receiving ends.new.down_rx).closed ≡ false) }
    ensures cut { cuts_of (views L.Tx.sending L.Rx.receiving ends.old) ≡ 0 → IsErrOf result GreetError.Cut → cuts_of (views L.Tx.sending L.Rx.receiving ends.new) ≡ 1 }
    ensures uncut { (IsErrOf result GreetError.Cut → ⊥) → cuts_of (views L.Tx.sending L.Rx.receiving ends.new) ≡ cuts_of (views L.Tx.sending L.Rx.receiving ends.old) }
    ensures fewer { IfOk result (λ o. o ≡ None →
        left_to_hear (L.links links.now).told answer.new receiver.new.incoming ((L.Tx.sending ends.new.up_tx).patience + (L.Rx.receiving ends.new.down_rx).patience)
        < left_to_hear (L.links links.now).told answer.old receiver.old.incoming ((L.Tx.sending ends.old.up_tx).patience + (L.Rx.receiving ends.old.down_rx).patience)) }
{
    links.beside(ends);
    answer_step(answer, receiver, pool, &mut ends.up_tx, &mut ends.down_rx)
}

// The secondary hears the answer.
pub(crate) fn hear<L: Linker>(
    links: &L,
    ends: &mut Ends<L::Tx, L::Rx>,
    answer: Bytes,
    receiver: &mut Receiver,
    pool: &mut PoolIn,
) -> Result<Handshake, GreetError>
    requires lines { HaveLines L.Tx.line L.Rx.line ends.old }
    requires one { (L.Tx.sending ends.old.up_tx).connection ≡ (L.Tx.sending ends.old.down_tx).connection }
    requires frame { IsTrue (L.links links.now).told → (f : defs.Frame) × IsFrame f × (answer ≡ spelled_frame f) }
    requires carries { Carries (L.links links.now).told answer (L.Tx.sending ends.old.up_tx) answer }
    requires gets { Gets (L.links links.now).told (L.links links.now).shown (L.Rx.receiving ends.old.down_rx) (L.Rx.receiving ends.old.down_rx).received }
    requires awaits { AwaitsAnswer receiver.old (L.links links.now).shown (L.Rx.receiving ends.old.down_rx).received (put_in pool.old) (free pool.old) }
    requires uncut { cuts_of (views L.Tx.sending L.Rx.receiving ends.old) ≡ 0 }
    ensures lines { HaveLines L.Tx.line L.Rx.line ends.new }
    ensures same { SameEnds (views L.Tx.sending L.Rx.receiving ends.old) (views L.Tx.sending L.Rx.receiving ends.new) }
    ensures down_tx { SendingLooked (L.Tx.sending ends.old.down_tx) (L.Tx.sending ends.new.down_tx) }
    ensures up_rx { ReceivingLooked (L.Rx.receiving ends.old.up_rx) (L.Rx.receiving ends.new.up_rx) }
    ensures carries { (left : List ℕ) × Carries (L.links links.now).told answer (L.Tx.sending ends.new.up_tx) left }
    ensures pool { SameIn pool.old pool.new }
    ensures purpose { receiver.new.purpose ≡ receiver.old.purpose }
    ensures answered { IfOk result (λ h. HasAnswer receiver.old.heard receiver.new (L.links links.now).shown (L.Rx.receiving ends.new.down_rx).received (put_in pool.new) (free pool.new) h) }
    ensures bad { IsTrue (L.links links.now).shown → IfErr result (λ e. (offset : ℕ) → e ≡ GreetError.BadFrame offset
        → IsUnfitBehind receiver.old.purpose receiver.old.heard [] (L.Rx.receiving ends.new.down_rx).received (L.Rx.receiving ends.new.down_rx).closed offset) }
    ensures closed { OnOk result ((L.Rx.receiving ends.new.down_rx).closed ≡ false) }
    ensures cut { IsErrOf result GreetError.Cut → cuts_of (views L.Tx.sending L.Rx.receiving ends.new) ≡ 1 }
    ensures uncut { (IsErrOf result GreetError.Cut → ⊥) → cuts_of (views L.Tx.sending L.Rx.receiving ends.new) ≡ 0 }
{
    let mut outgoing = Outgoing::new(answer);
    loop {
        match answer_turn(links, ends, &mut outgoing, receiver, pool) {
            Ok(Some(answer)) => return Ok(answer),
            Ok(None) => {}
            Err(error) => return Err(error),
        }
    }
}

// What a step of the secondary means behind an answer that is the connection's last frame.
fn ended(step: Result<Step, HearError>, offset: u64) -> Result<(), GreetError>
    ensures { EndMeans step offset result }
{
    match step {
        Ok(Step::Over) => Ok(()),
        Ok(_) => Err(GreetError::BadFrame { offset }),
        Err(HearError::Cut) => Err(GreetError::Cut),
        Err(HearError::BadFrame { offset }) => Err(GreetError::BadFrame { offset }),
        Err(HearError::NoMemory) => Err(GreetError::NoMemory),
    }
}

// Whether bytes stand behind an answer that is the connection's last frame.
pub(crate) fn close<R: LinkRx>(
    receiver: &mut Receiver,
    pool: &mut PoolIn,
    rx: &mut R,
) -> Result<(), GreetError>
    requires open { (R.receiving rx.old).closed ≡ false }
    ensures line { R.line rx.new ≡ R.line rx.old }
    ensures same { SameReceiving (R.receiving rx.old) (R.receiving rx.new) }
    ensures pool { SameIn pool.old pool.new }
    ensures purpose { receiver.new.purpose ≡ receiver.old.purpose }
    ensures answered { OnOk result ((begun : Heard) (h : Handshake) → HasAnswer begun receiver.old (R.receiving rx.old).shown (R.receiving rx.old).received (put_in pool.old) (free pool.old) h
        → HasAnswer begun receiver.new (R.receiving rx.new).shown (R.receiving rx.new).received (put_in pool.new) (free pool.new) h) }
    ensures over { OnOk result (receiver.new.heard.last ≡ Over → IsQuiet receiver.new) }
    ensures bad { IfErr result (λ e. (offset : ℕ) → e ≡ GreetError.BadFrame offset → IsTrue (R.receiving rx.old).shown
        → (begun : Heard) (h : Handshake) → HasAnswer begun receiver.old (R.receiving rx.old).shown (R.receiving rx.old).received (put_in pool.old) (free pool.old) h
        → IsUnfitBehind receiver.old.purpose begun (answer_frame h ∷ []) (R.receiving rx.new).received (R.receiving rx.new).closed offset) }
    ensures closed { OnOk result ((R.receiving rx.new).closed ≡ false) }
    ensures cut { IsErrOf result GreetError.Cut → (R.receiving rx.new).cuts ≡ counted (R.receiving rx.old).cuts 1 }
    ensures uncut { (IsErrOf result GreetError.Cut → ⊥) → (R.receiving rx.new).cuts ≡ (R.receiving rx.old).cuts }
{
    if receiver.is_over() {
        let step = receiver.step(rx, pool);
        return ended(step, receiver.offset());
    }
    Ok(())
}
