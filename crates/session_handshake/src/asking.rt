// The HELLO goes to the primary.
ghost use Rattle.std.specs.Prelude.{◌≡◌, ◌≢◌, ◌⊎◌, ◌+◌, ◌<◌, ◌++◌, [], ℕ, List, Bool, None, Some, false, IsTrue, IfOk, IfErr, OnOk, IsErrOf};
ghost use Rattle.gvn_model.specs.Entries.{history_value};
ghost use Rattle.wire_defs.specs.Frames as defs;
ghost use Rattle.wire_defs.specs.Frames.{IsFrame, spelled_frame};
ghost use Rattle.wire_defs.specs.Links.{SameSending, SameReceiving, SendingLooked, ReceivingLooked};
ghost use Rattle.ship_defs.specs.Greeting.{IsBadToPrimary};
ghost use Rattle.receiver_server.specs.Answers.{answer_frame};
ghost use Rattle.session_handshake.specs.Answering.{Awaits, IsGreetedBy, left_to_ask};
ghost use Rattle.session_handshake.specs.Exchanges.{views, HaveLines, SameEnds, cuts_of, Carries, Gets};

use super::connection::GreetError;
use super::greeter::Greeter;
use super::outgoing::Outgoing;
use gvn_key::Bytes;
use gvn_model::History;
use receiver_server::Handshake;
use repl_link::{Cut, Ends, LinkRx, LinkTx, Linker};
use std::alloc::Global;

// A piece of the HELLO is sent, and what has come of it is read.
fn ask_step<T: LinkTx, R: LinkRx>(
    theirs: &History,
    hello: &mut Outgoing,
    greeter: &mut Greeter,
    tx: &mut T,
    rx: &mut R,
) -> Result<Option<Handshake>, GreetError>
    requires awaits { Awaits greeter.old.frames greeter.old.count }
    requires open { (R.receiving rx.old).closed ≡ false }
    ensures lines { (T.line tx.new ≡ T.line tx.old) × (R.line rx.new ≡ R.line rx.old) }
    ensures same_tx { SameSending (T.sending tx.old) (T.sending tx.new) }
    ensures same_rx { SameReceiving (R.receiving rx.old) (R.receiving rx.new) }
    ensures finished { (T.sending tx.new).finished ≡ (T.sending tx.old).finished }
    ensures sent { IsTrue (T.sending tx.old).told → (T.sending tx.new).sent ++ hello.new ≡ (T.sending tx.old).sent ++ hello.old }
    ensures awaits { IfOk result (λ o. o ≡ None → Awaits greeter.new.frames greeter.new.count) }
    ensures kept { IsTrue (R.receiving rx.old).shown → (R.receiving rx.old).received ≡ greeter.old.frames.rest → IfOk result (λ o. o ≡ None → (R.receiving rx.new).received ≡ greeter.new.frames.rest) }
    ensures greeted { IsTrue (R.receiving rx.old).shown → (R.receiving rx.old).received ≡ greeter.old.frames.rest
        → IfOk result (λ o. (h : Handshake) → o ≡ Some h → IsGreetedBy (history_value theirs.now) (R.receiving rx.new).received (answer_frame h)) }
    ensures bad { IsTrue (R.receiving rx.old).shown → (R.receiving rx.old).received ≡ greeter.old.frames.rest
        → IfErr result (λ e. (offset : ℕ) → e ≡ GreetError.BadFrame offset → IsBadToPrimary (R.receiving rx.new).received (R.receiving rx.new).closed offset) }
    ensures closed { OnOk result ((R.receiving rx.new).closed ≡ false) }
    ensures cut { (T.sending tx.old).cuts + (R.receiving rx.old).cuts ≡ 0 → IsErrOf result GreetError.Cut → (T.sending tx.new).cuts + (R.receiving rx.new).cuts ≡ 1 }
    ensures uncut { (IsErrOf result GreetError.Cut → ⊥) → ((T.sending tx.new).cuts ≡ (T.sending tx.old).cuts) × ((R.receiving rx.new).cuts ≡ (R.receiving rx.old).cuts) }
    ensures fewer { (told : Bool) → (T.sending tx.old).told ≡ told → (R.receiving rx.old).told ≡ told
        → (IsTrue told → ((0 < (T.sending tx.old).free) × (hello.old ≢ [])) ⊎ ((R.receiving rx.old).unread ≢ []))
        → IfOk result (λ o. o ≡ None →
        left_to_ask told hello.new greeter.new.frames.rest ((T.sending tx.new).patience + (R.receiving rx.new).patience)
        < left_to_ask told hello.old greeter.old.frames.rest ((T.sending tx.old).patience + (R.receiving rx.old).patience)) }
{
    match hello.send(tx) {
        Ok(()) => greeter.step(theirs, rx),
        Err(Cut) => Err(GreetError::Cut),
    }
}

// The same over the ends of one connection, which know all that is free or unread.
fn hello_turn<L: Linker>(
    links: &L,
    ends: &mut Ends<L::Tx, L::Rx>,
    theirs: &History,
    hello: &mut Outgoing,
    greeter: &mut Greeter,
) -> Result<Option<Handshake>, GreetError>
    requires lines { HaveLines L.Tx.line L.Rx.line ends.old }
    requires one { (L.Tx.sending ends.old.up_tx).connection ≡ (L.Tx.sending ends.old.down_tx).connection }
    requires frame { (f : defs.Frame) × IsFrame f × Carries (L.links links.now).told (spelled_frame f) (L.Tx.sending ends.old.down_tx) hello.old }
    requires gets { Gets (L.links links.now).told (L.links links.now).shown (L.Rx.receiving ends.old.up_rx) greeter.old.frames.rest }
    requires awaits { Awaits greeter.old.frames greeter.old.count }
    ensures lines { HaveLines L.Tx.line L.Rx.line ends.new }
    ensures same { SameEnds (views L.Tx.sending L.Rx.receiving ends.old) (views L.Tx.sending L.Rx.receiving ends.new) }
    ensures up_tx { SendingLooked (L.Tx.sending ends.old.up_tx) (L.Tx.sending ends.new.up_tx) }
    ensures down_rx { ReceivingLooked (L.Rx.receiving ends.old.down_rx) (L.Rx.receiving ends.new.down_rx) }
    ensures carries { (whole : List ℕ) → Carries (L.links links.now).told whole (L.Tx.sending ends.old.down_tx) hello.old → Carries (L.links links.now).told whole (L.Tx.sending ends.new.down_tx) hello.new }
    ensures awaits { IfOk result (λ o. o ≡ None → Awaits greeter.new.frames greeter.new.count) }
    ensures gets { IfOk result (λ o. o ≡ None → Gets (L.links links.now).told (L.links links.now).shown (L.Rx.receiving ends.new.up_rx) greeter.new.frames.rest) }
    ensures greeted { IsTrue (L.links links.now).shown → IfOk result (λ o. (h : Handshake) → o ≡ Some h → IsGreetedBy (history_value theirs.now) (L.Rx.receiving ends.new.up_rx).received (answer_frame h)) }
    ensures bad { IsTrue (L.links links.now).shown → IfErr result (λ e. (offset : ℕ) → e ≡ GreetError.BadFrame offset → IsBadToPrimary (L.Rx.receiving ends.new.up_rx).received (L.Rx.receiving ends.new.up_rx).closed offset) }
    ensures closed { OnOk result ((L.Rx.receiving ends.new.up_rx).closed ≡ false) }
    ensures cut { cuts_of (views L.Tx.sending L.Rx.receiving ends.old) ≡ 0 → IsErrOf result GreetError.Cut → cuts_of (views L.Tx.sending L.Rx.receiving ends.new) ≡ 1 }
    ensures uncut { (IsErrOf result GreetError.Cut → ⊥) → cuts_of (views L.Tx.sending L.Rx.receiving ends.new) ≡ cuts_of (views L.Tx.sending L.Rx.receiving ends.old) }
    ensures fewer { IfOk result (λ o. o ≡ None →
        left_to_ask (L.links links.now).told hello.new greeter.new.frames.rest ((L.Tx.sending ends.new.down_tx).patience + (L.Rx.receiving ends.new.up_rx).patience)
        < left_to_ask (L.links links.now).told hello.old greeter.old.frames.rest ((L.Tx.sending ends.old.down_tx).patience + (L.Rx.receiving ends.old.up_rx).patience)) }
{
    links.beside(ends);
    ask_step(theirs, hello, greeter, &mut ends.down_tx, &mut ends.up_rx)
}

// The primary reads the HELLO: what it answers.
pub(crate) fn ask<L: Linker>(
    alloc: Global,
    links: &L,
    ends: &mut Ends<L::Tx, L::Rx>,
    theirs: &History,
    hello: Bytes,
) -> Result<Handshake, GreetError>
    requires lines { HaveLines L.Tx.line L.Rx.line ends.old }
    requires one { (L.Tx.sending ends.old.up_tx).connection ≡ (L.Tx.sending ends.old.down_tx).connection }
    requires frame { (f : defs.Frame) × IsFrame f × (hello ≡ spelled_frame f) }
    requires carries { Carries (L.links links.now).told hello (L.Tx.sending ends.old.down_tx) hello }
    requires gets { Gets (L.links links.now).told (L.links links.now).shown (L.Rx.receiving ends.old.up_rx) [] }
    requires uncut { cuts_of (views L.Tx.sending L.Rx.receiving ends.old) ≡ 0 }
    ensures lines { HaveLines L.Tx.line L.Rx.line ends.new }
    ensures same { SameEnds (views L.Tx.sending L.Rx.receiving ends.old) (views L.Tx.sending L.Rx.receiving ends.new) }
    ensures up_tx { SendingLooked (L.Tx.sending ends.old.up_tx) (L.Tx.sending ends.new.up_tx) }
    ensures down_rx { ReceivingLooked (L.Rx.receiving ends.old.down_rx) (L.Rx.receiving ends.new.down_rx) }
    ensures carries { (left : List ℕ) × Carries (L.links links.now).told hello (L.Tx.sending ends.new.down_tx) left }
    ensures closed { OnOk result ((L.Rx.receiving ends.new.up_rx).closed ≡ false) }
    ensures greeted { IsTrue (L.links links.now).shown → IfOk result (λ h. IsGreetedBy (history_value theirs.now) (L.Rx.receiving ends.new.up_rx).received (answer_frame h)) }
    ensures bad { IsTrue (L.links links.now).shown → IfErr result (λ e. (offset : ℕ) → e ≡ GreetError.BadFrame offset → IsBadToPrimary (L.Rx.receiving ends.new.up_rx).received (L.Rx.receiving ends.new.up_rx).closed offset) }
    ensures cut { IsErrOf result GreetError.Cut → cuts_of (views L.Tx.sending L.Rx.receiving ends.new) ≡ 1 }
    ensures uncut { (IsErrOf result GreetError.Cut → ⊥) → cuts_of (views L.Tx.sending L.Rx.receiving ends.new) ≡ 0 }
{
    let mut outgoing = Outgoing::new(hello);
    let mut greeter = Greeter::new(alloc);
    loop {
        match hello_turn(links, ends, theirs, &mut outgoing, &mut greeter) {
            Ok(Some(answer)) => return Ok(answer),
            Ok(None) => {}
            Err(error) => return Err(error),
        }
    }
}
