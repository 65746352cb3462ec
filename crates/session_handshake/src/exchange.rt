// HELLO and its answer, over the ends of one connection.
ghost use Rattle.std.specs.Prelude.{◌≡◌, ◌⊎◌, ◌<◌, ◌^◌, [], ℕ, List, false, IsTrue, IfOk, IfErr, OnOk, IsErrOf};
ghost use Rattle.gvn_model.specs.Entries.{history_value};
ghost use Rattle.wire_defs.specs.Frames as defs;
ghost use Rattle.wire_defs.specs.Frames.{IsFrame, spelled_frame};
ghost use Rattle.ship_defs.specs.Greeting.{IsBadToPrimary};
ghost use Rattle.ship_defs.specs.Hearing.{Unbegun, Over};
ghost use Rattle.recv_pool.specs.Pools.{put_in, free, SameIn};
ghost use Rattle.receiver_server.specs.Listenings.{listening, IsHearing, IsQuiet};
ghost use Rattle.session_handshake.specs.Answering.{AwaitsAnswer, HasAnswer};
ghost use Rattle.session_handshake.specs.Exchanges.{views, HaveLines, SameEnds, cuts_of, Carries, Gets, HasAnswered, HasBadAnswer};

use super::answer::answer_bytes;
use super::asking::ask;
use super::connection::GreetError;
use super::hearing::{close, hear};
use gvn_key::{Bytes, NoMemory};
use gvn_model::History;
use receiver_server::{Handshake, Receiver};
use recv_pool::PoolIn;
use repl_link::{Ends, Linker};
use std::alloc::Global;

// The HELLO goes to the primary, and the answer to the secondary.
pub(crate) fn exchange<L: Linker>(
    alloc: Global,
    links: &L,
    ends: &mut Ends<L::Tx, L::Rx>,
    theirs: &History,
    hello: Bytes,
    receiver: &mut Receiver,
    pool: &mut PoolIn,
) -> Result<Handshake, GreetError>
    requires lines { HaveLines L.Tx.line L.Rx.line ends.old }
    requires one { (L.Tx.sending ends.old.up_tx).connection ≡ (L.Tx.sending ends.old.down_tx).connection }
    requires frame { (f : defs.Frame) × IsFrame f × (hello ≡ spelled_frame f) }
    requires carries { Carries (L.links links.now).told hello (L.Tx.sending ends.old.down_tx) hello }
    requires idle { Carries (L.links links.now).told [] (L.Tx.sending ends.old.up_tx) [] }
    requires to_primary { Gets (L.links links.now).told (L.links links.now).shown (L.Rx.receiving ends.old.up_rx) [] }
    requires to_secondary { Gets (L.links links.now).told (L.links links.now).shown (L.Rx.receiving ends.old.down_rx) [] }
    requires awaits { AwaitsAnswer receiver.old (L.links links.now).shown [] (put_in pool.old) (free pool.old) }
    requires uncut { cuts_of (views L.Tx.sending L.Rx.receiving ends.old) ≡ 0 }
    ensures lines { HaveLines L.Tx.line L.Rx.line ends.new }
    ensures same { SameEnds (views L.Tx.sending L.Rx.receiving ends.old) (views L.Tx.sending L.Rx.receiving ends.new) }
    ensures carries { (left : List ℕ) × Carries (L.links links.now).told hello (L.Tx.sending ends.new.down_tx) left }
    ensures pool { SameIn pool.old pool.new }
    ensures purpose { receiver.new.purpose ≡ receiver.old.purpose }
    ensures heard { IfOk result (λ h. HasAnswer receiver.old.heard receiver.new (L.links links.now).shown (L.Rx.receiving ends.new.down_rx).received (put_in pool.new) (free pool.new) h) }
    ensures over { OnOk result (receiver.new.heard.last ≡ Over → IsQuiet receiver.new) }
    ensures closed { OnOk result ((L.Rx.receiving ends.new.down_rx).closed ≡ false) }
    ensures answered { OnOk result ((answer : Handshake) × HasAnswered (history_value theirs.now) (L.links links.now).told (L.links links.now).shown (views L.Tx.sending L.Rx.receiving ends.new) answer) }
    ensures bad { IsTrue (L.links links.now).shown → IfErr result (λ e. (offset : ℕ) → e ≡ GreetError.BadFrame offset
        → IsBadToPrimary (L.Rx.receiving ends.new.up_rx).received (L.Rx.receiving ends.new.up_rx).closed offset
        ⊎ HasBadAnswer (history_value theirs.now) (L.links links.now).told (L.links links.now).shown receiver.old.purpose receiver.old.heard (views L.Tx.sending L.Rx.receiving ends.new) offset) }
    ensures cut { IsErrOf result GreetError.Cut → cuts_of (views L.Tx.sending L.Rx.receiving ends.new) ≡ 1 }
    ensures uncut { (IsErrOf result GreetError.Cut → ⊥) → cuts_of (views L.Tx.sending L.Rx.receiving ends.new) ≡ 0 }
{
    let answer = match ask(alloc, links, ends, theirs, hello) {
        Ok(answer) => answer,
        Err(error) => return Err(error),
    };
    let bytes = match Bytes::of(alloc, &answer_bytes(answer)) {
        Ok(bytes) => bytes,
        Err(NoMemory) => return Err(GreetError::NoMemory),
    };
    let heard = match hear(links, ends, bytes, receiver, pool) {
        Ok(heard) => heard,
        Err(error) => return Err(error),
    };
    match close(receiver, pool, &mut ends.down_rx) {
        Ok(()) => Ok(heard),
        Err(error) => Err(error),
    }
}
