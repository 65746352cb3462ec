// A connection is begun.
ghost use Rattle.std.specs.Prelude.{◌≡◌, ◌⊎◌, ◌<◌, ◌≤◌, ◌^◌, [], ◌∷◌, length, false, true, List, ℕ, IsTrue, IfOk, IfErr, OnOk, IsErrOf};
ghost use Rattle.std.specs.List.{AllByRecursion};
ghost use Rattle.global_defs.specs.declared.limits.TheConstants.{NUMBERS_END};
ghost use Rattle.global_defs.specs.Fields.{IsReign, IsSiteName};
ghost use Rattle.gvn_model.specs.Entries.{history_value};
ghost use Rattle.wire_defs.specs.Frames.{Frame, spelled_frame};
ghost use Rattle.wire_defs.specs.Links.{Past, was_cut, Linking};
ghost use Rattle.ship_defs.specs.Hearing.{Over, unbegun};
ghost use Rattle.ship_defs.specs.Greeting.{IsHello, IsAnswer, IsBadToPrimary, GreetsWith, carried, greeting};
ghost use Rattle.recv_pool.specs.Pools.{put_in, taken, free, IsPool};
ghost use Rattle.receiver_server.specs.Hearings.{purpose_value, behind};
ghost use Rattle.receiver_server.specs.Answers.{answer_frame};
ghost use Rattle.receiver_server.specs.Listenings.{IsHearing, IsQuiet};
ghost use Rattle.session_handshake.specs.Answering.{AwaitsAnswer, HasAnswer};
ghost use Rattle.session_handshake.specs.Exchanges.{views, HaveLines, SameEnds, cuts_of, HasAsked, HasAnswered, HasBadAnswer};
ghost use Rattle.session_handshake.specs.Connections.{WereMade, IsOpen, IsBegun, IsBadOver};

use super::exchange::exchange;
use super::hello::hello;
use gvn_key::{Bytes, NoMemory};
use gvn_model::History;
use receiver_server::{Handshake, Purpose, Receiver};
use recv_pool::{PoolIn, PoolOut, make};
use repl_link::{ConnectError, Ends, Linker};
use std::alloc::Global;

/// Why a connection wasn't begun. Its ends were given back.
#[derive(Clone, Copy, Debug, PartialEq, Eq)]
pub enum GreetError {
    /// The connection was cut.
    Cut,
    /// The bytes that the primary received, or those that the secondary did, have no admissible frame there.
    BadFrame {
        /// Where it would begin.
        offset: u64,
    },
    /// Memory was refused.
    NoMemory,
}

impl From<NoMemory> for GreetError {
    ghost use Rattle.std.specs.Prelude.{◌≡◌};
    ghost use Rattle.session_handshake.specs.declared.connection.GreetError.TheVariants as errors;

    ghost from_gives = { λ _ e. e ≡ errors.NoMemory };

    fn from(_: NoMemory) -> Self {
        GreetError::NoMemory
    }
}

/// A connection over which a primary has answered its secondary's HELLO.
#[derive(Drop)]
pub struct Greeted<T, R> {
    /// What the secondary heard.
    pub answer: Handshake,
    /// The connection's ends.
    pub ends: Ends<T, R>,
    /// The secondary, behind the answer.
    pub hearing: Hearing,
}

/// What a secondary has on one connection.
#[derive(Drop)]
pub struct Hearing {
    /// Its Receiver Server.
    pub receiver: Receiver,
    /// The end of its receive pool at the Receiver Server.
    pub into: PoolIn,
    /// The end at the Update Process.
    pub out: PoolOut,
}

// How many entries a receive pool holds: each is applied before the next is heard.
const PLACES: usize = 1;

// A secondary with that history, before a connection's first byte.
fn begin_hearing(alloc: Global, mine: &History, purpose: Purpose) -> Result<Hearing, NoMemory>
    requires few { mine.now.length < NUMBERS_END }
    requires form { AllByRecursion IsReign (history_value mine.now).reigns }
    ensures purpose { IfOk result (λ h. h.receiver.purpose ≡ purpose_value purpose) }
    ensures begun { IfOk result (λ h. h.receiver.heard ≡ unbegun (history_value mine.now)) }
    ensures awaits { IfOk result (λ h. AwaitsAnswer h.receiver true [] (put_in h.into) (free h.into)) }
    ensures pool { IfOk result (λ h. IsPool h.into h.out × (taken h.out ≡ [])) }
{
    let receiver = Receiver::new(alloc, mine, purpose)?;
    let (into, out) = make(alloc, PLACES)?;
    Ok(Hearing {
        receiver,
        into,
        out,
    })
}

// Makes a connection of the session.
fn connect<L: Linker>(links: &mut L, session: u32) -> Result<Ends<L::Tx, L::Rx>, GreetError>
    ensures lines { IfOk result (λ e. HaveLines L.Tx.line L.Rx.line e) }
    ensures begun { IfOk result (λ e. IsBegun (L.links links.old) (L.links links.new) session (views L.Tx.sending L.Rx.receiving e)) }
    ensures cut { IsErrOf result GreetError.Cut → (p : Past) × WereMade (L.links links.old) (L.links links.new) session (p ∷ []) × IsTrue (was_cut p) }
    ensures good { IfErr result (λ e. (offset : ℕ) → e ≡ GreetError.BadFrame offset → ⊥) }
    ensures memory { IsErrOf result GreetError.NoMemory → WereMade (L.links links.old) (L.links links.new) session [] }
{
    match links.connect(session) {
        Ok(ends) => Ok(ends),
        Err(ConnectError::Cut) => Err(GreetError::Cut),
        Err(ConnectError::NoMemory) => Err(GreetError::NoMemory),
    }
}

// Exchanges HELLO and its answer over a new connection.
fn talk<L: Linker>(
    alloc: Global,
    theirs: &History,
    mine: &History,
    name: &Bytes,
    links: &L,
    ends: &mut Ends<L::Tx, L::Rx>,
    hearing: &mut Hearing,
) -> Result<Handshake, GreetError>
    requires few { mine.now.length < NUMBERS_END }
    requires form { AllByRecursion IsReign (history_value mine.now).reigns }
    requires name { IsSiteName name.now }
    requires lines { HaveLines L.Tx.line L.Rx.line ends.old }
    requires begun { (from : Linking) × (session : ℕ) × IsBegun from (L.links links.now) session (views L.Tx.sending L.Rx.receiving ends.old) }
    requires unbegun { hearing.old.receiver.heard ≡ unbegun (history_value mine.now) }
    requires awaits { AwaitsAnswer hearing.old.receiver true [] (put_in hearing.old.into) (free hearing.old.into) }
    ensures lines { HaveLines L.Tx.line L.Rx.line ends.new }
    ensures same { SameEnds (views L.Tx.sending L.Rx.receiving ends.old) (views L.Tx.sending L.Rx.receiving ends.new) }
    ensures pool { IsPool hearing.old.into hearing.old.out → IsPool hearing.new.into hearing.new.out }
    ensures out { hearing.new.out ≡ hearing.old.out }
    ensures purpose { hearing.new.receiver.purpose ≡ hearing.old.receiver.purpose }
    ensures heard { IfOk result (λ h. HasAnswer (unbegun (history_value mine.now)) hearing.new.receiver (L.links links.now).shown (L.Rx.receiving ends.new.down_rx).received (put_in hearing.new.into) (free hearing.new.into) h) }
    ensures over { OnOk result (hearing.new.receiver.heard.last ≡ Over → IsQuiet hearing.new.receiver) }
    ensures closed { OnOk result ((L.Rx.receiving ends.new.down_rx).closed ≡ false) }
    ensures asks { OnOk result (HasAsked (greeting name.now (history_value mine.now)) (L.links links.now).told (views L.Tx.sending L.Rx.receiving ends.new)) }
    ensures answered { OnOk result ((answer : Handshake) × HasAnswered (history_value theirs.now) (L.links links.now).told (L.links links.now).shown (views L.Tx.sending L.Rx.receiving ends.new) answer) }
    ensures bad { IfErr result (λ e. (offset : ℕ) → e ≡ GreetError.BadFrame offset → HasAsked (greeting name.now (history_value mine.now)) (L.links links.now).told (views L.Tx.sending L.Rx.receiving ends.new)
        × (IsTrue (L.links links.now).shown → IsBadToPrimary (L.Rx.receiving ends.new.up_rx).received (L.Rx.receiving ends.new.up_rx).closed offset
        ⊎ HasBadAnswer (history_value theirs.now) (L.links links.now).told (L.links links.now).shown hearing.old.receiver.purpose (unbegun (history_value mine.now)) (views L.Tx.sending L.Rx.receiving ends.new) offset)) }
    ensures cut { IsErrOf result GreetError.Cut → cuts_of (views L.Tx.sending L.Rx.receiving ends.new) ≡ 1 }
    ensures uncut { (IsErrOf result GreetError.Cut → ⊥) → cuts_of (views L.Tx.sending L.Rx.receiving ends.new) ≡ 0 }
{
    let hello = match hello(alloc, name, mine) {
        Ok(hello) => hello,
        Err(NoMemory) => return Err(GreetError::NoMemory),
    };
    exchange(
        alloc,
        links,
        ends,
        theirs,
        hello,
        &mut hearing.receiver,
        &mut hearing.into,
    )
}

/// Makes a connection of the session, and exchanges HELLO and its answer over it. `theirs` is the primary's history; `mine` and `name`
/// are the secondary's. Where it fails the connection is given back.
pub fn greet<L: Linker>(
    alloc: Global,
    theirs: &History,
    mine: &History,
    name: &Bytes,
    purpose: Purpose,
    links: &mut L,
    session: u32,
) -> Result<Greeted<L::Tx, L::Rx>, GreetError>
    requires few { mine.now.length < NUMBERS_END }
    requires form { AllByRecursion IsReign (history_value mine.now).reigns }
    requires name { IsSiteName name.now }
    ensures pool { IfOk result (λ g. IsPool g.hearing.into g.hearing.out × (taken g.hearing.out ≡ [])) }
    ensures unput { IsTrue (L.links links.old).shown → IfOk result (λ g. put_in g.hearing.into ≡ []) }
    ensures lines { IfOk result (λ g. (L.Tx.line g.ends.up_tx ≡ L.Rx.line g.ends.down_rx) × (L.Tx.line g.ends.down_tx ≡ L.Rx.line g.ends.up_rx)) }
    ensures open { IfOk result (λ g. IsOpen (L.links links.old) (L.links links.new) session (views L.Tx.sending L.Rx.receiving g.ends)) }
    ensures purpose { IfOk result (λ g. g.hearing.receiver.purpose ≡ purpose_value purpose) }
    ensures heard { IfOk result (λ g. g.hearing.receiver.heard ≡ behind (purpose_value purpose) (unbegun (history_value mine.now)) (answer_frame g.answer)) }
    ensures fresh { IfOk result (λ g. g.hearing.receiver.incoming.fresh ≡ []) }
    // what came to the primary is a HELLO, and what came to the secondary begins with the answer, or is all of it where it is the last frame
    ensures greeted { IsTrue (L.links links.old).shown → IfOk result (λ g. (hello : Frame) × GreetsWith (L.Rx.receiving g.ends.up_rx).received hello) }
    ensures hears { IsTrue (L.links links.old).shown → IfOk result (λ g. IsHearing (unbegun (history_value mine.now)) g.hearing.receiver (L.Rx.receiving g.ends.down_rx).received [] (answer_frame g.answer ∷ [])) }
    ensures over { IfOk result (λ g. g.hearing.receiver.heard.last ≡ Over → IsQuiet g.hearing.receiver) }
    // where links tell their bytes, the secondary's HELLO is admitted, and the answer is the primary's to it
    ensures hello { IsTrue (L.links links.old).told → OnOk result (IsHello (greeting name.now (history_value mine.now))) }
    ensures answer { IsTrue (L.links links.old).told → IfOk result (λ g. IsAnswer (history_value theirs.now) (carried (history_value mine.now)) (answer_frame g.answer)) }
    ensures sent { IsTrue (L.links links.old).told → IfOk result (λ g. (L.Tx.sending g.ends.up_tx).sent ≡ spelled_frame (answer_frame g.answer)) }
    ensures cut { IsErrOf result GreetError.Cut → (p : Past) × WereMade (L.links links.old) (L.links links.new) session (p ∷ []) × IsTrue (was_cut p) }
    ensures bad { IfErr result (λ e. (offset : ℕ) → e ≡ GreetError.BadFrame offset → (p : Past) × WereMade (L.links links.old) (L.links links.new) session (p ∷ []) × (was_cut p ≡ false)
        × (IsTrue (L.links links.old).shown → IsBadOver (purpose_value purpose) (history_value mine.now) p offset)) }
    ensures bad_told { IsTrue (L.links links.old).told → IfErr result (λ e. (offset : ℕ) → e ≡ GreetError.BadFrame offset → (offset ≡ 0) × (IsHello (greeting name.now (history_value mine.now)) → ⊥)) }
    ensures memory { IsErrOf result GreetError.NoMemory → (over : List Past) × WereMade (L.links links.old) (L.links links.new) session over × AllByRecursion (λ p. was_cut p ≡ false) over × (length over ≤ 1) }
{
    let mut hearing = match begin_hearing(alloc, mine, purpose) {
        Ok(hearing) => hearing,
        Err(NoMemory) => return Err(GreetError::NoMemory),
    };
    let mut ends = match connect(links, session) {
        Ok(ends) => ends,
        Err(error) => return Err(error),
    };
    match talk(alloc, theirs, mine, name, links, &mut ends, &mut hearing) {
        Ok(answer) => {
            links.beside(&mut ends);
            Ok(Greeted {
                answer,
                ends,
                hearing,
            })
        }
        Err(error) => {
            links.settle(session, ends);
            Err(error)
        }
    }
}
