// A primary is asked.
ghost use Rattle.std.specs.Prelude.{◌≡◌, ◌↔◌, ◌+◌, ◌<◌, ◌≤◌, ◌^◌, [], ◌∷◌, length, ℕ, IsTrue, IfOk, IfErr, OnOk, IsErrOf, count_by};
ghost use Rattle.std.specs.List.{AllByRecursion};
ghost use Rattle.global_defs.specs.declared.limits.TheConstants.{NUMBERS_END};
ghost use Rattle.global_defs.specs.Fields.{IsReign, IsSiteName};
ghost use Rattle.gvn_model.specs.Entries.{history_value};
ghost use Rattle.wire_defs.specs.Links.{Linking, was_cut, past_since};
ghost use Rattle.ship_defs.specs.Greeting.{IsHello, IsAnswer, carried, greeting};
ghost use Rattle.receiver_server.specs.Answers.{answer_frame};
ghost use Rattle.session_handshake.specs.Exchanges.{views, HaveLines};
ghost use Rattle.session_handshake.specs.Connections.{WereMade, IsOpen, Met, past_of_views};

use super::connection::{GreetError, Greeted, greet};
use gvn_key::{Bytes, NoMemory};
use gvn_model::History;
use receiver_server::{Handshake, Purpose};
use repl_link::{LinkTx, Linker};
use std::alloc::Global;

/// Why a session ended without an answer.
#[derive(Clone, Copy, Debug, PartialEq, Eq)]
pub enum SessionError {
    /// Four connections were cut.
    LinkCut,
    /// The bytes that the primary received, or those that the secondary did, have no admissible frame there.
    BadFrame {
        /// Where it would begin.
        offset: u64,
    },
    /// Memory was refused.
    NoMemory,
}

impl From<NoMemory> for SessionError {
    ghost use Rattle.std.specs.Prelude.{◌≡◌};
    ghost use Rattle.session_handshake.specs.declared.session.SessionError.TheVariants as errors;

    ghost from_gives = { λ _ e. e ≡ errors.NoMemory };

    fn from(_: NoMemory) -> Self {
        SessionError::NoMemory
    }
}

// How many connections of a session may be cut in one command.
const MOST_CUTS: u64 = 4;

// The ends of an answered connection are given back.
fn settled<L: Linker>(greeted: Greeted<L::Tx, L::Rx>, links: &mut L, session: u32) -> Handshake
    requires lines { HaveLines L.Tx.line L.Rx.line greeted.ends }
    requires open { (from : Linking) × IsOpen from (L.links links.old) session (views L.Tx.sending L.Rx.receiving greeted.ends) }
    ensures answer { result ≡ greeted.answer }
    ensures made { (from : Linking) → IsOpen from (L.links links.old) session (views L.Tx.sending L.Rx.receiving greeted.ends) → WereMade from (L.links links.new) session (past_of_views session (views L.Tx.sending L.Rx.receiving greeted.ends) ∷ []) }
{
    let Greeted {
        answer,
        mut ends,
        ..
    } = greeted;
    ends.up_tx.finish();
    links.settle(session, ends);
    answer
}

/// Asks a primary from which number on its entries follow. `theirs` is the primary's history; `mine` and `name` are the secondary's.
/// Connections that are cut are made anew, until four were cut. The connections are given back.
pub fn handshake<L: Linker>(
    alloc: Global,
    theirs: &History,
    mine: &History,
    name: &Bytes,
    links: &mut L,
    session: u32,
) -> Result<Handshake, SessionError>
    requires few { mine.now.length < NUMBERS_END }
    requires form { AllByRecursion IsReign (history_value mine.now).reigns }
    requires name { IsSiteName name.now }
    // the session's connections alone were made, and given back
    ensures made { WereMade (L.links links.old) (L.links links.new) session (past_since (L.links links.old) (L.links links.new) session) }
    // what the primary and the secondary received over the last one tells the answer, or where it is bad
    ensures met { Met (L.links links.old).shown (history_value mine.now) result (past_since (L.links links.old) (L.links links.new) session) }
    ensures link_cut { IsErrOf result SessionError.LinkCut ↔ (count_by was_cut (past_since (L.links links.old) (L.links links.new) session) ≡ 4) }
    // each but the last was cut
    ensures in_turn { length (past_since (L.links links.old) (L.links links.new) session) ≤ count_by was_cut (past_since (L.links links.old) (L.links links.new) session) + 1 }
    ensures cut_off { IsErrOf result SessionError.LinkCut → length (past_since (L.links links.old) (L.links links.new) session) ≡ 4 }
    ensures answered { OnOk result (length (past_since (L.links links.old) (L.links links.new) session) ≡ count_by was_cut (past_since (L.links links.old) (L.links links.new) session) + 1) }
    ensures bad_last { IfErr result (λ e. (offset : ℕ) → e ≡ SessionError.BadFrame offset
        → length (past_since (L.links links.old) (L.links links.new) session) ≡ count_by was_cut (past_since (L.links links.old) (L.links links.new) session) + 1) }
    // where links tell their bytes, the answer is the primary's to the secondary's HELLO, and this alone can be bad
    ensures hello { IsTrue (L.links links.old).told → OnOk result (IsHello (greeting name.now (history_value mine.now))) }
    ensures answer { IsTrue (L.links links.old).told → IfOk result (λ h. IsAnswer (history_value theirs.now) (carried (history_value mine.now)) (answer_frame h)) }
    ensures bad_told { IsTrue (L.links links.old).told → IfErr result (λ e. (offset : ℕ) → e ≡ SessionError.BadFrame offset → (offset ≡ 0) × (IsHello (greeting name.now (history_value mine.now)) → ⊥)) }
{
    let mut cuts = 0;
    while cuts < MOST_CUTS {
        match greet(alloc, theirs, mine, name, Purpose::Asks, links, session) {
            Ok(greeted) => return Ok(settled(greeted, links, session)),
            Err(GreetError::Cut) => cuts += 1,
            Err(GreetError::BadFrame { offset }) => return Err(SessionError::BadFrame { offset }),
            Err(GreetError::NoMemory) => return Err(SessionError::NoMemory),
        }
    }
    Err(SessionError::LinkCut)
}
