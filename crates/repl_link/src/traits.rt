// The ends of links, and what makes them.
use thiserror::Error;

/// The connection is cut.
#[derive(Clone, Copy, Debug, PartialEq, Eq, Error)]
#[error("the link is cut")]
pub struct Cut;

/// Memory was refused.
#[derive(Clone, Copy, Debug, PartialEq, Eq, Error)]
#[error("out of memory")]
pub struct NoMemory;

/// Why a connection couldn't be made.
#[derive(Clone, Copy, Debug, PartialEq, Eq, Error)]
pub enum ConnectError {
    #[error("the link is cut")]
    Cut,
    #[error("out of memory")]
    NoMemory,
}

/// What a call of `receive` gave.
#[derive(Clone, Copy, Debug, PartialEq, Eq)]
pub enum Received {
    /// So many bytes, at least one, at the front of the buffer.
    Bytes(usize),
    /// Nothing yet.
    NotYet,
    /// The other side has finished, and all that it sent was received.
    Ended,
}

/// The end of a direction that sends.
pub trait LinkTx: Drop {
    /// What the two ends of one direction have in common.
    type Line;

    ghost use Rattle.std.specs.Prelude.{◌≡◌, ◌+◌, ◌<◌, ◌≤◌, ◌++◌, length, take, false, None, IsTrue, IsErr, IfOk, OnOk, OnErr};
    ghost use Rattle.std.specs.Result.{result_unwrap_or};
    ghost use Rattle.wire_defs.specs.Links.{Sending, SameSending, SendingLooked, IsReached, IsWithin, counted, patience_for};

    ghost line: { Self → Self.Line };

    ghost sending: { Self → Sending };

    /// Sends a beginning of a piece that isn't empty, and answers how many bytes were taken.
    fn send(&mut self, bytes: &[u8]) -> Result<usize, Cut>
        requires { 0 < length bytes.now }
        ensures line { line self.new ≡ line self.old }
        ensures same { SameSending (sending self.old) (sending self.new) }
        ensures taken { IfOk result (λ n. n ≤ length bytes.now) }
        ensures sent { IsTrue (sending self.old).told →
            (sending self.new).sent ≡ (sending self.old).sent ++ take (result_unwrap_or result 0) bytes.now }
        ensures within { IsTrue (sending self.old).told → IsWithin (sending self.new).order (sending self.new).sent }
        ensures free { IsTrue (sending self.old).told →
            (sending self.old).free ≤ (sending self.new).free + result_unwrap_or result 0 }

        // It never answers 0 where this end knows a free place.
        ensures some { IsTrue (sending self.old).told → 0 < (sending self.old).free → IfOk result (λ n. 0 < n) }

        // Where the link tells its bytes, Cut comes exactly where the order's bytes were sent.
        ensures cut_only { IsTrue (sending self.old).told → OnErr result (IsReached (sending self.old).order (sending self.old).sent) }
        ensures cut_there { IsTrue (sending self.old).told → IsReached (sending self.old).order (sending self.old).sent → IsErr result }
        ensures counted { OnErr result ((sending self.new).cuts ≡ counted (sending self.old).cuts 1) }
        ensures uncounted { OnOk result ((sending self.new).cuts ≡ (sending self.old).cuts) }
        ensures patience { (sending self.old).told ≡ false →
            IfOk result (λ n. (sending self.new).patience + patience_for n ≡ (sending self.old).patience) }
        ensures finished { (sending self.new).finished ≡ (sending self.old).finished };

    /// Ends the sending. From then on this end knows no free place.
    fn finish(&mut self)
        ensures line { line self.new ≡ line self.old }
        ensures same { SameSending (sending self.old) (sending self.new) }
        ensures sent { (sending self.new).sent ≡ (sending self.old).sent }
        ensures cuts { (sending self.new).cuts ≡ (sending self.old).cuts }
        ensures patience { (sending self.new).patience ≡ (sending self.old).patience }
        ensures finished { IsTrue (sending self.old).told → IsTrue (sending self.new).finished }
        ensures free { IsTrue (sending self.old).told → (sending self.new).free ≡ 0 };

    /// How often this end was found cut.
    fn cuts(&self) -> u64
        ensures { result ≡ (sending self.now).cuts };

    // An end that has ended the sending knows no free place.
    ghost spent: { (t : Self) → IsTrue (sending t).told → IsTrue (sending t).finished → (sending t).free ≡ 0 };

    // An end that tells its bytes was never found cut without an order.
    ghost ordered: { (t : Self) → IsTrue (sending t).told → (sending t).order ≡ None → (sending t).cuts ≡ 0 };
}

/// The end of a direction that receives.
pub trait LinkRx: Drop {
    /// What the two ends of one direction have in common.
    type Line;

    ghost use Rattle.std.specs.Prelude.{◌≡◌, ◌+◌, ◌<◌, ◌≤◌, ◌++◌, ◌||◌, [], length, take, false, None, IsTrue, IsErr, OnOk, OnErr};
    ghost use Rattle.global_defs.specs.Prefix.{IsPrefix};
    ghost use Rattle.wire_defs.specs.Links.{Receiving, SameReceiving, IsReached, IsWithin, counted};
    ghost use Rattle.repl_link.specs.Answers.{bytes_got, IfBytes, OnNotYet, OnEnded, is_ended, patience_cost};

    ghost line: { Self → Self.Line };

    ghost receiving: { Self → Receiving };

    /// Fills the front of a buffer that isn't empty.
    fn receive(&mut self, buffer: &mut [u8]) -> Result<Received, Cut>
        requires { 0 < length buffer.old }
        ensures line { line self.new ≡ line self.old }
        ensures same { SameReceiving (receiving self.old) (receiving self.new) }
        ensures count { IfBytes result (λ n. (0 < n) × (n ≤ length buffer.old)) }
        ensures received { IsTrue (receiving self.old).shown →
            (receiving self.new).received ≡ (receiving self.old).received ++ take (bytes_got result) buffer.new }
        ensures within { IsTrue (receiving self.old).told → IsWithin (receiving self.new).order (receiving self.new).received }

        // What this end knew it still knows, but for what was received.
        ensures unread { IsTrue (receiving self.old).told →
            IsPrefix (receiving self.old).unread (take (bytes_got result) buffer.new ++ (receiving self.new).unread) }
        ensures ended { IsTrue (receiving self.old).told → IsTrue (receiving self.old).ended → IsTrue (receiving self.new).ended }
        ensures whole { IsTrue (receiving self.old).told → IsTrue (receiving self.old).ended →
            take (bytes_got result) buffer.new ++ (receiving self.new).unread ≡ (receiving self.old).unread }

        // NotYet never comes where this end knows an unread byte or the end.
        ensures not_yet { IsTrue (receiving self.old).told →
            OnNotYet result (((receiving self.old).unread ≡ []) × ((receiving self.old).ended ≡ false)) }
        ensures at_end { IsTrue (receiving self.old).told →
            OnEnded result (((receiving self.new).unread ≡ []) × IsTrue (receiving self.new).ended) }
        ensures closed { (receiving self.new).closed ≡ ((receiving self.old).closed || is_ended result) }

        // Where the link tells its bytes, Cut comes exactly where the order's bytes were received.
        ensures cut_only { IsTrue (receiving self.old).told →
            OnErr result (IsReached (receiving self.old).order (receiving self.old).received) }
        ensures cut_there { IsTrue (receiving self.old).told →
            IsReached (receiving self.old).order (receiving self.old).received → IsErr result }
        ensures counted { OnErr result ((receiving self.new).cuts ≡ counted (receiving self.old).cuts 1) }
        ensures uncounted { OnOk result ((receiving self.new).cuts ≡ (receiving self.old).cuts) }
        ensures patience { (receiving self.old).told ≡ false →
            OnOk result ((receiving self.new).patience + patience_cost result ≡ (receiving self.old).patience) };

    /// How often this end was found cut.
    fn cuts(&self) -> u64
        ensures { result ≡ (receiving self.now).cuts };

    // Where an end tells its bytes, contracts see those received, and once it has answered the end, nothing is unread.
    ghost shows: { (r : Self) → IsTrue (receiving r).told → IsTrue (receiving r).shown };

    ghost over: { (r : Self) → IsTrue (receiving r).told → IsTrue (receiving r).closed →
        IsTrue (receiving r).ended × ((receiving r).unread ≡ []) };

    // An end that tells its bytes was never found cut without an order.
    ghost ordered: { (r : Self) → IsTrue (receiving r).told → (receiving r).order ≡ None → (receiving r).cuts ≡ 0 };
}

/// The four ends of a connection. The primary has the two that are called `up`: `up_tx` carries bytes to `down_rx`, and
/// `down_tx` to `up_rx`.
#[derive(Drop)]
pub struct Ends<T, R> {
    pub up_tx: T,
    pub up_rx: R,
    pub down_tx: T,
    pub down_rx: R,
}

/// What makes connections. A session is the place of the secondary among the run's sites, from 0.
pub trait Linker {
    /// What the two ends of one direction have in common.
    type Line;

    type Tx: LinkTx<Line = Self::Line> + Send;

    type Rx: LinkRx<Line = Self::Line> + Send;

    ghost use Rattle.std.specs.Prelude.{◌≡◌, true, false, None, [], ◌∷◌, ◌++◌, IsTrue, IfOk, IfErr, OnOk, OnErr};
    ghost use Rattle.repl_link.specs.declared.traits.ConnectError.TheVariants.{Cut};
    ghost use Rattle.wire_defs.specs.Links.{Linking, first_order, IsNewDirection, SameLinks, OrderAdded, ConnectionMade, CutsAdded, SendingLooked, ReceivingLooked, KnowAll, Carries, all_cuts, past_of, cut_at_once};
    ghost use Rattle.repl_link.specs.Answers.{OnCut, OnNoMemory};

    ghost links: { Self → Linking };

    /// Whether orders to cut may be given.
    fn simulated(&self) -> bool
        ensures { result ≡ (links self.now).simulated };

    /// How often connections of the session were cut.
    fn cuts(&self, session: u32) -> u64
        ensures { result ≡ (links self.now).cuts session };

    /// Orders that one more connection of the session is cut after so many bytes from its primary.
    fn cut_after(&mut self, session: u32, bytes: u64) -> Result<(), NoMemory>
        ensures added { IsTrue (links self.old).simulated → OnOk result (OrderAdded (links self.old) (links self.new) session bytes) }
        ensures refused { OnErr result (SameLinks (links self.old) (links self.new)) }
        ensures still { (links self.old).simulated ≡ false → SameLinks (links self.old) (links self.new) };

    /// Makes a connection of the session. It uses up the session's first order to cut.
    fn connect(&mut self, session: u32) -> Result<Ends<Self::Tx, Self::Rx>, ConnectError>
        ensures lines { IfOk result (λ e. (Self.Tx.line e.up_tx ≡ Self.Rx.line e.down_rx) × (Self.Tx.line e.down_tx ≡ Self.Rx.line e.up_rx)) }
        ensures from_primary { IfOk result (λ e. IsNewDirection (links self.old) session (first_order ((links self.old).orders session))
            (Self.Tx.sending e.up_tx) (Self.Rx.receiving e.down_rx)) }
        ensures to_primary { IfOk result (λ e. IsNewDirection (links self.old) session None
            (Self.Tx.sending e.down_tx) (Self.Rx.receiving e.up_rx)) }
        ensures made { OnOk result (ConnectionMade (links self.old) (links self.new) session) }

        // Where links tell their bytes, Cut never comes.
        ensures cut { OnCut result (((links self.old).told ≡ false) × CutsAdded (links self.old) (links self.new) session 1) }
        ensures past { OnCut result ((links self.new).past ≡ (links self.old).past ++ cut_at_once session ∷ []) }
        ensures refused { OnNoMemory result (SameLinks (links self.old) (links self.new)) };

    /// Lets each of the four ends of one connection know all that is free or unread in its ring.
    fn beside(&self, ends: &mut Ends<Self::Tx, Self::Rx>)
        requires lines { (Self.Tx.line ends.old.up_tx ≡ Self.Rx.line ends.old.down_rx) × (Self.Tx.line ends.old.down_tx ≡ Self.Rx.line ends.old.up_rx) }
        requires one { (Self.Tx.sending ends.old.up_tx).connection ≡ (Self.Tx.sending ends.old.down_tx).connection }
        ensures tx_lines { (Self.Tx.line ends.new.up_tx ≡ Self.Tx.line ends.old.up_tx) × (Self.Tx.line ends.new.down_tx ≡ Self.Tx.line ends.old.down_tx) }
        ensures rx_lines { (Self.Rx.line ends.new.up_rx ≡ Self.Rx.line ends.old.up_rx) × (Self.Rx.line ends.new.down_rx ≡ Self.Rx.line ends.old.down_rx) }
        ensures up_tx { SendingLooked (Self.Tx.sending ends.old.up_tx) (Self.Tx.sending ends.new.up_tx) }
        ensures up_rx { ReceivingLooked (Self.Rx.receiving ends.old.up_rx) (Self.Rx.receiving ends.new.up_rx) }
        ensures down_tx { SendingLooked (Self.Tx.sending ends.old.down_tx) (Self.Tx.sending ends.new.down_tx) }
        ensures down_rx { ReceivingLooked (Self.Rx.receiving ends.old.down_rx) (Self.Rx.receiving ends.new.down_rx) }
        ensures from_primary { IsTrue (links self.now).told → KnowAll (Self.Tx.sending ends.new.up_tx) (Self.Rx.receiving ends.new.down_rx) }
        ensures to_primary { IsTrue (links self.now).told → KnowAll (Self.Tx.sending ends.new.down_tx) (Self.Rx.receiving ends.new.up_rx) };

    /// Lets the two ends of one direction know all that is free or unread in its ring.
    fn look(&self, tx: &mut Self::Tx, rx: &mut Self::Rx)
        requires line { Self.Tx.line tx.old ≡ Self.Rx.line rx.old }
        ensures lines { (Self.Tx.line tx.new ≡ Self.Tx.line tx.old) × (Self.Rx.line rx.new ≡ Self.Rx.line rx.old) }
        ensures tx { SendingLooked (Self.Tx.sending tx.old) (Self.Tx.sending tx.new) }
        ensures rx { ReceivingLooked (Self.Rx.receiving rx.old) (Self.Rx.receiving rx.new) }
        ensures all { IsTrue (links self.now).told → KnowAll (Self.Tx.sending tx.new) (Self.Rx.receiving rx.new) };

    /// Takes the four ends of one connection back, and adds their cuts to those of their session. What they received, and what
    /// ends they answered, is kept for contracts, and takes no memory.
    fn settle(&mut self, session: u32, ends: Ends<Self::Tx, Self::Rx>)
        requires lines { (Self.Tx.line ends.up_tx ≡ Self.Rx.line ends.down_rx) × (Self.Tx.line ends.down_tx ≡ Self.Rx.line ends.up_rx) }
        requires one { (Self.Tx.sending ends.up_tx).connection ≡ (Self.Tx.sending ends.down_tx).connection }
        requires own_tx { ((Self.Tx.sending ends.up_tx).session ≡ session) × ((Self.Tx.sending ends.down_tx).session ≡ session) }
        requires own_rx { ((Self.Rx.receiving ends.up_rx).session ≡ session) × ((Self.Rx.receiving ends.down_rx).session ≡ session) }
        ensures from_primary { IsTrue (links self.old).told → Carries (Self.Tx.sending ends.up_tx) (Self.Rx.receiving ends.down_rx) }
        ensures to_primary { IsTrue (links self.old).told → Carries (Self.Tx.sending ends.down_tx) (Self.Rx.receiving ends.up_rx) }
        ensures cuts { CutsAdded (links self.old) (links self.new) session (all_cuts (Self.Tx.sending ends.up_tx)
            (Self.Rx.receiving ends.up_rx) (Self.Tx.sending ends.down_tx) (Self.Rx.receiving ends.down_rx)) }
        ensures past { (links self.new).past ≡ (links self.old).past ++ past_of session (Self.Tx.sending ends.up_tx)
            (Self.Rx.receiving ends.up_rx) (Self.Tx.sending ends.down_tx) (Self.Rx.receiving ends.down_rx) ∷ [] };

    // Where links tell their bytes, contracts see those received.
    ghost lawful: { (l : Self) → IsTrue (links l).told → IsTrue (links l).shown };
}
