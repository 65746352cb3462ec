// What makes links in memory.
ghost use Rattle.std.specs.Prelude.{◌≡◌, [], ◌<◌, None, length, IfOk, IfErr, IfSome, false};
ghost use Rattle.rtrb.specs.Ring.{sent, received, known_free, known_items};
ghost use Rattle.wire_defs.specs.Links.{SendingLooked, ReceivingLooked, KnowAll};
ghost use Rattle.repl_link.specs.MemEnds.{tx_line, rx_line, mem_sending, mem_receiving};

use crate::items::{Item, Line, MarkLast};
use crate::limits::PIECE;
use crate::log::Log;
use crate::mem_rx::MemRx;
use crate::mem_tx::MemTx;
use crate::traits::{ConnectError, Ends, Linker, NoMemory};
use rtrb::RingBuffer;
use std::alloc::Global;
use std::collections::VecDeque;

// How many bytes a ring holds, and one mark of their end.
const PLACES: usize = 4096 + 1;

// How many sessions there are: a run has at most 8 sites.
const SESSIONS: u32 = 8;

/// Makes links in memory, for the 8 sessions that a run can have. Each direction is a ring that holds 4,096 bytes.
#[derive(Drop)]
pub struct MemLinker {
    alloc: Global,
    pub(crate) made: u64,
    // Of each session: how often its connections were cut.
    pub(crate) cuts: [u64; 8],
    // Of each session: after how many bytes its next connections are to be cut.
    pub(crate) orders: [VecDeque<u64>; 8],
    pub(crate) log: Log,
}

// Room for the items that one call moves.
fn piece(alloc: Global) -> Option<Vec<Item>>
    ensures { IfSome result (λ made. length made.items ≡ 4096) }
{
    Vec::from_slice(alloc, &[Item::end(); PIECE]).ok()
}

// A direction of a new connection.
fn direction(alloc: Global, session: u32, connection: u64) -> Result<(MemTx, MemRx), ConnectError>
    requires { session < 8 }
    ensures line { IfOk result (λ e. tx_line e.0 ≡ rx_line e.1) }
    ensures sessions { IfOk result (λ e. (e.0.session ≡ session) × (e.1.session ≡ session)) }
    ensures connections { IfOk result (λ e. (e.0.connection ≡ connection) × (e.1.connection ≡ connection)) }
    ensures orders { IfOk result (λ e. (e.0.left ≡ None) × (e.1.left ≡ None)) }
    ensures cuts { IfOk result (λ e. (e.0.cuts ≡ 0) × (e.1.cuts ≡ 0)) }
    ensures open { IfOk result (λ e. (e.0.finished ≡ false) × (e.1.ended ≡ false) × (e.1.closed ≡ false)) }
    ensures tx { IfOk result (λ e. (sent e.0.ring ≡ []) × (known_free e.0.ring ≡ 4097)) }
    ensures rx { IfOk result (λ e. (received e.1.ring ≡ []) × (known_items e.1.ring ≡ [])) }
    ensures no_cut { IfErr result (λ e. e ≡ ConnectError.NoMemory) }
{
    let Ok((producer, consumer)) = RingBuffer::with_protocol::<Global, MarkLast>(alloc, PLACES)
    else {
        return Err(ConnectError::NoMemory);
    };
    let (Some(made), Some(taken)) = (piece(alloc), piece(alloc)) else {
        return Err(ConnectError::NoMemory);
    };
    Ok((
        MemTx {
            session,
            connection,
            left: None,
            cuts: 0,
            finished: false,
            ring: producer,
            items: made,
        },
        MemRx {
            session,
            connection,
            left: None,
            cuts: 0,
            ended: false,
            closed: false,
            ring: consumer,
            items: taken,
        },
    ))
}

// Both ends then know all that is free or unread.
fn look(tx: &mut MemTx, rx: &mut MemRx)
    requires { tx_line tx.old ≡ rx_line rx.old }
    ensures line { (tx_line tx.new ≡ tx_line tx.old) × (rx_line rx.new ≡ rx_line rx.old) }
    ensures tx { SendingLooked (mem_sending tx.old) (mem_sending tx.new) }
    ensures rx { ReceivingLooked (mem_receiving rx.old) (mem_receiving rx.new) }
    ensures all { KnowAll (mem_sending tx.new) (mem_receiving rx.new) }
{
    tx.ring.slots_beside(&mut rx.ring);
    rx.ring.slots_beside(&mut tx.ring);
}

impl MemLinker {
    ghost use Rattle.std.specs.Prelude.{◌≡◌, ℕ, []};
    ghost use Rattle.repl_link.specs.MemLinks.{mem_linking};

    /// A linker that has made no connection and has no orders.
    pub fn new(alloc: Global) -> MemLinker
        ensures made { (mem_linking result).made ≡ 0 }
        ensures cuts { (s : ℕ) → (mem_linking result).cuts s ≡ 0 }
        ensures orders { (s : ℕ) → (mem_linking result).orders s ≡ [] }
        ensures past { (mem_linking result).past ≡ [] }
    {
        MemLinker {
            alloc,
            made: 0,
            cuts: [0; 8],
            orders: [
                VecDeque::new(alloc),
                VecDeque::new(alloc),
                VecDeque::new(alloc),
                VecDeque::new(alloc),
                VecDeque::new(alloc),
                VecDeque::new(alloc),
                VecDeque::new(alloc),
                VecDeque::new(alloc),
            ],
            log: Log::new(),
        }
    }
}

impl Linker for MemLinker {
    ghost use Rattle.std.specs.Prelude.{◌≡◌, [], ◌∷◌, ◌++◌, IsTrue, refl};
    ghost use Rattle.wire_defs.specs.Links.{Carries, CutsAdded, all_cuts, past_of};
    ghost use Rattle.repl_link.specs.MemEnds.{tx_line, rx_line, mem_sending, mem_receiving};
    ghost use Rattle.repl_link.specs.MemLinks.{mem_linking};

    type Line = Line;

    type Tx = MemTx;

    type Rx = MemRx;

    ghost links = { λ l. mem_linking l };

    ghost lawful = { λ l told. refl };

    fn simulated(&self) -> bool {
        true
    }

    fn cuts(&self, session: u32) -> u64 {
        self.cuts.get(session as usize).copied().unwrap_or(0)
    }

    fn cut_after(&mut self, session: u32, bytes: u64) -> Result<(), NoMemory> {
        if session >= SESSIONS {
            return Err(NoMemory);
        }
        if self.orders[session as usize].push_back(bytes).is_err() {
            return Err(NoMemory);
        }
        Ok(())
    }

    fn connect(&mut self, session: u32) -> Result<Ends<MemTx, MemRx>, ConnectError> {
        if session >= SESSIONS || self.made == u64::MAX {
            return Err(ConnectError::NoMemory);
        }
        let (mut up_tx, mut down_rx) = direction(self.alloc, session, self.made)?;
        let (down_tx, up_rx) = direction(self.alloc, session, self.made)?;
        let order = self.orders[session as usize].pop_front();
        up_tx.left = order;
        down_rx.left = order;
        self.made += 1;
        Ok(Ends {
            up_tx,
            up_rx,
            down_tx,
            down_rx,
        })
    }

    fn beside(&self, ends: &mut Ends<MemTx, MemRx>) {
        look(&mut ends.up_tx, &mut ends.down_rx);
        look(&mut ends.down_tx, &mut ends.up_rx);
    }

    fn look(&self, tx: &mut MemTx, rx: &mut MemRx) {
        look(tx, rx);
    }

    fn settle(&mut self, session: u32, ends: Ends<MemTx, MemRx>)
        requires lines { (tx_line ends.up_tx ≡ rx_line ends.down_rx) × (tx_line ends.down_tx ≡ rx_line ends.up_rx) }
        requires one { ends.up_tx.connection ≡ ends.down_tx.connection }
        requires own_tx { (ends.up_tx.session ≡ session) × (ends.down_tx.session ≡ session) }
        requires own_rx { (ends.up_rx.session ≡ session) × (ends.down_rx.session ≡ session) }
        ensures from_primary { IsTrue (mem_linking self.old).told → Carries (mem_sending ends.up_tx) (mem_receiving ends.down_rx) }
        ensures to_primary { IsTrue (mem_linking self.old).told → Carries (mem_sending ends.down_tx) (mem_receiving ends.up_rx) }
        ensures cuts { CutsAdded (mem_linking self.old) (mem_linking self.new) session (all_cuts (mem_sending ends.up_tx)
            (mem_receiving ends.up_rx) (mem_sending ends.down_tx) (mem_receiving ends.down_rx)) }
        ensures past { (mem_linking self.new).past ≡ (mem_linking self.old).past ++ past_of session (mem_sending ends.up_tx)
            (mem_receiving ends.up_rx) (mem_sending ends.down_tx) (mem_receiving ends.down_rx) ∷ [] }
    {
        let mut ends = ends;
        self.beside(&mut ends);
        let up = ends.up_tx.cuts.saturating_add(ends.up_rx.cuts);
        let down = ends.down_tx.cuts.saturating_add(ends.down_rx.cuts);
        let place = session as usize;
        self.cuts[place] = self.cuts[place].saturating_add(up.saturating_add(down));
        self.log = self.log.with(session, &ends);
    }
}
