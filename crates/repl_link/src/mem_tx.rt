// The end of a link in memory that sends.
ghost use Rattle.std.specs.Prelude.{◌≡◌, ◌<◌, ◌≤◌, length, false, None};
ghost use Rattle.rtrb.specs.Ring.{sent as items_sent, known_free, producer_capacity, SameProducer};
ghost use Rattle.repl_link.specs.Items.{has_end};

use crate::items::{Item, Line, MarkLast, fill};
use crate::limits::{PIECE, at_most, less};
use crate::traits::{Cut, LinkTx};
use rtrb::Producer;
use std::alloc::Global;

/// Sends over a ring in memory. It tells its bytes.
#[derive(Drop)]
pub struct MemTx {
    pub(crate) session: u32,
    pub(crate) connection: u64,
    // How many bytes it may still take before the cut, where there is an order to cut.
    pub(crate) left: Option<u64>,
    pub(crate) cuts: u64,
    pub(crate) finished: bool,
    pub(crate) ring: Producer<Item, Global, MarkLast>,
    // Where items are made that are put into the ring.
    pub(crate) items: Vec<Item>,
    ghost places: { producer_capacity ring ≡ 4097 },
    ghost piece: { length items.items ≡ 4096 },
    ghost session_in_range: { session < 8 },
    ghost ends: { has_end (items_sent ring) ≡ finished },
    ghost room: { finished ≡ false → 0 < known_free ring },
    ghost ordered: { left ≡ None → cuts ≡ 0 },
}

impl MemTx {
    // How many of so many bytes there is room for, beside the mark of the end.
    fn room_for(&mut self, wanted: usize) -> usize
        requires { self.old.finished ≡ false }
        ensures same { (self.new.session ≡ self.old.session) × (self.new.connection ≡ self.old.connection) }
        ensures ring { SameProducer self.old.ring self.new.ring }
        ensures items { self.new.items ≡ self.old.items }
        ensures counts { (self.new.left ≡ self.old.left) × (self.new.cuts ≡ self.old.cuts) × (self.new.finished ≡ self.old.finished) }
        ensures sent { items_sent self.new.ring ≡ items_sent self.old.ring }
        ensures free { known_free self.old.ring ≤ known_free self.new.ring }
        ensures fits { (result ≤ wanted) × (result < known_free self.new.ring) }
        ensures some { 0 < wanted → 1 < known_free self.old.ring → 0 < result }
    {
        if self.ring.cached_slots() > wanted {
            return wanted;
        }
        wanted.min(self.ring.slots() - 1)
    }
}

impl LinkTx for MemTx {
    type Line = Line;

    ghost use Rattle.std.specs.Prelude.{◌-◌};
    ghost use Rattle.rtrb.specs.Ring.{known_free};
    ghost use Rattle.repl_link.specs.EndLaws.{no_place_free, none_left};
    ghost use Rattle.repl_link.specs.MemEnds.{tx_line, mem_sending};

    ghost line = { λ t. tx_line t };

    ghost sending = { λ t. mem_sending t };

    ghost spent = { λ t told finished. no_place_free t.finished (known_free t.ring - 1) finished };

    ghost ordered = { λ t told none. t.ordered (none_left _ t.left none) };

    fn send(&mut self, bytes: &[u8]) -> Result<usize, Cut> {
        if self.left == Some(0) {
            self.cuts = self.cuts.saturating_add(1);
            return Err(Cut);
        }
        if self.finished {
            return Ok(0);
        }
        let wanted = at_most(self.left, bytes.len().min(PIECE));
        let count = self.room_for(wanted);
        fill(&mut self.items, &bytes[..count]);
        let (sent, _) = self.ring.push_partial_slice(&self.items[..count]);
        let sent = sent.len();
        self.left = less(self.left, sent);
        Ok(sent)
    }

    fn finish(&mut self) {
        if !self.finished {
            self.ring.push_reserved(Item::end());
            self.finished = true;
        }
    }

    fn cuts(&self) -> u64 {
        self.cuts
    }
}
