// The end of a link in memory that receives.
ghost use Rattle.std.specs.Prelude.{◌≡◌, ◌<◌, ◌≤◌, ◌++◌, [], length, take, false, IsTrue, None};
ghost use mathlib.Core.List.{IsPrefix as BeginsWith};
ghost use Rattle.rtrb.specs.Ring.{received as items_received, known_items, SameConsumer};
ghost use Rattle.repl_link.specs.Items.{has_end, EndsLast, Drained};

use crate::items::{Item, Line, MarkLast, copy_bytes};
use crate::limits::{PIECE, at_most, less};
use crate::traits::{Cut, LinkRx, Received};
use core::mem::replace_with;
use rtrb::Consumer;
use std::alloc::Global;
use std::mem;

/// Receives over a ring in memory. It tells its bytes.
#[derive(Drop)]
pub struct MemRx {
    pub(crate) session: u32,
    pub(crate) connection: u64,
    // How many bytes it may still give before the cut, where there is an order to cut.
    pub(crate) left: Option<u64>,
    pub(crate) cuts: u64,
    // Whether the mark behind the last byte was taken out of the ring, and whether `receive` has answered so.
    pub(crate) ended: bool,
    pub(crate) closed: bool,
    pub(crate) ring: Consumer<Item, Global, MarkLast>,
    // Where items are put that were taken out of the ring.
    pub(crate) items: Vec<Item>,
    ghost session_in_range: { session < 8 },
    ghost ends: { has_end (items_received ring) ≡ ended },
    ghost places: { length items.items ≡ 4096 },
    ghost over: { IsTrue closed → IsTrue ended },
    ghost ordered: { left ≡ None → cuts ≡ 0 },
}

// Pops as many items as there are, and so many at most.
fn pop_front(ring: &mut Consumer<Item, Global, MarkLast>, items: &mut [Item], most: usize) -> usize
    requires { most ≤ length items.old }
    ensures ring { SameConsumer ring.old ring.new }
    ensures count { result ≤ most }
    ensures received { items_received ring.new ≡ items_received ring.old ++ take result items.new }
    ensures known { BeginsWith (known_items ring.old) (take result items.new ++ known_items ring.new) }
    ensures most { result < most → length (known_items ring.new) ≡ 0 }
    ensures last { EndsLast (take result items.new) }
{
    ring.pop_partial_slice(&mut items[..most])
}

// The same, which takes the ring by value, so that the loop over its places keeps their address.
fn pop_most(
    mut ring: Consumer<Item, Global, MarkLast>,
    places: (Vec<Item>, usize),
) -> (Consumer<Item, Global, MarkLast>, (Vec<Item>, usize))
    requires { places.1 ≤ length places.0.items }
    ensures ring { SameConsumer ring result.0 }
    ensures items { length result.1.0.items ≡ length places.0.items }
    ensures count { result.1.1 ≤ places.1 }
    ensures received { items_received result.0 ≡ items_received ring ++ take result.1.1 result.1.0.items }
    ensures known { BeginsWith (known_items ring) (take result.1.1 result.1.0.items ++ known_items result.0) }
    ensures most { result.1.1 < places.1 → length (known_items result.0) ≡ 0 }
    ensures last { EndsLast (take result.1.1 result.1.0.items) }
{
    let (mut items, most) = places;
    let count = pop_front(&mut ring, &mut items, most);
    (ring, (items, count))
}

// Pops as many items as there are, and so many at most, and copies their bytes: the list of items, how many bytes there are, and whether the
// end follows them.
fn drain(
    ring: &mut Consumer<Item, Global, MarkLast>,
    items: Vec<Item>,
    most: usize,
    buffer: &mut [u8],
) -> (Vec<Item>, usize, bool)
    requires some { 0 < most }
    requires items { most ≤ length items.items }
    requires buffer { most ≤ length buffer.old }
    ensures ring { SameConsumer ring.old ring.new }
    ensures items { length result.0.items ≡ length items.items }
    ensures count { result.1 ≤ most }
    ensures drained { Drained (items_received ring.old) (items_received ring.new) (known_items ring.old) (known_items ring.new) (take result.1 buffer.new) result.2 }
    ensures bytes { result.1 ≡ length (take result.1 buffer.new) }
    ensures nothing { result.1 ≡ 0 → result.2 ≡ false → known_items ring.old ≡ [] }
{
    let (items, popped) = replace_with(ring, (items, most), pop_most);
    let count = copy_bytes(&items[..popped], buffer);
    (items, count, count < popped)
}

impl MemRx {
    ghost use Rattle.std.specs.Prelude.{◌≡◌, ◌≢◌, ◌<◌, ◌≤◌, ◌++◌, [], length, take, false, IsTrue, Some};
    ghost use Rattle.global_defs.specs.Prefix.{IsPrefix};
    ghost use Rattle.wire_defs.specs.Links.{SameReceiving, IsWithin};
    ghost use Rattle.repl_link.specs.MemEnds.{rx_line, mem_receiving};

    // Takes what there is out of the ring, and answers how many bytes came.
    fn pull(&mut self, buffer: &mut [u8]) -> usize
        requires buffer { 0 < length buffer.old }
        requires open { self.old.ended ≡ false }
        requires left { self.old.left ≢ Some 0 }
        ensures line { rx_line self.new ≡ rx_line self.old }
        ensures same { SameReceiving (mem_receiving self.old) (mem_receiving self.new) }
        ensures cuts { self.new.cuts ≡ self.old.cuts }
        ensures closed { self.new.closed ≡ self.old.closed }
        ensures count { result ≤ length buffer.old }
        ensures received { (mem_receiving self.new).received ≡ (mem_receiving self.old).received ++ take result buffer.new }
        ensures within { IsWithin (mem_receiving self.new).order (mem_receiving self.new).received }
        ensures unread { IsPrefix (mem_receiving self.old).unread (take result buffer.new ++ (mem_receiving self.new).unread) }
        ensures ended { IsTrue (mem_receiving self.old).ended → IsTrue (mem_receiving self.new).ended }
        ensures whole { IsTrue (mem_receiving self.old).ended → take result buffer.new ++ (mem_receiving self.new).unread ≡ (mem_receiving self.old).unread }
        ensures at_end { IsTrue self.new.ended → ((mem_receiving self.new).unread ≡ []) × IsTrue (mem_receiving self.new).ended }
        ensures nothing { result ≡ 0 → self.new.ended ≡ false → ((mem_receiving self.old).unread ≡ []) × ((mem_receiving self.old).ended ≡ false) }
    {
        let most = at_most(self.left, buffer.len().min(PIECE));
        let none = Vec::new(*self.items.allocator());
        let items = mem::replace(&mut self.items, none);
        let (items, count, ended) = drain(&mut self.ring, items, most, buffer);
        self.items = items;
        self.ended = ended;
        self.left = less(self.left, count);
        count
    }
}

impl LinkRx for MemRx {
    type Line = Line;

    ghost use Rattle.std.specs.Prelude.{refl};
    ghost use Rattle.rtrb.specs.Ring.{received as items_received, known_items};
    ghost use Rattle.repl_link.specs.EndLaws.{all_was_read, none_left};
    ghost use Rattle.repl_link.specs.MemEnds.{rx_line, mem_receiving};

    ghost line = { λ r. rx_line r };

    ghost receiving = { λ r. mem_receiving r };

    ghost shows = { λ r told. refl };

    ghost over = { λ r told closed. all_was_read (items_received r.ring) (known_items r.ring) r.ended r.ends (r.over closed) };

    ghost ordered = { λ r told none. r.ordered (none_left _ r.left none) };

    fn receive(&mut self, buffer: &mut [u8]) -> Result<Received, Cut> {
        if self.left == Some(0) {
            self.cuts = self.cuts.saturating_add(1);
            return Err(Cut);
        }
        if self.ended {
            self.closed = true;
            return Ok(Received::Ended);
        }
        let count = self.pull(buffer);
        if count > 0 {
            return Ok(Received::Bytes(count));
        }
        if !self.ended {
            return Ok(Received::NotYet);
        }
        self.closed = true;
        Ok(Received::Ended)
    }

    fn cuts(&self) -> u64 {
        self.cuts
    }
}
