//! A reader, which copies an entry out of the pool while the writer may overwrite it.
ghost use Rattle.std.specs.Prelude.{◌≡◌, ℕ, ◌+◌, ◌*◌, ◌/◌, ◌^◌, ◌<◌, ◌≤◌, List, [], ◌∷◌, ◌++◌, length, vec_len, vec_capacity, max};
ghost use Rattle.std.specs.Int.{w64, to_be_bytes};
ghost use Rattle.wire_defs.specs.PoolWords.{unpacked, IsAt};
ghost use Rattle.pool_rule.specs.Seats.{Knowing};
ghost use Rattle.jnl_pool.specs.Pooling.{After};
ghost use Rattle.jnl_pool.specs.Holds.{Fetched, addressed};

use crate::answer::ReadAnswer;
use crate::pool::Pool;
use pool_rule::table::{PoolTable, ReaderSeat};
use std::marker::Model;

/// Reads the entries of a pool one after another, from its place on.
#[derive(Drop)]
pub struct Reader {
    seat: ReaderSeat,
    place: u64,
    size: u64,
    bytes: Vec<u8>,
}

impl Model for Reader {
    ghost use Rattle.std.specs.Prelude.{vec_capacity};
    ghost use Rattle.jnl_pool.specs.Pooling.{Reading};
    ghost use Rattle.jnl_pool.specs.Holds.{ReaderKeeps};

    ghost Value = { Reading };

    ghost view = { λ r. record {
      table = r.seat.table;
      size = r.size;
      place = r.place;
      next = r.seat.view.next;
      hard = r.seat.view.hard;
      claim = r.seat.view.claim;
      hard_loads = r.seat.view.hard_loads;
      claim_loads = r.seat.view.claim_loads;
      told = r.seat.view.hardened;
      got = r.seat.view.got;
      notes = r.seat.view.notes;
      bytes = r.bytes.items;
    } };

    ghost invariant = { λ r. ReaderKeeps r.seat.view r.size r.place (vec_capacity r.bytes) };
}

// Appends the eight bytes of a word, the highest first.
fn push_word(bytes: &mut Vec<u8>, word: u64)
    requires room { vec_len bytes.old + 8 ≤ vec_capacity bytes.old }
    ensures items { bytes.new.items ≡ bytes.old.items ++ to_be_bytes w64 word }
    ensures len { vec_len bytes.new ≡ vec_len bytes.old + 8 }
    ensures capacity { vec_capacity bytes.new ≡ vec_capacity bytes.old }
{
    let [a, b, c, d, e, f, g, h] = word.to_be_bytes();
    bytes.push_reserved(a);
    bytes.push_reserved(b);
    bytes.push_reserved(c);
    bytes.push_reserved(d);
    bytes.push_reserved(e);
    bytes.push_reserved(f);
    bytes.push_reserved(g);
    bytes.push_reserved(h);
}

// Loads so many words from `from` on, and appends their bytes.
fn copy(table: &PoolTable, seat: &mut ReaderSeat, bytes: &mut Vec<u8>, from: u64, count: u64)
    requires table { seat.old.table ≡ table.now.table }
    requires range { from + count ≤ seat.old.view.hard }
    requires fits { from + count < 2 ^ 64 }
    requires room { vec_len bytes.old + 8 * count ≤ vec_capacity bytes.old }
    ensures table { seat.new.table ≡ seat.old.table }
    ensures words { (body : List ℕ) × (length body ≡ count) × (bytes.new.items ≡ bytes.old.items ++ unpacked body) × (seat.new.view ≡ record seat.old.view { held = seat.old.view.held ++ addressed from body }) }
    ensures capacity { vec_capacity bytes.new ≡ vec_capacity bytes.old }
{
    for i in 0..count {
        let word = table.load_word(seat, from + i);
        push_word(bytes, word);
    }
}

// Loads the words of the entry at the reader's place and has its bytes, or loads its first two words where it has more than
// `most`.
fn fetch(
    table: &PoolTable,
    seat: &mut ReaderSeat,
    bytes: &mut Vec<u8>,
    place: u64,
    most: u64,
) -> bool
    requires table { seat.old.table ≡ table.now.table }
    requires held { seat.old.view.held ≡ [] }
    requires range { (place + most ≤ seat.old.view.hard) × (place + most < 2 ^ 64) }
    requires room { (2 ≤ most) × (8 * most ≤ vec_capacity bytes.old) }
    ensures table { seat.new.table ≡ seat.old.table }
    ensures fetched { Fetched seat.old.view seat.new.view place most bytes.new.items result }
    ensures capacity { vec_capacity bytes.new ≡ vec_capacity bytes.old }
{
    bytes.clear();
    table.load_word(seat, place);
    let len = table.load_word(seat, place + 1);
    let body = len.div_ceil(8);
    if body > most - 2 {
        return false;
    }
    copy(table, seat, bytes, place + 2, body);
    bytes.truncate(len as usize);
    true
}

impl Reader {
    pub(crate) fn new(seat: ReaderSeat, size: u64, bytes: Vec<u8>) -> Reader
        requires seat { (seat.view.place ≡ 0) × (seat.view.held ≡ []) × (seat.view.size ≡ size) }
        requires size { (16 ≤ size) × (size ≤ 1048576) }
        requires bytes { (bytes.items ≡ []) × (8 * size ≤ vec_capacity bytes) }
        ensures same { (result.table ≡ seat.table) × (result.size ≡ size) × (result.place ≡ 0) × (result.next ≡ seat.view.next) × (result.bytes ≡ []) }
        ensures loads { (result.hard ≡ seat.view.hard) × (result.claim ≡ seat.view.claim) × (result.hard_loads ≡ seat.view.hard_loads) × (result.claim_loads ≡ seat.view.claim_loads) }
        ensures told { result.told ≡ seat.view.hardened }
        ensures lists { (result.got ≡ seat.view.got) × (result.notes ≡ seat.view.notes) }
    {
        Reader {
            seat,
            place: 0,
            size,
            bytes,
        }
    }

    pub(crate) fn into_seat(self) -> ReaderSeat
        ensures lists { (result.table ≡ self.table) × (result.view.got ≡ self.got) × (result.view.notes ≡ self.notes) }
        ensures counts { (result.view.hardened ≡ self.told) × (result.view.hard ≡ self.hard) × (result.view.claim ≡ self.claim) }
    {
        let Reader { seat, .. } = self;
        seat
    }

    // Takes a note of the writer's list, is told its hardened count, and moves to the entry of this number.
    pub(crate) fn move_to(&mut self, table: &PoolTable, note: ReaderSeat, place: u64, number: u64)
        requires table { (self.old.table ≡ table.now.table) × (note.table ≡ table.now.table) }
        requires place { IsAt note.view.first note.view.entries place number }
        ensures { self.new ≡ record self.old { place = place; next = number; told = max self.old.told note.view.hardened; notes = self.old.notes ++ note.view.entries ∷ [] } }
    {
        let _ = number;
        table.note(&mut self.seat, note, place);
        self.place = place;
    }

    // Takes a note of the writer's list, and is told its hardened count.
    pub(crate) fn take_note(&mut self, table: &PoolTable, note: ReaderSeat)
        requires table { (self.old.table ≡ table.now.table) × (note.table ≡ table.now.table) }
        ensures { self.new ≡ record self.old { told = max self.old.told note.view.hardened; notes = self.old.notes ++ note.view.entries ∷ [] } }
    {
        table.note(&mut self.seat, note, self.place);
    }

    /// Loads the hardened count, copies the next entry, and loads the claimed count: these two alone say what it answers.
    /// After `Overwritten` the reader has no bytes. A count that is loaded is never less than it was, and the hardened count
    /// never less than the writer told.
    pub fn read(&mut self, pool: &Pool) -> ReadAnswer
        requires pool { self.old.table ≡ pool.now.table }
        ensures answer { After self.old self.new result }
        ensures later { (self.old.hard ≤ self.new.hard) × (self.old.claim ≤ self.new.claim) }
        ensures told { self.old.told ≤ self.new.hard }
    {
        let hard = pool.table.load_hard(&mut self.seat);
        if hard <= self.place {
            return ReadAnswer::NotYet;
        }
        let most = (hard - self.place).min(self.size);
        fetch(
            &pool.table,
            &mut self.seat,
            &mut self.bytes,
            self.place,
            most,
        );
        let claim = pool.table.load_claim(&mut self.seat);
        if claim > self.place.saturating_add(self.size) {
            self.bytes.clear();
            return ReadAnswer::Overwritten;
        }
        self.place += 2 + (self.bytes.len() as u64).div_ceil(8);
        ReadAnswer::Got
    }

    /// The bytes of the entry that was got last.
    pub fn bytes(&self) -> &[u8]
        ensures { result.now ≡ self.now.bytes }
    {
        self.bytes.as_slice()
    }
}
