//! The writer, of which a pool has one.
ghost use Rattle.std.specs.Prelude.{◌≡◌, ℕ, ◌+◌, ◌-◌, ◌*◌, ◌/◌, ◌^◌, ◌<◌, ◌≤◌, ◌↔◌, [], ◌∷◌, ◌++◌, length, slice_index, vec_len, vec_capacity, replicate, All, IfSome, IfNone, IsTrue, true, false, max};
ghost use Rattle.global_defs.specs.declared.limits.TheConstants.{NUMBERS_END};
ghost use Rattle.wire_defs.specs.PoolWords.{words_from, word_of, packed, StartsWith};
ghost use Rattle.pool_rule.specs.Rule.{Each, IsEntryBelow, writer};
ghost use Rattle.jnl_pool.specs.Pooling.{claimed, hard_count, new_reader, next_number, place_at, CanAnchor, anchored, IsHardenedEntry, IsNoteOf};

use crate::pool::Pool;
use crate::reader::Reader;
use pool_rule::table::{PoolTable, ReaderSeat, WriterSeat};
use std::marker::Model;

/// Puts entries into a pool, and hardens what was put.
#[derive(Drop)]
pub struct Writer {
    seat: WriterSeat,
    size: u64,
    first: u64,
    // The number of the next entry, its place, which is the claimed count, and how many entries are hardened.
    number: u64,
    place: u64,
    hardened: u64,
    // The place of the entry of number n stands at n modulo its length.
    starts: Vec<u64>,
}

impl Model for Writer {
    ghost use Rattle.jnl_pool.specs.Pooling.{Writing};
    ghost use Rattle.jnl_pool.specs.Holds.{WriterKeeps};

    ghost Value = { Writing };

    ghost view = { λ w. record { table = w.seat.table; size = w.size; first = w.first; entries = w.seat.view.entries; hardened = w.hardened } };

    ghost invariant = { λ w. WriterKeeps w.seat.view w.size w.first w.number w.place w.hardened w.starts.items };
}

// The byte there, or 0 past the end.
fn byte_at(bytes: &[u8], at: usize) -> u8
    ensures { result ≡ slice_index bytes.now at }
{
    bytes.get(at).copied().unwrap_or(0)
}

// The word of this index in words of 8 bytes, the last filled with zeros.
fn word_at(bytes: &[u8], index: usize) -> u64
    requires { 8 * index + 8 < 2 ^ 64 }
    ensures { result ≡ word_of (slice_index bytes.now (8 * index)) (slice_index bytes.now (8 * index + 1)) (slice_index bytes.now (8 * index + 2)) (slice_index bytes.now (8 * index + 3)) (slice_index bytes.now (8 * index + 4)) (slice_index bytes.now (8 * index + 5)) (slice_index bytes.now (8 * index + 6)) (slice_index bytes.now (8 * index + 7)) }
{
    let at = 8 * index;
    u64::from_be_bytes([
        byte_at(bytes, at),
        byte_at(bytes, at + 1),
        byte_at(bytes, at + 2),
        byte_at(bytes, at + 3),
        byte_at(bytes, at + 4),
        byte_at(bytes, at + 5),
        byte_at(bytes, at + 6),
        byte_at(bytes, at + 7),
    ])
}

// Stores the words of the bytes from `from` on.
fn store_body(table: &PoolTable, seat: &mut WriterSeat, bytes: &[u8], from: u64, count: u64)
    requires table { seat.old.table ≡ table.now.table }
    requires next { from ≡ seat.old.view.written }
    requires count { (count ≡ length (packed bytes.now)) × (8 * count + 8 < 2 ^ 64) }
    requires claimed { from + count ≤ length (words_from seat.old.view.first seat.old.view.entries) }
    requires words { (k : ℕ) → k < count → slice_index (words_from seat.old.view.first seat.old.view.entries) (from + k) ≡ slice_index (packed bytes.now) k }
    requires fits { from + count < 2 ^ 64 }
    ensures table { seat.new.table ≡ seat.old.table }
    ensures view { seat.new.view ≡ record seat.old.view { written = from + count } }
{
    for i in 0..count {
        let word = word_at(bytes, i as usize);
        table.store(seat, from + i, word);
    }
}

impl Writer {
    pub(crate) fn new(seat: WriterSeat, size: u64, first: u64, starts: Vec<u64>) -> Writer
        requires seat { seat.view ≡ writer size first }
        requires size { (16 ≤ size) × (size ≤ 1048576) }
        requires starts { vec_len starts ≡ size / 2 }
        ensures { result ≡ record { table = seat.table; size = size; first = first; entries = []; hardened = 0 } }
    {
        Writer {
            seat,
            size,
            first,
            number: first,
            place: 0,
            hardened: 0,
            starts,
        }
    }

    /// Puts an entry with the next number: claims its words, and then stores them.
    pub fn put(&mut self, pool: &Pool, bytes: &[u8])
        requires pool { self.old.table ≡ pool.now.table }
        requires number { next_number self.old < NUMBERS_END }
        requires bytes { length bytes.now ≤ 1048576 }
        ensures { self.new ≡ record self.old { entries = self.old.entries ++ bytes.now ∷ [] } }
    {
        let count = pool.table.claim(&mut self.seat, bytes);
        pool.table.store(&mut self.seat, self.place, self.number);
        pool.table
            .store(&mut self.seat, self.place + 1, bytes.len() as u64);
        let body = (bytes.len() as u64).div_ceil(8);
        store_body(&pool.table, &mut self.seat, bytes, self.place + 2, body);
        let slot = (self.number % self.starts.len() as u64) as usize;
        self.starts[slot] = self.place;
        self.place = count;
        self.number += 1;
    }

    /// Hardens all that was put: from now on readers may read it.
    pub fn harden(&mut self, pool: &Pool)
        requires pool { self.old.table ≡ pool.now.table }
        ensures { self.new ≡ record self.old { hardened = length self.old.entries } }
    {
        pool.table.harden(&mut self.seat, self.place);
        self.hardened = self.number - self.first;
    }

    // The place of the next entry to be put, or of one that is whole.
    fn place_of(&self, number: u64) -> Option<u64>
        requires { number ≤ next_number self.now }
        ensures found { IfSome result (λ place. (place ≡ place_at self.now number) × CanAnchor self.now number) }
        ensures none { IfNone result (CanAnchor self.now number → ⊥) }
    {
        if number == self.number {
            return Some(self.place);
        }
        let kept = self.starts.len() as u64;
        if number < self.first || self.number - number > kept {
            return None;
        }
        let place = self.starts[(number % kept) as usize];
        if self.place - place > self.size {
            return None;
        }
        Some(place)
    }

    /// Moves the reader to the entry of this number, or to the next one to be put, with a note of the writer's list and of its
    /// hardened count. Where that entry isn't whole in the pool it answers false, and the reader stays as it was.
    pub fn anchor(&mut self, pool: &Pool, r: &mut Reader, number: u64) -> bool
        requires pool { (self.old.table ≡ pool.now.table) × (r.old.table ≡ pool.now.table) }
        requires number { number ≤ next_number self.old }
        ensures writer { self.new ≡ self.old }
        ensures answer { IsTrue result ↔ CanAnchor self.old number }
        ensures moved { IsTrue result → r.new ≡ anchored self.old number r.old }
        ensures stays { result ≡ false → r.new ≡ r.old }
    {
        let Some(place) = self.place_of(number) else {
            return false;
        };
        let note = pool.table.split(&mut self.seat);
        r.move_to(&pool.table, note, place, number);
        true
    }

    /// Gives the reader a note of the writer's list and of its hardened count. The reader stays at its place.
    pub fn note(&mut self, pool: &Pool, r: &mut Reader)
        requires pool { (self.old.table ≡ pool.now.table) × (r.old.table ≡ pool.now.table) }
        ensures writer { self.new ≡ self.old }
        ensures reader { r.new ≡ record r.old { told = max r.old.told (hard_count self.old); notes = r.old.notes ++ self.old.entries ∷ [] } }
    {
        let note = pool.table.split(&mut self.seat);
        r.take_note(&pool.table, note);
    }

    /// The number of the next entry to be put.
    pub fn next_number(&self) -> u64
        ensures { result ≡ next_number self.now }
    {
        self.number
    }

    /// The claimed count: how many words were put.
    pub fn claimed(&self) -> u64
        ensures { result ≡ claimed self.now }
    {
        self.place
    }

    // How many words the pool has.
    pub(crate) fn size(&self) -> usize
        ensures size { result ≡ self.now.size }
        ensures most { result ≤ 1048576 }
    {
        self.size as usize
    }

    pub(crate) fn reader(&mut self, table: &PoolTable, bytes: Vec<u8>) -> Reader
        requires table { self.old.table ≡ table.now.table }
        requires bytes { (bytes.items ≡ []) × (8 * self.old.size ≤ vec_capacity bytes) }
        ensures writer { self.new ≡ self.old }
        ensures reader { result ≡ new_reader self.old }
    {
        let seat = table.split(&mut self.seat);
        Reader::new(seat, self.size, bytes)
    }

    pub(crate) fn take_in(&mut self, table: &PoolTable, seat: ReaderSeat)
        requires table { (self.old.table ≡ table.now.table) × (seat.table ≡ table.now.table) }
        ensures same { self.new ≡ self.old }
        ensures got { All (IsHardenedEntry self.old) seat.view.got }
        ensures notes { All (StartsWith self.old.entries) seat.view.notes }
        ensures noted { All (IsNoteOf self.old) seat.view.notes }
        ensures counts { (seat.view.hardened ≤ hard_count self.old) × (seat.view.hard ≤ hard_count self.old) × (seat.view.claim ≤ claimed self.old) }
    {
        table.join(&mut self.seat, seat);
    }
}
