//! The table and its seats: the writer's three kinds of step, a reader's three loads, and how seats are split and joined.
ghost use Rattle.std.specs.Prelude.{◌≡◌, ℕ, ◌+◌, ◌*◌, ◌^◌, ◌<◌, ◌≤◌, List, [], ◌∷◌, ◌++◌, length, IfOk, true, false, ◌⊎◌, slice_index, max};
ghost use Rattle.global_defs.specs.declared.limits.TheConstants.{NUMBERS_END};
ghost use Rattle.wire_defs.specs.PoolWords.{words_from, AreBytes, StartsWith, IsBoundary, IsAt};
ghost use Rattle.pool_rule.specs.Rule.{writer, reader, Agrees, Each, IsEntryBelow, Within, end_of, is_entry, moved, number_at};

use crate::plays::{
    Claim, Harden, LoadClaim, LoadHard, LoadWord, Note, Pick, Place, Rules, Settle, Store,
    TakeNote, TakeReader,
};
use crate::views::View;
use atomic_table::{Seat, Table};
use std::alloc::Global;
use std::marker::{Brand, Model};

/// The pool's table couldn't be made for want of memory.
#[derive(Clone, Copy, Debug, PartialEq, Eq)]
pub struct NoMemory;

/// The claimed count, the hardened count and N data words, which all threads share.
#[derive(Drop)]
pub struct PoolTable {
    table: Table<(), View, (u64, u64), Rules, Global>,
    size: u64,
}

impl Model for PoolTable {
    ghost use Rattle.std.specs.Prelude.{◌≡◌, ◌+◌, ◌<◌, ◌^◌};
    ghost use Rattle.pool_rule.specs.Seats.{Held};

    ghost Value = { Held };

    ghost view = { λ t. record { table = t.table.shared.table_id; size = t.size; first = t.table.shared.key.1 } };

    ghost invariant = { λ t. (0 < t.size) × (t.size < 2 ^ 32) × (t.table.shared.key.0 ≡ t.size) × (t.table.shared.table_id.words ≡ t.size + 2) };
}

/// The writer's seat, of which each table has one.
#[derive(Drop)]
pub struct WriterSeat {
    seat: Seat<(), View>,
    claimed: u64,
}

impl Model for WriterSeat {
    ghost use Rattle.std.specs.Prelude.{◌≡◌, ◌*◌, ◌≤◌, [], length, true};
    ghost use Rattle.wire_defs.specs.PoolWords.{words_from};
    ghost use Rattle.pool_rule.specs.Seats.{Knowing};

    ghost Value = { Knowing };

    ghost view = { λ w. record { table = w.seat.table_id; view = w.seat.me.0 } };

    ghost invariant = { λ w. (w.seat.me.0.live ≡ true) × (w.seat.me.0.writes ≡ true) × (w.seat.me.1 ≡ []) × (w.claimed ≡ length (words_from w.seat.me.0.first w.seat.me.0.entries)) × (w.claimed ≤ 131074 * length w.seat.me.0.entries) × (w.seat.me.0.told_got ≡ []) × (w.seat.me.0.told_notes ≡ []) × (w.seat.me.0.told_hard ≡ 0) × (w.seat.me.0.told_claim ≡ 0) };
}

/// A reader's seat, or a note of the writer's list.
#[derive(Drop)]
pub struct ReaderSeat {
    seat: Seat<(), View>,
}

impl Model for ReaderSeat {
    ghost use Rattle.std.specs.Prelude.{◌≡◌, [], true, false};
    ghost use Rattle.pool_rule.specs.Seats.{Knowing};

    ghost Value = { Knowing };

    ghost view = { λ r. record { table = r.seat.table_id; view = r.seat.me.0 } };

    ghost invariant = { λ r. (r.seat.me.0.live ≡ true) × (r.seat.me.0.writes ≡ false) × (r.seat.me.1 ≡ []) };
}

impl PoolTable {
    /// A pool of `words` data words whose first entry has the number `first`, and the writer's seat. All its words are 0.
    pub fn new(alloc: Global, words: u32, first: u64) -> Result<(PoolTable, WriterSeat), NoMemory>
        requires words { (16 ≤ words) × (words ≤ 1048576) }
        requires first { (1 ≤ first) × (first ≤ NUMBERS_END) }
        ensures table { IfOk result (λ r. (r.0.size ≡ words) × (r.0.first ≡ first)) }
        ensures seat { IfOk result (λ r. (r.1.table ≡ r.0.table) × (r.1.view ≡ writer words first)) }
    {
        let Ok(row) = Vec::from_elem(alloc, 0u64, words as usize + 2) else {
            return Err(NoMemory);
        };
        let size = u64::from(words);
        let Ok((table, seat)) = Table::of_words(alloc, row.as_slice(), &(size, first)) else {
            return Err(NoMemory);
        };
        Ok((PoolTable { table, size }, WriterSeat { seat, claimed: 0 }))
    }

    fn claim_as<J: Pick>(&self, w: &mut Seat<(), View>, _bytes: &[u8], count: u64)
        requires table { w.old.table_id ≡ self.now.table }
        requires writer { (w.old.me.0.live ≡ true) × (w.old.me.0.writes ≡ true) }
        requires bytes { AreBytes J.bytes }
        requires count { count ≡ length (words_from w.old.me.0.first (w.old.me.0.entries ++ J.bytes ∷ [])) }
        ensures seat { (w.new.table_id ≡ w.old.table_id) × (w.new.id ≡ w.old.id) }
        ensures view { w.new.me ≡ (record w.old.me.0 { entries = w.old.me.0.entries ++ J.bytes ∷ [] }, w.old.me.1) }
    {
        self.table.shared.store::<Claim<J>>(w, 0, count);
    }

    /// Kind 1: the writer appends the entry of the next number, with these bytes, to its list. Raises the claimed count by
    /// the entry's words, and answers the new count.
    pub fn claim(&self, w: &mut WriterSeat, bytes: &[u8]) -> u64
        requires table { w.old.table ≡ self.now.table }
        requires number { w.old.view.first + length w.old.view.entries < NUMBERS_END }
        requires bytes { length bytes.now ≤ 1048576 }
        ensures table { w.new.table ≡ w.old.table }
        ensures view { w.new.view ≡ record w.old.view { entries = w.old.view.entries ++ bytes.now ∷ [] } }
        ensures count { result ≡ length (words_from w.new.view.first w.new.view.entries) }
    {
        let count = w.claimed + (2 + (bytes.len() as u64 + 7) / 8);
        self.claim_as::<Brand>(&mut w.seat, bytes, count);
        w.claimed = count;
        count
    }

    /// Kind 2: the writer stores the word of the next address that it has claimed.
    pub fn store(&self, w: &mut WriterSeat, at: u64, word: u64)
        requires table { w.old.table ≡ self.now.table }
        requires next { at ≡ w.old.view.written }
        requires claimed { at < length (words_from w.old.view.first w.old.view.entries) }
        requires word { word ≡ slice_index (words_from w.old.view.first w.old.view.entries) at }
        ensures table { w.new.table ≡ w.old.table }
        ensures view { w.new.view ≡ record w.old.view { written = at + 1 } }
    {
        self.table
            .shared
            .store::<Store>(&mut w.seat, (at % self.size) as usize + 2, word);
    }

    /// Kind 3: the writer raises the hardened count to one below which whole entries stand that are written.
    pub fn harden(&self, w: &mut WriterSeat, to: u64)
        requires table { w.old.table ≡ self.now.table }
        requires order { (w.old.view.hardened ≤ to) × (to ≤ w.old.view.written) }
        requires whole { IsBoundary w.old.view.first w.old.view.entries to }
        ensures table { w.new.table ≡ w.old.table }
        ensures view { w.new.view ≡ record w.old.view { hardened = to } }
    {
        self.table.shared.store::<Harden>(&mut w.seat, 1, to);
    }

    /// Kind 4: a reader loads the hardened count. It's never less than one that the reader loaded before or was told, and past
    /// the reader's place it's past the two first words of an entry.
    pub fn load_hard(&self, r: &mut ReaderSeat) -> u64
        requires table { r.old.table ≡ self.now.table }
        ensures table { r.new.table ≡ r.old.table }
        ensures view { r.new.view ≡ record r.old.view { hard = result; hard_loads = r.old.view.hard_loads + 1 } }
        ensures later { r.old.view.hard ≤ result }
        ensures told { r.old.view.hardened ≤ result }
        ensures gap { (result ≤ r.old.view.place) ⊎ (r.old.view.place + 2 ≤ result) }
    {
        self.table.shared.load::<LoadHard>(&mut r.seat, 1)
    }

    fn load_word_as<J: Pick>(&self, r: &mut Seat<(), View>, at: u64) -> u64
        requires table { r.old.table_id ≡ self.now.table }
        requires reader { r.old.me.0.live ≡ true }
        requires at { at ≡ J.at }
        requires hard { at < r.old.me.0.hard }
        ensures seat { (r.new.table_id ≡ r.old.table_id) × (r.new.id ≡ r.old.id) }
        ensures view { r.new.me ≡ (record r.old.me.0 { held = r.old.me.0.held ++ (at, result) ∷ [] }, r.old.me.1) }
    {
        self.table
            .shared
            .load::<LoadWord<J>>(r, (at % self.size) as usize + 2)
    }

    /// Kind 5: a reader loads the data word of an address below the hardened count that it loaded, and holds it.
    pub fn load_word(&self, r: &mut ReaderSeat, at: u64) -> u64
        requires table { r.old.table ≡ self.now.table }
        requires hard { at < r.old.view.hard }
        ensures table { r.new.table ≡ r.old.table }
        ensures view { r.new.view ≡ record r.old.view { held = r.old.view.held ++ (at, result) ∷ [] } }
    {
        self.load_word_as::<Brand>(&mut r.seat, at)
    }

    /// Kind 6, the check: a reader loads the claimed count. Up to N past the reader's place, no word from there on was
    /// overwritten: a whole entry that is held from there on is got, and the reader moves on.
    pub fn load_claim(&self, r: &mut ReaderSeat) -> u64
        requires table { r.old.table ≡ self.now.table }
        ensures table { r.new.table ≡ r.old.table }
        ensures later { r.old.view.claim ≤ result }
        ensures whole { result ≤ r.old.view.place + r.old.view.size → r.new.view ≡ moved (is_entry r.old.view.place r.old.view.held) result r.old.view }
        ensures within { result ≤ r.old.view.place + r.old.view.size → Within r.old.view.place r.old.view.size r.old.view.hard (end_of r.old.view.place r.old.view.held) }
        ensures overwritten { r.old.view.place + r.old.view.size < result → r.new.view ≡ moved false result r.old.view }
    {
        self.table.shared.load::<LoadClaim>(&mut r.seat, 0)
    }

    /// Kind 7: a new reader at the pool's first entry, or a note of the writer's list and of its hardened count.
    pub fn split(&self, w: &mut WriterSeat) -> ReaderSeat
        requires table { w.old.table ≡ self.now.table }
        ensures same { w.new ≡ w.old }
        ensures note { (result.table ≡ w.old.table) × (result.view ≡ reader w.old.view) }
    {
        let seat = self.table.shared.split_seat::<Note>(&mut w.seat);
        ReaderSeat { seat }
    }

    fn note_as<J: Pick>(&self, r: &mut Seat<(), View>, note: Seat<(), View>, _place: u64)
        requires table { (r.old.table_id ≡ self.now.table) × (note.table_id ≡ self.now.table) × (note.me.1 ≡ []) }
        requires live { (r.old.me.0.live ≡ true) × (note.me.0.live ≡ true) × (r.old.me.0.writes ≡ false) }
        requires place { (J.at ≡ r.old.me.0.place) ⊎ IsBoundary note.me.0.first note.me.0.entries J.at }
        ensures seat { (r.new.table_id ≡ r.old.table_id) × (r.new.id ≡ r.old.id) }
        ensures view { r.new.me ≡ (record r.old.me.0 { hardened = max r.old.me.0.hardened note.me.0.hardened; place = J.at; next = number_at r.old.me.0 note.me.0 J.at; note_first = note.me.0.first; notes = r.old.me.0.notes ++ note.me.0.entries ∷ [] }, r.old.me.1) }
        ensures agrees { Each (Agrees r.new.me.0) r.new.me.0.notes }
    {
        self.table.shared.join_seat::<TakeNote<J>>(r, note);
        self.table.shared.load::<Place>(r, 0);
    }

    /// Kind 8: a reader takes a note of the writer's list, and is told the hardened count that came with it. It stays at its
    /// place, or moves to the start or the end of an entry in that list.
    pub fn note(&self, r: &mut ReaderSeat, note: ReaderSeat, place: u64)
        requires table { (r.old.table ≡ self.now.table) × (note.table ≡ self.now.table) }
        requires place { (place ≡ r.old.view.place) ⊎ IsBoundary note.view.first note.view.entries place }
        ensures table { r.new.table ≡ r.old.table }
        ensures view { r.new.view ≡ record r.old.view { hardened = max r.old.view.hardened note.view.hardened; place = place; next = r.new.view.next; note_first = note.view.first; notes = r.old.view.notes ++ note.view.entries ∷ [] } }
        ensures stays { place ≡ r.old.view.place → r.new.view.next ≡ r.old.view.next }
        ensures moves { (number : ℕ) → IsAt note.view.first note.view.entries place number → r.new.view.next ≡ number }
    {
        let ReaderSeat { seat } = note;
        self.note_as::<Brand>(&mut r.seat, seat, place);
    }

    /// Kind 8: the writer takes a reader. What the reader got are entries of the writer's list below its hardened count,
    /// by their numbers, each note is the beginning of that list, and no count that it loaded or was told is past the
    /// writer's.
    pub fn join(&self, w: &mut WriterSeat, r: ReaderSeat)
        requires table { (w.old.table ≡ self.now.table) × (r.table ≡ self.now.table) }
        ensures same { w.new ≡ w.old }
        ensures got { Each (IsEntryBelow w.old.view.first w.old.view.entries w.old.view.hardened) r.view.got }
        ensures notes { Each (StartsWith w.old.view.entries) r.view.notes }
        ensures counts { (r.view.hardened ≤ w.old.view.hardened) × (r.view.hard ≤ w.old.view.hardened) × (r.view.claim ≤ length (words_from w.old.view.first w.old.view.entries)) }
    {
        let ReaderSeat { seat } = r;
        self.table.shared.join_seat::<TakeReader>(&mut w.seat, seat);
        self.table.shared.load::<Settle>(&mut w.seat, 0);
    }
}
