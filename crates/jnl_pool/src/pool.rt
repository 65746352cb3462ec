//! The pool that all threads share.
ghost use Rattle.std.specs.Prelude.{◌≡◌, ◌^◌, ◌≤◌, All, IfOk};
ghost use Rattle.global_defs.specs.declared.limits.TheConstants.{NUMBERS_END};
ghost use Rattle.wire_defs.specs.PoolWords.{StartsWith};
ghost use Rattle.jnl_pool.specs.Pooling.{claimed, hard_count, new_writer, new_reader, IsHardenedEntry, IsNoteOf};

use crate::reader::Reader;
use crate::writer::Writer;
use pool_rule::table::{NoMemory, PoolTable};
use std::alloc::Global;
use std::marker::Model;

/// The words that the writer and the readers share. It lies in no lock.
#[derive(Drop)]
pub struct Pool {
    pub(crate) table: PoolTable,
    alloc: Global,
}

impl Model for Pool {
    ghost use Rattle.pool_rule.specs.Seats.{Held};

    ghost Value = { Held };

    ghost view = { λ p. p.table };
}

impl Pool {
    /// An empty pool of `words` words whose first entry will have the number `first`, and its writer, with the memory in
    /// which the writer keeps the places of the entries that are whole.
    pub fn make(alloc: Global, words: u32, first: u64) -> Result<(Pool, Writer), NoMemory>
        requires words { (16 ≤ words) × (words ≤ 1048576) }
        requires first { (1 ≤ first) × (first ≤ NUMBERS_END) }
        ensures pool { IfOk result (λ r. (r.0.size ≡ words) × (r.0.first ≡ first)) }
        ensures writer { IfOk result (λ r. r.1 ≡ new_writer r.0) }
    {
        let Ok(starts) = Vec::from_elem(alloc, 0u64, words as usize / 2) else {
            return Err(NoMemory);
        };
        let (table, seat) = PoolTable::new(alloc, words, first)?;
        let writer = Writer::new(seat, u64::from(words), first, starts);
        Ok((Pool { table, alloc }, writer))
    }

    /// A new reader, at the pool's first entry, with the memory for the bytes of any entry that can be whole. It's told the
    /// hardened count.
    pub fn reader(&self, w: &mut Writer) -> Result<Reader, NoMemory>
        requires pool { w.old.table ≡ self.now.table }
        ensures writer { w.new ≡ w.old }
        ensures reader { IfOk result (λ r. r ≡ new_reader w.old) }
    {
        let Ok(bytes) = Vec::with_capacity(self.alloc, 8 * w.size()) else {
            return Err(NoMemory);
        };
        Ok(w.reader(&self.table, bytes))
    }

    /// Takes a reader back. Each entry that it got is the hardened entry of its number, each entry that it was given in a
    /// note is the entry of its number, and no count that it was told or has loaded is past the writer's.
    pub fn settle(&self, w: &mut Writer, r: Reader)
        requires writer { w.old.table ≡ self.now.table }
        requires reader { r.table ≡ self.now.table }
        ensures same { w.new ≡ w.old }
        ensures got { All (IsHardenedEntry w.old) r.got }
        ensures notes { All (StartsWith w.old.entries) r.notes }
        ensures noted { All (IsNoteOf w.old) r.notes }
        ensures counts { (r.told ≤ hard_count w.old) × (r.hard ≤ hard_count w.old) × (r.claim ≤ claimed w.old) }
    {
        w.take_in(&self.table, r.into_seat());
    }
}
