//! A block in memory.
ghost use Rattle.std.specs.Prelude.{◌≡◌, ◌≤◌, ◌<◌, ◌↔◌, ◌+◌, ℕ, [], length, take, drop, IsTrue, IsOk, IfOk, IfErr, IfSome, IfNone, IsErrOf, Some, None, vec_len, vec_capacity};
ghost use Rattle.std.specs.Ordering.{nat_cmp};
ghost use Rattle.std.specs.Cmp.Lexicographic.{slice_cmp};
ghost use Rattle.std.specs.FinMap as globals;
ghost use Rattle.global_defs.specs.declared.limits.TheConstants.{LONGEST_VALUE};
ghost use Rattle.journal_defs.specs.Leaves.{Leaf, cell_bytes, ROOM, spelled_leaf, IsEncoded, IsLeaf, IsBlock};
ghost use Rattle.block_fmt.specs.Cells.{cell_at, with_cells, with_cell, without_between, size_of, StandsIn, BelongsAt, TakesPlace};
ghost use Rattle.block_fmt.specs.Read.{cells_in, places, AreCells};

use crate::bytes::{
    bytes_from, fill_zeros, is_zero, long_number_at, number_at, push_all, put_bytes,
};
use crate::cells::{cut_between, key_at, put_between, value_at};
use crate::error::BlockError;
use crate::places::{cut_places, places_from, push_places, put_place};
use crate::reading::read_places;
use crate::sizes::{HEAD, MOST_CELLS, ROOM};
use global_defs::limits::BLOCK;
use gvn_key::NoMemory;
use std::alloc::Global;
use std::cmp::Ordering;
use std::marker::Model;

/// A block: the next leaf's number, and cells with rising keys whose bytes have room in it.
///
/// All its memory is taken when it is made: no other call but [`copy`](Block::copy) takes any. The cells stand in memory as they
/// stand on the file.
#[derive(Debug, Drop)]
pub struct Block {
    next: u32,
    bytes: Vec<u8>,
    places: Vec<u16>,
}

impl Model for Block {
    ghost use Rattle.journal_defs.specs.Leaves as defs;
    ghost use Rattle.block_fmt.specs.Code.{leaf_code};

    ghost Value = { defs.Leaf };

    ghost coded = { leaf_code };

    ghost use Rattle.block_fmt.specs.Inside.{leaf_of, Holds};

    ghost view = { leaf_of };

    ghost invariant = { λ b. Holds b (leaf_of b) };
}

impl Block {
    /// An empty block that names this next one, 0 for none.
    pub fn new(alloc: Global, next: u32) -> Result<Self, NoMemory>
        ensures { IfOk result (λ made. made ≡ record { next = next; cells = [] }) }
    {
        Ok(Block {
            next,
            bytes: Vec::with_capacity(alloc, ROOM)?,
            places: Vec::with_capacity(alloc, MOST_CELLS)?,
        })
    }

    /// The next leaf's block, 0 where there is none.
    pub fn next(&self) -> u32
        ensures next { result ≡ self.now.next }
        ensures form { IsLeaf self.now }
    {
        self.next
    }

    /// Names another next leaf's block.
    pub fn set_next(&mut self, next: u32)
        ensures { self.new ≡ record { next = next; cells = self.old.cells } }
    {
        self.next = next;
    }

    /// How many cells there are.
    pub fn len(&self) -> u32
        ensures len { result ≡ length self.now.cells }
        ensures form { IsLeaf self.now }
    {
        self.places.len() as u32
    }

    /// Whether there is no cell.
    pub fn is_empty(&self) -> bool
        ensures { IsTrue result ↔ (self.now.cells ≡ []) }
    {
        self.len() == 0
    }

    /// How many bytes the cells take.
    pub fn used(&self) -> usize
        ensures used { result ≡ size_of self.now.cells }
        ensures form { IsLeaf self.now }
    {
        self.bytes.len()
    }

    /// How many bytes the first so many cells take.
    pub fn used_before(&self, i: u32) -> usize
        requires { i ≤ length self.now.cells }
        ensures { result ≡ size_of (take i self.now.cells) }
    {
        if (i as usize) < self.places.len() {
            usize::from(self.places[i as usize])
        } else {
            self.bytes.len()
        }
    }

    /// The encoded key of a cell.
    pub fn key(&self, i: u32) -> &[u8]
        requires { i < length self.now.cells }
        ensures { result.now ≡ (cell_at self.now.cells i).0 }
    {
        key_at(&self.bytes, usize::from(self.places[i as usize]))
    }

    /// The value of a cell.
    pub fn value(&self, i: u32) -> &[u8]
        requires { i < length self.now.cells }
        ensures { result.now ≡ (cell_at self.now.cells i).1 }
    {
        value_at(&self.bytes, usize::from(self.places[i as usize]))
    }

    /// Where a key stands, or where it would be put. It looks by halves.
    pub fn find(&self, key: &[u8]) -> Result<u32, u32>
        ensures found { IfOk result (StandsIn self.now.cells key.now) }
        ensures value { IfOk result (λ i. globals.find (slice_cmp nat_cmp) key.now self.now.cells ≡ Some (cell_at self.now.cells i).1) }
        ensures place { IfErr result (BelongsAt self.now.cells key.now) }
        ensures none { IfErr result (λ _. globals.find (slice_cmp nat_cmp) key.now self.now.cells ≡ None) }
        ensures form { IsLeaf self.now }
    {
        let mut low = 0;
        let mut high = self.len();
        while low < high {
            let middle = low + (high - low) / 2;
            match self.key(middle).cmp(key) {
                Ordering::Less => low = middle + 1,
                Ordering::Equal => return Ok(middle),
                Ordering::Greater => high = middle,
            }
        }
        Err(low)
    }

    /// Where the cells stand that a key's cell takes the place of: none, or the one of this key.
    fn taken(&self, place: Result<u32, u32>, key: &[u8]) -> (u32, u32)
        requires found { IfOk place (StandsIn self.now.cells key.now) }
        requires place { IfErr place (BelongsAt self.now.cells key.now) }
        ensures taken { TakesPlace self.now.cells key.now result.0 result.1 }
    {
        // A block has few cells.
        let _ = self.len();
        match place {
            Ok(i) => (i, i + 1),
            Err(i) => (i, i),
        }
    }

    /// Whether the cells have room with this one put, in place of its key's old one where there is one.
    pub fn fits(&self, key: &[u8], value: &[u8]) -> bool
        ensures { IsTrue result ↔ (length (cell_bytes (with_cell self.now key.now value.now)) ≤ ROOM) }
    {
        self.fits_at(self.find(key), key, value)
    }

    /// The same, where it is known what [`find`](Block::find) answers of the key.
    pub fn fits_at(&self, place: Result<u32, u32>, key: &[u8], value: &[u8]) -> bool
        requires found { IfOk place (StandsIn self.now.cells key.now) }
        requires place { IfErr place (BelongsAt self.now.cells key.now) }
        ensures { IsTrue result ↔ (length (cell_bytes (with_cell self.now key.now value.now)) ≤ ROOM) }
    {
        let (i, j) = self.taken(place, key);
        let kept = self.used() - (self.used_before(j) - self.used_before(i));
        if key.len() > ROOM || value.len() > ROOM {
            return false;
        }
        kept + key.len() + value.len() + 3 <= ROOM
    }

    /// Puts a cell at its place, or a new value into its key's cell. It takes no memory, and answers Ok.
    pub fn put(&mut self, key: &[u8], value: &[u8]) -> Result<(), NoMemory>
        requires fits { length (cell_bytes (with_cell self.old key.now value.now)) ≤ ROOM }
        requires key { IsEncoded key.now }
        requires value { length value.now ≤ LONGEST_VALUE }
        ensures done { IsOk result }
        ensures cells { self.new ≡ with_cell self.old key.now value.now }
    {
        let place = self.find(key);
        self.put_at(place, key, value);
        Ok(())
    }

    /// The same, where it is known what [`find`](Block::find) answers of the key.
    pub fn put_at(&mut self, place: Result<u32, u32>, key: &[u8], value: &[u8])
        requires found { IfOk place (StandsIn self.old.cells key.now) }
        requires place { IfErr place (BelongsAt self.old.cells key.now) }
        requires fits { length (cell_bytes (with_cell self.old key.now value.now)) ≤ ROOM }
        requires key { IsEncoded key.now }
        requires value { length value.now ≤ LONGEST_VALUE }
        ensures { self.new ≡ with_cell self.old key.now value.now }
    {
        let (i, j) = self.taken(place, key);
        let from = self.used_before(i);
        let to = self.used_before(j);
        put_between(&mut self.bytes, from, to, key, value);
        put_place(
            &mut self.places,
            i as usize,
            j as usize,
            from,
            to,
            key.len() + value.len() + 3,
        );
    }

    /// Takes a cell away.
    pub fn remove(&mut self, i: u32)
        requires { i < length self.old.cells }
        ensures { self.new ≡ with_cells self.old (without_between self.old.cells i (i + 1)) }
    {
        let _ = &self.places;
        self.remove_between(i, i + 1);
    }

    /// Takes the cells from one place up to another away.
    pub fn remove_between(&mut self, from: u32, to: u32)
        requires order { from ≤ to }
        requires inside { to ≤ length self.old.cells }
        ensures { self.new ≡ with_cells self.old (without_between self.old.cells from to) }
    {
        let first = self.used_before(from);
        let end = self.used_before(to);
        cut_between(&mut self.bytes, first, end);
        cut_places(&mut self.places, from as usize, to as usize, first, end);
    }

    /// Takes the cells that these bytes are, whose places are told from a byte so far before them.
    fn fill(&mut self, bytes: &[u8], of: &[u16], back: usize)
        requires empty { self.old.cells ≡ [] }
        requires cells { AreCells (length of.now) bytes.now }
        requires of { of.now ≡ places back (cells_in (length of.now) bytes.now) }
        requires fit { length bytes.now ≤ 4088 }
        requires near { back ≤ 4096 }
        ensures { self.new ≡ with_cells self.old (cells_in (length of.now) bytes.now) }
    {
        push_all(&mut self.bytes, bytes);
        push_places(&mut self.places, of, back);
    }

    /// Leaves the first so many cells.
    fn keep(&mut self, count: u32)
        requires { count ≤ length self.old.cells }
        ensures { self.new ≡ with_cells self.old (take count self.old.cells) }
    {
        let end = self.used_before(count);
        self.bytes.truncate(end);
        self.places.truncate(count as usize);
    }

    /// Moves the cells from a place on into an empty block. It takes no memory.
    pub fn move_tail(&mut self, from: u32, into: &mut Block)
        requires inside { from ≤ length self.old.cells }
        requires empty { into.old.cells ≡ [] }
        ensures here { self.new ≡ with_cells self.old (take from self.old.cells) }
        ensures there { into.new ≡ with_cells into.old (drop from self.old.cells) }
    {
        let at = self.used_before(from);
        into.fill(
            bytes_from(&self.bytes, at),
            places_from(&self.places, from as usize),
            at,
        );
        self.keep(from);
    }

    /// An equal block.
    pub fn copy(&self) -> Result<Self, NoMemory>
        ensures { IfOk result (λ made. made ≡ self.now) }
    {
        let mut made = Block::new(*self.bytes.allocator(), self.next)?;
        made.fill(&self.bytes, &self.places, 0);
        Ok(made)
    }

    /// The block of the cells that these bytes are, whose places are told.
    fn of_cells(alloc: Global, next: u32, cells: &[u8], of: Vec<u16>) -> Result<Self, NoMemory>
        requires cells { AreCells (vec_len of) cells.now }
        requires of { of.items ≡ places 0 (cells_in (vec_len of) cells.now) }
        requires fit { length cells.now ≤ 4088 }
        requires room { 817 ≤ vec_capacity of }
        ensures { IfOk result (λ made. made ≡ record { next = next; cells = cells_in (vec_len of) cells.now }) }
    {
        let mut bytes = Vec::with_capacity(alloc, ROOM)?;
        push_all(&mut bytes, cells);
        Ok(Block {
            next,
            bytes,
            places: of,
        })
    }

    /// The block of these bytes, `None` where they are those of no block.
    fn read(alloc: Global, bytes: &[u8]) -> Result<Option<Self>, NoMemory>
        ensures block { IfOk result (λ read. IfSome read (λ made. IsBlock bytes.now made)) }
        ensures none { IfOk result (λ read. IfNone read ((l : Leaf) → IsBlock bytes.now l → ⊥)) }
    {
        if bytes.len() != BLOCK {
            return Ok(None);
        }
        let count = number_at(bytes, 0);
        let used = number_at(bytes, 2);
        if used > ROOM || !is_zero(bytes_from(bytes, HEAD + used)) {
            return Ok(None);
        }
        let cells = &bytes[HEAD..HEAD + used];
        let Some(places) = read_places(alloc, cells, count)? else {
            return Ok(None);
        };
        let made = Block::of_cells(alloc, long_number_at(bytes, 4), cells, places)?;
        Ok(Some(made))
    }

    /// The block of 4,096 bytes that stand at an offset of a file.
    ///
    /// # Errors
    /// `NotABlock` with this offset exactly where these are the bytes of no block, and `NoMemory`.
    pub fn decode(alloc: Global, bytes: &[u8], at: u64) -> Result<Self, BlockError>
        ensures block { IfOk result (λ made. IsBlock bytes.now made) }
        ensures place { (offset : ℕ) → IsErrOf result (BlockError.NotABlock offset) → offset ≡ at }
        ensures outside { (offset : ℕ) → IsErrOf result (BlockError.NotABlock offset) → (l : Leaf) → IsBlock bytes.now l → ⊥ }
    {
        match Block::read(alloc, bytes)? {
            Some(made) => Ok(made),
            None => Err(BlockError::NotABlock { offset: at }),
        }
    }

    /// Writes the block's 4,096 bytes.
    pub fn encode(&self, out: &mut [u8])
        requires { length out.old ≡ 4096 }
        ensures bytes { out.new ≡ spelled_leaf self.now }
        ensures form { IsLeaf self.now }
    {
        put_bytes(out, 0, &(self.places.len() as u16).to_be_bytes());
        put_bytes(out, 2, &(self.bytes.len() as u16).to_be_bytes());
        put_bytes(out, 4, &self.next.to_be_bytes());
        put_bytes(out, HEAD, &self.bytes);
        fill_zeros(out, HEAD + self.bytes.len());
    }
}
