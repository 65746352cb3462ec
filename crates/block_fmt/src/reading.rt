//! Cells read from bytes that may be others.
ghost use Rattle.std.specs.Prelude.{◌≡◌, ◌≤◌, ◌<◌, ◌+◌, ◌↔◌, length, drop, vec_capacity, IfSome, IfNone, IfOk, IsTrue};
ghost use Rattle.std.specs.Bool.{OnTrue};
ghost use Rattle.gvn_key.specs.Next.{Tells};
ghost use Rattle.journal_defs.specs.Leaves.{spelled_cell};
ghost use Rattle.block_fmt.specs.Read.{first_cell, cells_in, places, BeginWithCell, AreCells, IsNextCell};

use crate::bytes::number_at;
use crate::cells::key_at;
use crate::sizes::MOST_CELLS;
use global_defs::limits::LONGEST_VALUE;
use gvn_key::{NoMemory, Seen, first_key, next_key};
use std::alloc::Global;

/// How many bytes the cell has that these bytes begin with, `None` where they begin with no cell.
fn cell_size(bytes: &[u8]) -> Option<usize>
    ensures cell { IfSome result (λ n. BeginWithCell bytes.now) }
    ensures size { IfSome result (λ n. n ≡ length (spelled_cell (first_cell bytes.now))) }
    ensures inside { IfSome result (λ n. n ≤ length bytes.now) }
    ensures none { IfNone result (BeginWithCell bytes.now → ⊥) }
{
    let &[first, ..] = bytes else {
        return None;
    };
    let key_end = usize::from(first) + 1;
    if bytes.len() < key_end + 2 {
        return None;
    }
    let value_size = number_at(bytes, key_end);
    if value_size > LONGEST_VALUE || bytes.len() < key_end + 2 + value_size {
        return None;
    }
    Some(key_end + 2 + value_size)
}

/// Whether the key of the cell that stands at a place may stand there, behind the one at `last` unless it is the first. What its bytes
/// tell is then known in place of what was.
fn is_next(bytes: &[u8], last: usize, at: usize, seen: &mut Seen) -> bool
    requires here { BeginWithCell (drop at bytes.now) }
    requires last { 0 < at → BeginWithCell (drop last bytes.now) }
    requires told { 0 < at → Tells seen.old (first_cell (drop last bytes.now)).0 }
    ensures next { IsTrue result ↔ IsNextCell bytes.now last at }
    ensures told { OnTrue result (Tells seen.new (first_cell (drop at bytes.now)).0) }
{
    let key = key_at(bytes, at);
    if at > 0 {
        next_key(key_at(bytes, last), seen, key)
    } else {
        first_key(seen, key)
    }
}

/// How many bytes the cell has that stands at a place, behind the one that stands at `last` unless it is the first. `None` where no
/// cell of a block can stand there.
fn next_cell(bytes: &[u8], last: usize, at: usize, seen: &mut Seen) -> Option<usize>
    requires inside { at ≤ length bytes.now }
    requires last { 0 < at → BeginWithCell (drop last bytes.now) }
    requires told { 0 < at → Tells seen.old (first_cell (drop last bytes.now)).0 }
    ensures next { IfSome result (λ size. IsNextCell bytes.now last at) }
    ensures told { IfSome result (λ size. Tells seen.new (first_cell (drop at bytes.now)).0) }
    ensures size { IfSome result (λ size. size ≡ length (spelled_cell (first_cell (drop at bytes.now)))) }
    ensures within { IfSome result (λ size. at + size ≤ length bytes.now) }
    ensures none { IfNone result (IsNextCell bytes.now last at → ⊥) }
{
    let Some(size) = cell_size(&bytes[at..]) else {
        return None;
    };
    if is_next(bytes, last, at, seen) {
        Some(size)
    } else {
        None
    }
}

/// The places of so many cells of which these are all the bytes, `None` where they aren't the cells of a block. There is room for
/// those of any block.
pub fn read_places(alloc: Global, bytes: &[u8], count: usize) -> Result<Option<Vec<u16>>, NoMemory>
    requires { length bytes.now ≤ 4088 }
    ensures cells { IfOk result (λ read. IfSome read (λ made. AreCells count bytes.now)) }
    ensures items { IfOk result (λ read. IfSome read (λ made. made.items ≡ places 0 (cells_in count bytes.now))) }
    ensures room { IfOk result (λ read. IfSome read (λ made. 817 ≤ vec_capacity made)) }
    ensures none { IfOk result (λ read. IfNone read (AreCells count bytes.now → ⊥)) }
{
    let mut places: Vec<u16> = Vec::with_capacity(alloc, MOST_CELLS)?;
    let mut at = 0;
    let mut last = 0;
    let mut seen = Seen::nothing();
    for _ in 0..count {
        let Some(size) = next_cell(bytes, last, at, &mut seen) else {
            return Ok(None);
        };
        places.push(at as u16)?;
        last = at;
        at += size;
    }
    if at != bytes.len() {
        return Ok(None);
    }
    Ok(Some(places))
}
