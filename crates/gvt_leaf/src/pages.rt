//! Changes of one block of a pool.
ghost use Rattle.std.specs.Prelude.{◌≡◌, ◌≢◌, ◌≤◌, ◌<◌, ◌+◌, ◌==◌, ℕ, [], length, take, drop, vec_len, vec_capacity, IfOk, IfErr};
ghost use Rattle.global_defs.specs.declared.limits.TheConstants.{LONGEST_VALUE};
ghost use Rattle.journal_defs.specs.Leaves.{cell_bytes, ROOM, IsEncoded, IsLeaf};
ghost use Rattle.block_fmt.specs.Cells.{with_cells, with_cell, without_between, StandsIn, BelongsAt};
ghost use Rattle.block_pool.specs.Pool.{leaf_at, changed};
ghost use Rattle.gvt_leaf.specs.Links.{times, inside, one_if};
ghost use Rattle.gvt_leaf.specs.Clean.{KeepsClean};

use block_fmt::Block;
use block_pool::BlockPool;

/// Puts a cell into a block at its place.
pub(crate) fn put_in(
    pool: &mut BlockPool,
    number: u32,
    place: Result<u32, u32>,
    key: &[u8],
    value: &[u8],
)
    requires inside { number < length pool.old.leaves }
    requires found { IfOk place (StandsIn (leaf_at pool.old number).cells key.now) }
    requires place { IfErr place (BelongsAt (leaf_at pool.old number).cells key.now) }
    requires fits { length (cell_bytes (with_cell (leaf_at pool.old number) key.now value.now)) ≤ ROOM }
    requires key { IsEncoded key.now }
    requires value { length value.now ≤ LONGEST_VALUE }
    ensures changed { pool.new ≡ changed pool.old number (with_cell (leaf_at pool.old number) key.now value.now) }
    ensures form { IsLeaf (with_cell (leaf_at pool.old number) key.now value.now) }
    ensures clean { KeepsClean pool.old pool.new }
{
    let _ = pool.count();
    let block = pool.block_mut(number);
    block.put_at(place, key, value);
    let _ = block.len();
}

/// Takes cells of a block away.
pub(crate) fn cut_in(pool: &mut BlockPool, number: u32, from: u32, to: u32)
    requires inside { number < length pool.old.leaves }
    requires order { from ≤ to }
    requires cells { to ≤ length (leaf_at pool.old number).cells }
    ensures changed { pool.new ≡ changed pool.old number (with_cells (leaf_at pool.old number) (without_between (leaf_at pool.old number).cells from to)) }
    ensures form { IsLeaf (with_cells (leaf_at pool.old number) (without_between (leaf_at pool.old number).cells from to)) }
    ensures clean { KeepsClean pool.old pool.new }
{
    let _ = pool.count();
    let block = pool.block_mut(number);
    block.remove_between(from, to);
    let _ = block.len();
}

/// Moves the cells of a block from a place on into an empty one.
pub(crate) fn move_out(pool: &mut BlockPool, number: u32, at: u32, into: &mut Block)
    requires inside { number < length pool.old.leaves }
    requires cells { at ≤ length (leaf_at pool.old number).cells }
    requires empty { into.old.cells ≡ [] }
    ensures changed { pool.new ≡ changed pool.old number (with_cells (leaf_at pool.old number) (take at (leaf_at pool.old number).cells)) }
    ensures moved { into.new ≡ with_cells into.old (drop at (leaf_at pool.old number).cells) }
    ensures form { IsLeaf into.new }
    ensures clean { KeepsClean pool.old pool.new }
{
    let _ = pool.count();
    pool.block_mut(number).move_tail(at, into);
    let _ = into.len();
}

/// Lets a block name another one as the next.
pub(crate) fn relink(pool: &mut BlockPool, number: u32, next: u32)
    requires inside { number < length pool.old.leaves }
    ensures changed { pool.new ≡ changed pool.old number (record { next = next; cells = (leaf_at pool.old number).cells }) }
    ensures form { IsLeaf (record { next = next; cells = (leaf_at pool.old number).cells }) }
    ensures clean { KeepsClean pool.old pool.new }
{
    let _ = pool.count();
    let block = pool.block_mut(number);
    block.set_next(next);
    let _ = block.len();
}

/// Puts a block into the pool in place of a free one, or as one more, and answers its number.
pub(crate) fn settle(pool: &mut BlockPool, free: &mut Vec<u32>, block: Block) -> u32
    requires room { 1 ≤ pool.old.room }
    requires inside { (b : ℕ) → 1 ≤ times b free.old.items → b < length pool.old.leaves }
    ensures there { leaf_at pool.new result ≡ block }
    ensures others { (b : ℕ) → b ≢ result → leaf_at pool.new b ≡ leaf_at pool.old b }
    ensures inside { result < length pool.new.leaves }
    ensures numbers { (b : ℕ) → times b free.old.items + inside b (length pool.new.leaves) ≡ times b free.new.items + inside b (length pool.old.leaves) + one_if (result == b) }
    ensures total { vec_len free.old + length pool.new.leaves ≡ vec_len free.new + length pool.old.leaves + 1 }
    ensures clean { KeepsClean pool.old pool.new }
    ensures more { length pool.new.leaves ≤ length pool.old.leaves + 1 }
    ensures left { pool.old.room ≤ pool.new.room + 1 }
    ensures capacity { vec_capacity free.new ≡ vec_capacity free.old }
{
    let _ = pool.count();
    match free.pop() {
        Some(number) => {
            if pool.change(number, block).is_err() {
                unreachable!();
            }
            number
        }
        None => {
            let number = pool.count();
            if pool.add(block, true).is_err() {
                unreachable!();
            }
            number
        }
    }
}
