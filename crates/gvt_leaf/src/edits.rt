//! Changes of the cells of a chain of leaves.
ghost use Rattle.std.specs.Prelude.{◌≡◌, ◌≢◌, ◌<◌, ◌≤◌, ◌+◌, ◌-◌, ◌*◌, ◌^◌, ◌∷◌, [], length, take, drop, not, filter, true, false, nat_eq, IfOk, IfErr};
ghost use Rattle.std.specs.Ordering.{nat_cmp, eq_by_cmp};
ghost use Rattle.std.specs.Cmp.Lexicographic.{slice_cmp};
ghost use Rattle.std.specs.List.{AllByRecursion, starts_with};
ghost use Rattle.std.specs.FinMap as globals;
ghost use Rattle.global_defs.specs.declared.limits.TheConstants.{LONGEST_VALUE};
ghost use Rattle.journal_defs.specs.Leaves.{ROOM, IsEncoded, IsLeaf};
ghost use Rattle.block_fmt.specs.Cells.{size_of, cell_at, without_between, StandsIn, BelongsAt};
ghost use Rattle.gvt_leaf.specs.Links.{one_if};
ghost use Rattle.gvt_leaf.specs.Chained.{leaf_cells, all_cells, replaced};
ghost use Rattle.gvt_leaf.specs.Order.{AreRising};
ghost use Rattle.gvt_leaf.specs.Clean.{KeepsClean};
ghost use Rattle.gvt_leaf.specs.Edits.{Fits, HasPut, IsOpened, AreFilledBut, cell_size, outside};

use super::chain::Chain;
use super::seats::{place_of, seat};
use block_fmt::Block;

/// How many bytes of a block are left for cells.
const ROOM: usize = 4088;

/// Where a leaf is cut in two, and whether a cell more goes into the part behind the cut.
#[derive(Clone, Copy, Debug)]
pub(crate) struct Cut {
    at: u32,
    behind: bool,
}

/// How many bytes a cell has besides its key and its value.
const CELL_HEAD: usize = 3;

/// The last place of a leaf before which at most half of its bytes stand. It looks by halves.
fn middle(leaf: &Block) -> u32
    ensures inside { result ≤ length leaf.now.cells }
    ensures at { 2 * size_of (take result leaf.now.cells) ≤ size_of leaf.now.cells }
    ensures more { result < length leaf.now.cells → size_of leaf.now.cells < 2 * size_of (take (result + 1) leaf.now.cells) }
{
    let used = leaf.used();
    let mut low = 0;
    let mut high = leaf.len() + 1;
    while 1 < high - low {
        let middle = low + (high - low) / 2;
        if used < 2 * leaf.used_before(middle) {
            high = middle;
        } else {
            low = middle;
        }
    }
    low
}

/// Where a leaf is cut that has no room for a cell of so many bytes at a place. Behind the last cell of the last leaf a new leaf gets
/// it alone, so that rising keys fill their leaves; else the cut is near the middle.
fn chosen(leaf: &Block, place: u32, size: usize, is_last: bool) -> Cut
    requires place { place ≤ length leaf.now.cells }
    requires size { size ≤ 1758 }
    ensures { Fits leaf.now.cells place size result }
{
    let used = leaf.used();
    if is_last && place == leaf.len() {
        return Cut {
            at: place,
            behind: true,
        };
    }
    let at = middle(leaf);
    if place <= at {
        Cut { at, behind: false }
    } else if used + size <= ROOM + leaf.used_before(at) {
        Cut { at, behind: true }
    } else {
        Cut {
            at: at + 1,
            behind: true,
        }
    }
}

/// Puts a new cell into a leaf that has no room for it, which is cut in two.
fn put_apart(chain: &mut Chain, i: usize, place: u32, key: &[u8], value: &[u8])
    requires inside { i < length chain.old.leaves }
    requires place { BelongsAt (leaf_cells chain.old.leaves i) key.now place }
    requires full { ROOM < size_of (leaf_cells chain.old.leaves i) + cell_size (key.now, value.now) }
    requires key { IsEncoded key.now }
    requires value { length value.now ≤ LONGEST_VALUE }
    requires room { 1 ≤ chain.old.pool.room }
    ensures put { HasPut chain.old.leaves chain.new.leaves i key.now value.now }
    ensures room { chain.old.pool.room ≡ chain.new.pool.room + 1 }
    ensures clean { KeepsClean chain.old.pool chain.new.pool }
{
    let size = CELL_HEAD + key.len() + value.len();
    let is_last = chain.len() == i + 1;
    let cut = chosen(chain.leaf(i), place, size, is_last);
    chain.split(i, cut.at);
    chain.put(i + usize::from(cut.behind), key, value);
}

/// Takes a key's cell out of the leaf in which it would stand, and answers where it belongs.
fn open_place(chain: &mut Chain, i: usize, place: Result<u32, u32>, key: &[u8]) -> u32
    requires inside { i < length chain.old.leaves }
    requires found { IfOk place (StandsIn (leaf_cells chain.old.leaves i) key.now) }
    requires place { IfErr place (BelongsAt (leaf_cells chain.old.leaves i) key.now) }
    ensures opened { IsOpened chain.old.leaves chain.new.leaves i key.now result }
    ensures room { chain.new.pool.room ≡ chain.old.pool.room }
    ensures clean { KeepsClean chain.old.pool chain.new.pool }
{
    let _ = chain.leaf(i).len();
    match place {
        Ok(place) => {
            chain.cut(i, place, place + 1);
            place
        }
        Err(place) => place,
    }
}

/// Puts a cell into a leaf at its place, which is cut in two where it has no room for that.
fn put_in_leaf(chain: &mut Chain, i: usize, place: Result<u32, u32>, key: &[u8], value: &[u8])
    requires inside { i < length chain.old.leaves }
    requires found { IfOk place (StandsIn (leaf_cells chain.old.leaves i) key.now) }
    requires place { IfErr place (BelongsAt (leaf_cells chain.old.leaves i) key.now) }
    requires key { IsEncoded key.now }
    requires value { length value.now ≤ LONGEST_VALUE }
    requires room { 1 ≤ chain.old.pool.room }
    ensures put { HasPut chain.old.leaves chain.new.leaves i key.now value.now }
    ensures room { chain.old.pool.room ≤ chain.new.pool.room + 1 }
    ensures clean { KeepsClean chain.old.pool chain.new.pool }
{
    if chain.leaf(i).fits_at(place, key, value) {
        chain.put_at(i, place, key, value);
    } else {
        let place = open_place(chain, i, place, key);
        put_apart(chain, i, place, key, value);
    }
}

/// Gives a key that value, and tells whether it had none. It may use up room for one leaf, and takes no memory.
pub(crate) fn set(chain: &mut Chain, key: &[u8], value: &[u8]) -> bool
    requires rising { AreRising chain.old.leaves }
    requires key { IsEncoded key.now }
    requires value { length value.now ≤ LONGEST_VALUE }
    requires room { 1 ≤ chain.old.pool.room }
    ensures cells { all_cells chain.new.leaves ≡ globals.put (slice_cmp nat_cmp) key.now value.now (all_cells chain.old.leaves) }
    ensures rising { AreRising chain.new.leaves }
    ensures count { length (all_cells chain.new.leaves) ≡ length (all_cells chain.old.leaves) + one_if result }
    ensures room { chain.old.pool.room ≤ chain.new.pool.room + 1 }
    ensures clean { KeepsClean chain.old.pool chain.new.pool }
{
    let i = seat(chain, key);
    let place = chain.leaf(i).find(key);
    put_in_leaf(chain, i, place, key, value);
    place.is_err()
}

/// Takes a leaf without cells out of the chain, unless it is the first.
fn drop_empty(chain: &mut Chain, i: usize)
    requires inside { i < length chain.old.leaves }
    requires filled { AreFilledBut chain.old.leaves i }
    ensures cells { all_cells chain.new.leaves ≡ all_cells chain.old.leaves }
    ensures filled { AllByRecursion (λ l. l ≢ []) (drop 1 chain.new.leaves) }
    ensures room { chain.new.pool.room ≡ chain.old.pool.room }
    ensures clean { KeepsClean chain.old.pool chain.new.pool }
{
    if i == 0 {
        return;
    }
    if chain.leaf(i).is_empty() {
        chain.unlink_behind(i - 1);
    }
}

/// Takes cells of a leaf away, and the leaf too where none is left, unless it is the first.
fn take_out(chain: &mut Chain, i: usize, from: u32, to: u32)
    requires inside { i < length chain.old.leaves }
    requires order { from ≤ to }
    requires cells { to ≤ length (leaf_cells chain.old.leaves i) }
    requires rising { AreRising chain.old.leaves }
    ensures cells { all_cells chain.new.leaves ≡ all_cells (replaced chain.old.leaves i (without_between (leaf_cells chain.old.leaves i) from to ∷ [])) }
    ensures count { length (all_cells chain.old.leaves) ≡ length (all_cells chain.new.leaves) + (to - from) }
    ensures rising { AreRising chain.new.leaves }
    ensures room { chain.new.pool.room ≡ chain.old.pool.room }
    ensures clean { KeepsClean chain.old.pool chain.new.pool }
{
    chain.cut(i, from, to);
    drop_empty(chain, i);
}

/// Takes a key's cell away, and tells whether there was one.
pub(crate) fn remove(chain: &mut Chain, key: &[u8]) -> bool
    requires { AreRising chain.old.leaves }
    ensures cells { all_cells chain.new.leaves ≡ filter (λ c. not (eq_by_cmp (slice_cmp nat_cmp) c.0 key.now)) (all_cells chain.old.leaves) }
    ensures rising { AreRising chain.new.leaves }
    ensures count { length (all_cells chain.old.leaves) ≡ length (all_cells chain.new.leaves) + one_if result }
    ensures room { chain.new.pool.room ≡ chain.old.pool.room }
    ensures clean { KeepsClean chain.old.pool chain.new.pool }
{
    let i = seat(chain, key);
    match chain.leaf(i).find(key) {
        Ok(place) => {
            take_out(chain, i, place, place + 1);
            true
        }
        Err(_) => false,
    }
}

/// Where the cells of a leaf end that begin with these bytes, from a place on.
pub(crate) fn run_end(leaf: &Block, from: u32, code: &[u8]) -> u32
    requires { from ≤ length leaf.now.cells }
    ensures order { from ≤ result }
    ensures inside { result ≤ length leaf.now.cells }
    ensures run { AllByRecursion (λ c. starts_with nat_eq c.0 code.now ≡ true) (take (result - from) (drop from leaf.now.cells)) }
    ensures end { result < length leaf.now.cells → starts_with nat_eq (cell_at leaf.now.cells result).0 code.now ≡ false }
    ensures form { IsLeaf leaf.now }
{
    let count = leaf.len();
    let mut end = from;
    while end < count && leaf.key(end).starts_with(code) {
        end += 1;
    }
    end
}

/// Takes away the cells of a leaf that begin with these bytes, one after another from a place on, and answers how many.
fn cut_run(chain: &mut Chain, i: usize, from: u32, code: &[u8]) -> u32
    requires inside { i < length chain.old.leaves }
    requires place { from ≤ length (leaf_cells chain.old.leaves i) }
    requires rising { AreRising chain.old.leaves }
    ensures rising { AreRising chain.new.leaves }
    ensures kept { outside code.now (all_cells chain.new.leaves) ≡ outside code.now (all_cells chain.old.leaves) }
    ensures count { length (all_cells chain.old.leaves) ≡ length (all_cells chain.new.leaves) + result }
    ensures none { result ≡ 0 → chain.new.leaves ≡ chain.old.leaves }
    ensures end { result ≡ 0 → from < length (leaf_cells chain.old.leaves i)
        → starts_with nat_eq (cell_at (leaf_cells chain.old.leaves i) from).0 code.now ≡ false }
    ensures room { chain.new.pool.room ≡ chain.old.pool.room }
    ensures clean { KeepsClean chain.old.pool chain.new.pool }
{
    let end = run_end(chain.leaf(i), from, code);
    if end <= from {
        return 0;
    }
    take_out(chain, i, from, end);
    end - from
}

/// Takes some of the cells away that begin with these bytes, those of one leaf, and answers how many. None only where none is left.
fn kill_some(chain: &mut Chain, code: &[u8]) -> u32
    requires { AreRising chain.old.leaves }
    ensures rising { AreRising chain.new.leaves }
    ensures kept { outside code.now (all_cells chain.new.leaves) ≡ outside code.now (all_cells chain.old.leaves) }
    ensures count { length (all_cells chain.old.leaves) ≡ length (all_cells chain.new.leaves) + result }
    ensures none { result ≡ 0 → outside code.now (all_cells chain.new.leaves) ≡ all_cells chain.new.leaves }
    ensures room { chain.new.pool.room ≡ chain.old.pool.room }
    ensures clean { KeepsClean chain.old.pool chain.new.pool }
{
    let count = chain.len();
    let i = seat(chain, code);
    let leaf = chain.leaf(i);
    let from = place_of(leaf, code);
    if from < leaf.len() {
        cut_run(chain, i, from, code)
    } else if i + 1 < count {
        cut_run(chain, i + 1, 0, code)
    } else {
        0
    }
}

/// Takes all cells away that begin with these bytes, and answers how many. The time grows with how many there are.
pub(crate) fn kill(chain: &mut Chain, code: &[u8]) -> u32
    requires rising { AreRising chain.old.leaves }
    requires few { length (all_cells chain.old.leaves) < 2 ^ 32 }
    ensures rising { AreRising chain.new.leaves }
    ensures cells { all_cells chain.new.leaves ≡ outside code.now (all_cells chain.old.leaves) }
    ensures count { length (all_cells chain.old.leaves) ≡ length (all_cells chain.new.leaves) + result }
    ensures room { chain.new.pool.room ≡ chain.old.pool.room }
    ensures clean { KeepsClean chain.old.pool chain.new.pool }
{
    let mut count = 0;
    let mut some = kill_some(chain, code);
    while 0 < some {
        count += some;
        some = kill_some(chain, code);
    }
    count
}
