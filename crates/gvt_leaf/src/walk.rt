//! The walk along the chain of leaves of a pool.
ghost use Rattle.std.specs.Prelude.{◌≡◌, ◌<◌, ◌+◌, ◌^◌, ℕ, false, length, count_by, slice_index_or, IfOk, IsErrOf, MatchBool};
ghost use Rattle.block_pool.specs.Pool.{leaf_at};
ghost use Rattle.journal_defs.specs.Leaves.{IsLeaf};
ghost use Rattle.gvt_leaf.specs.Links.{times, inside, one_if};
ghost use Rattle.gvt_leaf.specs.Walked.{go_on, Follows, Breaks, BreaksAt, AreWalked};

use super::error::ChainError;
use block_pool::BlockPool;
use gvn_key::NoMemory;
use std::alloc::Global;
use std::cmp::Ordering;

/// The leaves of a pool in their order, and of each block whether it's one of them.
#[derive(Debug, Drop)]
pub(crate) struct Walked {
    pub order: Vec<u32>,
    pub seen: Vec<bool>,
}

/// Whether a leaf has cells, and its first key is past the last one of the leaf before.
fn goes_on(pool: &BlockPool, before: u32, number: u32) -> bool
    requires before { before < length pool.now.leaves }
    requires inside { number < length pool.now.leaves }
    ensures goes { result ≡ go_on (leaf_at pool.now before).cells (leaf_at pool.now number).cells }
    ensures form { IsLeaf (leaf_at pool.now number) }
{
    let before = pool.block(before);
    let leaf = pool.block(number);
    if leaf.len() == 0 {
        return false;
    }
    let count = before.len();
    count == 0 || matches!(before.key(count - 1).cmp(leaf.key(0)), Ordering::Less)
}

/// Whether the chain goes on from one leaf to this block, where it hasn't been.
fn follows(pool: &BlockPool, seen: &[bool], last: u32, number: u32) -> bool
    requires marks { length seen.now ≡ length pool.now.leaves }
    requires last { last < length pool.now.leaves }
    ensures { MatchBool result (Follows pool.now seen.now last number) (Breaks pool.now seen.now last number) }
{
    if pool.count() <= number {
        return false;
    }
    if seen[number as usize] {
        return false;
    }
    goes_on(pool, last, number)
}

/// Walks along the chain from block 0 to its end, or to the first block at which it breaks.
pub(crate) fn walk(alloc: Global, pool: &BlockPool) -> Result<Walked, ChainError>
    ensures walked { IfOk result (λ w. AreWalked pool.now w.order.items w.seen.items) }
    ensures broken { (block : ℕ) → IsErrOf result (ChainError.Broken block) → BreaksAt pool.now block }
{
    if pool.count() == 0 {
        return Err(ChainError::Broken { block: 0 });
    }
    let mut seen = vec![in alloc; false; pool.count() as usize]?;
    seen[0] = true;
    let mut order = Vec::new(alloc);
    order.push(0)?;
    let mut last = 0;
    let mut number = pool.block(last).next();
    while number != 0 {
        if !follows(pool, &seen, last, number) {
            return Err(ChainError::Broken { block: number });
        }
        seen[number as usize] = true;
        order.push(number)?;
        last = number;
        number = pool.block(last).next();
    }
    Ok(Walked { order, seen })
}

/// The numbers that aren't seen.
pub(crate) fn unseen(alloc: Global, seen: &[bool]) -> Result<Vec<u32>, NoMemory>
    requires { length seen.now < 2 ^ 32 }
    ensures apart { IfOk result (λ free. (b : ℕ) → times b free.items + one_if (slice_index_or seen.now b false) ≡ inside b (length seen.now)) }
    ensures count { IfOk result (λ free. length free.items + count_by (λ s. s) seen.now ≡ length seen.now) }
{
    let mut free = Vec::new(alloc);
    for (number, is_seen) in seen.iter().enumerate() {
        if !*is_seen {
            free.push(number as u32)?;
        }
    }
    Ok(free)
}
