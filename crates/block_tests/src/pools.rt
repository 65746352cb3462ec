//! A pool written out to a disk of which each call fails in turn.
ghost use Rattle.std.specs.Prelude.{◌≡◌, ◌∷◌, [], true, length, OnErr};

use block_fmt::Block;
use block_pool::{BlockPool, PoolError};
use gvn_key::Key;
use repl_disk::{Disk, MemDisk};
use std::alloc::Global;
use std::process::Abort;

/// The file of the blocks.
const FILE: u32 = 3;

/// A leaf with one node.
fn leaf(rt: &impl Abort, alloc: Global, node: &[u8], next: u32) -> Block {
    let key = Key::parse(alloc, node).expect(rt, "a key");
    let _ = key.code();
    let mut block = Block::new(alloc, next).expect(rt, "memory");
    assert!(rt; block.fits(key.as_encoded(), b"value"));
    block.put(key.as_encoded(), b"value").expect(rt, "memory");
    block
}

/// Three leaves that are marked.
fn three(rt: &impl Abort, alloc: Global) -> BlockPool
    ensures marks { result.dirty ≡ true ∷ true ∷ true ∷ [] }
    ensures count { length result.leaves ≡ 3 }
{
    let mut pool = BlockPool::new(alloc);
    pool.add(leaf(rt, alloc, b"^A", 1), true)
        .expect(rt, "memory");
    pool.add(leaf(rt, alloc, b"^B", 2), true)
        .expect(rt, "memory");
    pool.add(leaf(rt, alloc, b"^C", 0), true)
        .expect(rt, "memory");
    pool
}

/// Writes out a pool of three marked leaves.
fn write<D: Disk>(pool: &mut BlockPool, disk: &mut D) -> Result<(), PoolError>
    requires marks { pool.old.dirty ≡ true ∷ true ∷ true ∷ [] }
    requires count { length pool.old.leaves ≡ 3 }
    ensures err { OnErr result (pool.new ≡ pool.old) }
    ensures count { length pool.new.leaves ≡ 3 }
{
    pool.write_out(disk, FILE)
}

/// Fails the disk after so many calls of a first writing, and writes again.
fn fails_after(rt: &impl Abort, alloc: Global, calls: u64) {
    let mut disk = MemDisk::new(alloc).expect(rt, "memory");
    let mut pool = three(rt, alloc);
    disk.fuse(calls);
    match write(&mut pool, &mut disk) {
        Ok(()) => assert!(rt; 3 <= calls),
        Err(error) => {
            assert!(rt; error == PoolError::Failed && calls < 3);
            assert!(rt; pool.is_dirty(0) && pool.is_dirty(1) && pool.is_dirty(2));
            disk.crash(1);
            write(&mut pool, &mut disk).expect(rt, "a writing");
        }
    }
    assert!(rt; !pool.is_dirty(0) && !pool.is_dirty(1) && !pool.is_dirty(2));
}

#[test]
fn a_pool_written_out_while_the_disk_fails(rt: HostRuntime) {
    for calls in 0..5 {
        fails_after(&rt, rt.alloc(), calls);
    }
}
