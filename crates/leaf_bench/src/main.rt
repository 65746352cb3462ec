//! Makes so many nodes in leaves or in a tree, and then sets or looks up some so often, so that instructions can be counted.
//!
//! Its words: `leaves` or `globals`; what is done behind that, `set`, `get`, `order` or `after`, or `encode` or `decode`, which go over
//! the blocks of leaves; how many nodes there are; and how often it is done. Without words it makes 100 nodes in leaves. Standard output
//! has one line, the same at each run: how many blocks there are, and how often something was found.
#![tactic(auto)]

ghost use Rattle.std.specs.Prelude.{IfOk};
ghost use Rattle.global_defs.specs.Fields.{IsUpdate};
ghost use Rattle.gvn_key.specs.Terms.{update_value};

use anyhow::{Context, Result};
use block_fmt::Block;
use global_defs::limits::BLOCK;
use gvn_globals::{Globals, Lookup};
use gvn_key::terms::Update;
use gvn_key::{Bytes, Key};
use gvt_leaf::Leaves;
use std::alloc::Global;
use std::env;
use std::env::Env;

// A value of 20 bytes.
const VALUE: &[u8] = b"abcdefghijklmnopqrst";

// The text of a subscript.
fn subscript(alloc: Global, number: u32) -> Result<Bytes> {
    let mut text = Bytes::new(alloc);
    text.push_decimal(u64::from(number))?;
    Ok(text)
}

// The node ^T(number).
fn node(alloc: Global, number: u32) -> Result<Key> {
    Ok(Key::new(alloc, b"T", &[subscript(alloc, number)?])?)
}

// A number up to so many, another one each time.
fn scattered(i: u32, nodes: u32) -> u32 {
    i.wrapping_mul(7919) % nodes.max(1)
}

// Gives a node a value.
fn setting(alloc: Global, number: u32) -> Result<Update>
    ensures { IfOk result (λ update. IsUpdate (update_value update)) }
{
    let key = node(alloc, number)?;
    let value = Bytes::of(alloc, VALUE)?;
    // What has a code is a key of its form.
    let _ = key.code();
    Ok(Update::Set(key, value))
}

// How often something is found by look-ups of one kind.
fn look<L: Lookup>(alloc: Global, on: &L, what: &str, nodes: u32, times: u32) -> Result<u32> {
    let top = Key::new(alloc, b"T", &[])?;
    let mut found = 0u32;
    for i in 0..times {
        let number = scattered(i, nodes);
        let there = match what {
            "get" => on.get(&node(alloc, number)?).is_some(),
            "after" => on.after(&node(alloc, number)?)?.is_some(),
            _ => on
                .order(&top, subscript(alloc, number)?.as_slice())?
                .is_some(),
        };
        found = found.saturating_add(u32::from(there));
    }
    Ok(found)
}

// Whether a block is the same once it was encoded, and decoded where that is asked for.
fn is_same(alloc: Global, block: &Block, what: &str, bytes: &mut [u8; BLOCK]) -> Result<bool> {
    block.encode(bytes);
    Ok(what == "encode" || Block::decode(alloc, bytes, 0)?.len() == block.len())
}

// How many of these blocks are the same.
fn code(alloc: Global, leaves: &Leaves, what: &str, times: u32) -> Result<u32> {
    let pool = leaves.pool();
    let count = pool.count();
    let mut bytes = [0; BLOCK];
    let mut same = 0u32;
    for i in 0..times {
        let number = scattered(i, count);
        if number < count {
            let is_same = is_same(alloc, pool.block(number), what, &mut bytes)?;
            same = same.saturating_add(u32::from(is_same));
        }
    }
    Ok(same)
}

// What is done with leaves, once so many nodes are set in rising order.
fn with_leaves(alloc: Global, what: &str, nodes: u32, times: u32) -> Result<(u32, u32)> {
    let mut leaves = Leaves::new(alloc)?;
    for number in 0..nodes {
        leaves.apply(&setting(alloc, number)?)?;
    }
    let found = match what {
        "set" => {
            for i in 0..times {
                leaves.apply(&setting(alloc, scattered(i, nodes))?)?;
            }
            times
        }
        "encode" | "decode" => code(alloc, &leaves, what, times)?,
        _ => look(alloc, &leaves, what, nodes, times)?,
    };
    Ok((leaves.pool().count(), found))
}

// The same with a tree.
fn with_globals(alloc: Global, what: &str, nodes: u32, times: u32) -> Result<(u32, u32)> {
    let mut globals = Globals::new(alloc);
    for number in 0..nodes {
        globals.apply(&setting(alloc, number)?)?;
    }
    let found = match what {
        "set" => {
            for i in 0..times {
                globals.apply(&setting(alloc, scattered(i, nodes))?)?;
            }
            times
        }
        _ => look(alloc, &globals, what, nodes, times)?,
    };
    Ok((0, found))
}

fn main(rt: HostRuntime) -> Result<()> {
    let words = env::args(&rt)?;
    let mut words = words.skip(1);
    let kind = words.next();
    let what = words.next();
    let nodes = match words.next() {
        Some(word) => word.parse::<u32>().context("reading how many nodes")?,
        None => 100,
    };
    let times = match words.next() {
        Some(word) => word.parse::<u32>().context("reading how often")?,
        None => 0,
    };
    let what = what.as_deref().unwrap_or("get");
    let (blocks, found) = match kind.as_deref() {
        Some("globals") => with_globals(rt.alloc(), what, nodes, times)?,
        _ => with_leaves(rt.alloc(), what, nodes, times)?,
    };
    println!(&rt; "{nodes} nodes in {blocks} blocks: found {found}")?;
    Ok(())
}
