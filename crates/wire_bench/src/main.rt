//! Feeds the reader of frames with the frame of the largest entry, 20 times, so that instructions can be counted.
//!
//! The first argument is the size of a piece in bytes, all of the frame where there is none. With a second argument the pieces
//! are cut and not fed, which shows what cutting alone costs. Standard output has one line, the same at each run.
#![tactic(auto)]

use anyhow::{Context, Result};
use gvn_key::{Bytes, NoMemory};
use repl_wire::{FrameError, FrameList, Frames};
use std::alloc::Global;
use std::env;
use std::env::Env;

// How often the frame is fed.
const TIMES: u32 = 20;

// How many updates the entry has, how long its keys' subscripts and its values are: the most that an entry may have.
const UPDATES: u32 = 256;

const SUBSCRIPT: u32 = 251;

const VALUE: u32 = 1500;

// The frame's type and length, the entry's number, updater, serial and count.
const HEAD: &[u8] =
    b"\x05\x00\x06\xdf\x0f\x00\x00\x00\x00\x00\x00\x00\x01\x01\x00\x00\x00\x01\x01\x00";

// Adds a byte so many times.
fn fill(out: &mut Bytes, byte: u8, count: u32) -> Result<(), NoMemory> {
    for _ in 0..count {
        out.push(byte)?;
    }
    Ok(())
}

// The frame of the largest entry.
fn largest(alloc: Global) -> Result<Bytes, NoMemory> {
    let mut out = Bytes::of(alloc, HEAD)?;
    for _ in 0..UPDATES {
        out.push_all(b"\x01\xffX\x00\x04")?;
        fill(&mut out, b'a', SUBSCRIPT)?;
        out.push_all(b"\x00\x05\xdc")?;
        fill(&mut out, b'b', VALUE)?;
    }
    Ok(out)
}

// Feeds bytes to a new reader in pieces of a size, and answers how many frames came.
fn feed(alloc: Global, bytes: &[u8], size: usize) -> Result<usize, FrameError> {
    let mut frames = Frames::new(alloc);
    let mut out = FrameList::new(alloc);
    for piece in bytes.chunks(size.max(1)) {
        frames.feed(piece, &mut out)?;
    }
    Ok(out.len())
}

// Cuts bytes in pieces of a size, and answers how many bytes they have.
fn cut(bytes: &[u8], size: usize) -> usize {
    let mut count = 0usize;
    for piece in bytes.chunks(size.max(1)) {
        count = count.saturating_add(piece.len());
    }
    count
}

// Does so many times what the words ask for, and answers what it came to.
fn measure(alloc: Global, bytes: &[u8], size: usize, dry: bool) -> Result<usize, FrameError> {
    let mut count = 0usize;
    for _ in 0..TIMES {
        let came = if dry {
            cut(bytes, size)
        } else {
            feed(alloc, bytes, size)?
        };
        count = count.saturating_add(came);
    }
    Ok(count)
}

fn main(rt: HostRuntime) -> Result<()> {
    let words = env::args(&rt)?;
    let mut words = words.skip(1);
    let frame = largest(rt.alloc())?;
    let size = match words.next() {
        Some(word) => word.parse::<usize>().context("reading the size")?,
        None => frame.len(),
    };
    let count = measure(rt.alloc(), frame.as_slice(), size, words.next().is_some())?;
    println!(&rt; "{} bytes in pieces of {size}: {count}", frame.len())?;
    Ok(())
}
