//! Ships entries over links in memory to a stand-in of a secondary, so that instructions can be counted.
//!
//! The first argument is how many entries there are, the second how many bytes the value of each has. Standard output has one line, the
//! same at each run. A third argument, `apply`, ships nothing: of three transactions with such values, made beforehand, the stand-in applies
//! the first so many, so that what it takes by itself can be told.
#![tactic(auto)]

use anyhow::{Context, Result};
use global_defs::limits::NUMBERS_END;
use gvn_key::Bytes;
use repl_link::MemLinker;
use ship_session::{SessionEnd, finish};
use ship_stands::{Primary, Site, StandError, apply_some, history};
use std::alloc::Global;
use std::env;
use std::env::Env;

// Ships so many entries in one session: how many came, where BYE came behind them.
fn ship(alloc: Global, length: u64, value: u16) -> Result<u64, StandError> {
    let length = length.min(NUMBERS_END - 1);
    let theirs = history(alloc, length, &[(b'A', 1, 1)])?;
    let mut primary = Primary::new(alloc, length, 1, value)?;
    let mut site = Site::new(history(alloc, 0, &[])?)?;
    let name = Bytes::of(alloc, b"B")?;
    let mut links = MemLinker::new(alloc);
    let ended = finish(
        alloc,
        &theirs,
        &name,
        &mut primary,
        &mut site,
        &mut links,
        0,
        0,
    );
    Ok(match ended {
        Ok(SessionEnd::At(came)) => came,
        _ => 0,
    })
}

fn main(rt: HostRuntime) -> Result<()> {
    let words = env::args(&rt)?;
    let mut words = words.skip(1);
    let length = match words.next() {
        Some(word) => word.parse::<u64>().context("reading the count")?,
        None => 100,
    };
    let value = match words.next() {
        Some(word) => word.parse::<u16>().context("reading the size")?,
        None => 10,
    };
    if words.next().is_some() {
        let applied = apply_some(rt.alloc(), length, value).context("applying")?;
        println!(&rt; "{applied} entries applied")?;
        return Ok(());
    }
    let came = ship(rt.alloc(), length, value).context("shipping")?;
    println!(&rt; "{length} entries with values of {value} bytes: {came}")?;
    Ok(())
}
