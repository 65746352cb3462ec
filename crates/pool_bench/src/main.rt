//! Measures the journal pool: one thread puts entries and hardens each, and another reads them at the same time.
//!
//! The first argument says how many entries, which is 20,000 where there is none. Standard output has one line, the same at
//! each run of so many entries. Standard error says how many entries a second were put and got.
#![tactic(auto)]

ghost use Rattle.std.specs.Prelude.{◌≡◌, ◌+◌, ◌^◌, ◌<◌, ◌≤◌, IfOk};
ghost use Rattle.global_defs.specs.declared.limits.TheConstants.{NUMBERS_END};
ghost use Rattle.jnl_pool.specs.Pooling.{next_number};

use anyhow::{Context, Result, ensure};
use jnl_pool::{Pool, ReadAnswer, Reader, Writer};
use std::env::Env;
use std::thread::{Threads, join, yield_now};
use std::time::{Clock, Duration, Instant};
use std::{env, io};

// How many bytes an entry has.
const ENTRY_BYTES: usize = 64;

// How many words the pool has: the most that a pool can have.
const POOL_WORDS: u32 = 1_048_576;

// How many entries are put where no argument says it, and how many at most.
const DEFAULT_COUNT: u64 = 20_000;

const MOST_COUNT: u64 = 1_000_000_000;

// How often the reader may find nothing to read before it gives up.
const IDLE_TURNS: u64 = 50_000_000;

// What the reader's thread did: how many entries it got, whether each was as it was put, and how long it took.
#[derive(Drop)]
struct Readings {
    got: u64,
    right: bool,
    took: io::Result<Duration>,
}

// The entry of this number, which begins with it.
fn entry_of(number: u64) -> [u8; ENTRY_BYTES] {
    let mut bytes = [(number % 251) as u8; ENTRY_BYTES];
    bytes[..8].copy_from_slice(&number.to_be_bytes());
    bytes
}

// Puts so many entries, and hardens each. Answers how long that took.
fn put_all(
    clock: &impl Clock,
    pool: &Pool,
    writer: Writer,
    count: u64,
) -> (Writer, io::Result<Duration>)
    requires pool { writer.table ≡ pool.now.table }
    requires room { next_number writer + count < NUMBERS_END }
    ensures { result.0.table ≡ pool.now.table }
{
    let mut writer = writer;
    let start = Instant::now(clock);
    for _ in 0..count {
        writer.put(pool, &entry_of(writer.next_number()));
        writer.harden(pool);
    }
    (writer, start.and_then(|start| start.elapsed(clock)))
}

// Reads the entries from the number 1 on until it has so many, one is wrong or one was overwritten.
fn get_all(clock: &impl Clock, pool: &Pool, reader: Reader, count: u64) -> (Reader, Readings)
    requires pool { reader.table ≡ pool.now.table }
    ensures { result.0.table ≡ pool.now.table }
{
    let mut reader = reader;
    let mut got = 0;
    let mut right = true;
    let start = Instant::now(clock);
    for _ in 0..count.saturating_add(IDLE_TURNS) {
        if got >= count || !right {
            break;
        }
        match reader.read(pool) {
            ReadAnswer::Got => {
                got += 1;
                right = reader.bytes() == entry_of(got).as_slice();
            }
            ReadAnswer::NotYet => yield_now(),
            ReadAnswer::Overwritten => break,
        }
    }
    let took = start.and_then(|start| start.elapsed(clock));
    (reader, Readings { got, right, took })
}

// How many a second that is.
fn rate(count: u64, took: Duration) -> u128 {
    u128::from(count) * 1_000_000_000 / took.as_nanos().max(1)
}

// Puts and reads so many entries in two threads, and writes what that gave.
fn measure<R: Threads + Clock + Print + Eprint + Sync>(
    rt: &R,
    pool: &Pool,
    writer: Writer,
    reader: Reader,
    count: u64,
) -> Result<()>
    requires pool { (writer.table ≡ pool.now.table) × (reader.table ≡ pool.now.table) }
    requires room { next_number writer + count < NUMBERS_END }
{
    let ((mut writer, put_took), (reader, readings)) = join(
        rt,
        move || -> (Writer, io::Result<Duration>)
            requires { (writer.table ≡ pool.now.table) × (next_number writer + count < NUMBERS_END) }
            ensures { result.0.table ≡ pool.entry.now.table }
        { put_all(rt, pool, writer, count) },
        move || -> (Reader, Readings)
            requires { reader.table ≡ pool.now.table }
            ensures { result.0.table ≡ pool.entry.now.table }
        { get_all(rt, pool, reader, count) },
    );
    pool.settle(&mut writer, reader);
    let Readings { got, right, took } = readings;
    ensure!(right, "entry {got} was not as it was put");
    let missed = count.saturating_sub(got);
    let (puts, gets) = (rate(count, put_took?), rate(got, took?));
    eprintln!(rt; "put {puts} entries a second, got {got} at {gets} a second, missed {missed}")?;
    println!(rt; "{count} entries put, each got or missed")?;
    Ok(())
}

// How many entries the first argument asks for.
fn asked_count<R: Env + Alloc>(rt: &R) -> Result<u64>
    ensures { IfOk result (λ n. n ≤ 1000000000) }
{
    let Some(word) = env::args(rt)?.nth(1) else {
        return Ok(DEFAULT_COUNT);
    };
    let count = word.parse::<u64>().context("reading the count")?;
    ensure!(count <= MOST_COUNT, "the count is past {MOST_COUNT}");
    Ok(count)
}

fn main(rt: HostRuntime) -> Result<()> {
    let count = asked_count(&rt)?;
    let (pool, mut writer) = Pool::make(rt.alloc(), POOL_WORDS, 1)
        .ok()
        .context("no memory for the pool")?;
    let reader = pool
        .reader(&mut writer)
        .ok()
        .context("no memory for the reader")?;
    measure(&rt, &pool, writer, reader, count)
}
