// Reads beside puts: worked counts, and threads.
ghost use Rattle.std.specs.Prelude.{◌≡◌, ℕ, ◌+◌, ◌-◌, ◌^◌, ◌<◌, ◌≤◌, vec_len, vec_capacity};
ghost use Rattle.std.specs.Thread.{IsSync};
ghost use Rattle.global_defs.specs.declared.limits.TheConstants.{NUMBERS_END};
ghost use Rattle.jnl_pool.specs.Pooling.{next_number};

use jnl_pool::{Pool, ReadAnswer, Reader, Writer};
use std::alloc::Global;
use std::test::Fail;
use std::thread::{Threads, join, yield_now};

// The longest entry of `entry_of`, in bytes.
const LONGEST: usize = 40;

// How many entries the writer puts in a race.
const ENTRIES: u64 = 20_000;

// An entry that was put: so many of these bytes.
type Put = ([u8; LONGEST], usize);

// The entry of this number: so many of these bytes, which begin with the number.
fn entry_of(number: u64) -> Put
    ensures { result.1 ≤ 40 }
{
    let mut bytes = [(number % 251) as u8; LONGEST];
    bytes[..8].copy_from_slice(&number.to_be_bytes());
    (bytes, 8 + (number % 33) as usize)
}

// Whether the reader has the entry of this number.
fn has_entry(reader: &Reader, number: u64) -> bool {
    let (bytes, len) = entry_of(number);
    reader.bytes() == &bytes[..len]
}

// Whether the list has the entry of this number, at its place: the first entry has the number 1.
fn lists_entry(list: &[Put], number: u64) -> bool {
    let (bytes, len) = entry_of(number);
    let Some(put) = list.get((number as usize).saturating_sub(1)) else {
        return false;
    };
    put.0[..] == bytes[..] && put.1 == len
}

// Puts so many entries, and hardens each. Pushes each to the list, so that a reader can take from it what it missed.
fn put_all(pool: &Pool, writer: Writer, list: Vec<Put>, count: u64) -> (Writer, Vec<Put>)
    requires pool { writer.table ≡ pool.now.table }
    requires room { next_number writer + count < NUMBERS_END }
    requires list { vec_len list + count ≤ vec_capacity list }
    ensures { result.0.table ≡ pool.now.table }
{
    let mut writer = writer;
    let mut list = list;
    for _ in 0..count {
        let (bytes, len) = entry_of(writer.next_number());
        writer.put(pool, &bytes[..len]);
        list.push_reserved((bytes, len));
        writer.harden(pool);
        yield_now();
    }
    (writer, list)
}

// Reads until an entry was overwritten, the number `end` is next or so many turns are over. Answers the first number that it
// has not got, or 0 where it got a wrong entry.
fn read_some(pool: &Pool, reader: Reader, end: u64, turns: u64) -> (Reader, u64)
    requires pool { reader.table ≡ pool.now.table }
    requires end { 1 ≤ end }
    ensures pool { result.0.table ≡ pool.now.table }
    ensures first { result.1 ≤ end }
{
    let mut reader = reader;
    let mut number = 1;
    for _ in 0..turns {
        if number >= end {
            break;
        }
        match reader.read(pool) {
            ReadAnswer::Got if has_entry(&reader, number) => number += 1,
            ReadAnswer::Got => return (reader, 0),
            ReadAnswer::NotYet => yield_now(),
            ReadAnswer::Overwritten => break,
        }
    }
    (reader, number)
}

// Reads on after the race, from the entry of the number `first` to that of the number before `end`: each entry that is whole
// is read from the pool, and each other one is taken from the list. Counts those of each kind that are as they were put.
fn take_missed(
    pool: &Pool,
    writer: &mut Writer,
    reader: &mut Reader,
    list: &[Put],
    first: u64,
    end: u64,
) -> (u64, u64)
    requires pool { (writer.old.table ≡ pool.now.table) × (reader.old.table ≡ pool.now.table) }
    requires first { first ≤ end }
    ensures pool { (writer.new.table ≡ pool.now.table) × (reader.new.table ≡ pool.now.table) }
    ensures once { result.0 + result.1 ≤ end - first }
{
    let mut read = 0;
    let mut taken = 0;
    for number in first..end {
        if number <= writer.next_number() && writer.anchor(pool, reader, number) {
            read += u64::from(reader.read(pool) == ReadAnswer::Got && has_entry(reader, number));
        } else {
            taken += u64::from(lists_entry(list, number));
        }
    }
    (read, taken)
}

// Puts and reads at once, and then reads or takes from the writer's list what the reader missed. Counts the entries that were
// got while racing, that were read afterwards and that were taken from the list, each as it was put.
fn race<R: Threads + Sync>(
    rt: &R,
    pool: &Pool,
    writer: Writer,
    reader: Reader,
    list: Vec<Put>,
) -> (u64, u64, u64)
    requires pool { (writer.table ≡ pool.now.table) × (reader.table ≡ pool.now.table) }
    requires room { next_number writer ≡ 1 }
    requires list { vec_len list + 20000 ≤ vec_capacity list }
    ensures once { result.0 + result.1 + result.2 ≤ 20000 }
{
    let ((mut writer, list), (mut reader, first)) = join(
        rt,
        move || -> (Writer, Vec<Put>)
            requires { (writer.table ≡ pool.now.table) × (next_number writer ≡ 1) × (vec_len list + 20000 ≤ vec_capacity list) }
            ensures { result.0.table ≡ pool.entry.now.table }
        { put_all(pool, writer, list, ENTRIES) },
        move || -> (Reader, u64)
            requires { reader.table ≡ pool.now.table }
            ensures pool { result.0.table ≡ pool.entry.now.table }
            ensures first { result.1 ≤ 20001 }
        { read_some(pool, reader, ENTRIES + 1, 1_000_000) },
    );
    if first == 0 || writer.next_number() != ENTRIES + 1 {
        return (0, 0, 0);
    }
    let (read, taken) = take_missed(pool, &mut writer, &mut reader, &list, first, ENTRIES + 1);
    pool.settle(&mut writer, reader);
    (first - 1, read, taken)
}

// Races in a pool of so many words. Answers whether each of the entries came exactly once: it was got while racing, read
// afterwards or taken from the writer's list. None where there is no memory.
fn all_come<R: Threads + Sync>(rt: &R, alloc: Global, words: u32) -> Option<bool>
    requires { (16 ≤ words) × (words ≤ 1048576) }
{
    let (pool, mut writer) = Pool::make(alloc, words, 1).ok()?;
    let reader = pool.reader(&mut writer).ok()?;
    let list = Vec::with_capacity(alloc, ENTRIES as usize).ok()?;
    let (got, read, taken) = race(rt, &pool, writer, reader, list);
    Some(got + read + taken == ENTRIES)
}

#[test]
fn claimed_counts_decide(rt: HostRuntime) -> Result<(), Fail> {
    let long = [7u8; 66];
    for (len, claimed, answer) in [(61, 16, ReadAnswer::Got), (66, 17, ReadAnswer::Overwritten)] {
        let Ok((pool, mut writer)) = Pool::make(rt.alloc(), 16, 1) else {
            panic!(rt; "no memory for the pool");
        };
        let Ok(mut reader) = pool.reader(&mut writer) else {
            panic!(rt; "no memory for the reader");
        };
        assert!(rt; reader.read(&pool) == ReadAnswer::NotYet);
        let first = [3u8; 26];
        writer.put(&pool, &first);
        writer.harden(&pool);
        writer.put(&pool, &long[..len]);
        writer.harden(&pool);
        assert!(rt; writer.claimed() == claimed && writer.next_number() == 3);
        assert!(rt; reader.read(&pool) == answer);
        let bytes: &[u8] = if answer == ReadAnswer::Got {
            &first
        } else {
            &[]
        };
        assert!(rt; reader.bytes() == bytes);
        assert!(rt; writer.anchor(&pool, &mut reader, 1) == (answer == ReadAnswer::Got));
        assert!(rt; writer.anchor(&pool, &mut reader, 2) && reader.read(&pool) == ReadAnswer::Got);
        assert!(rt; reader.bytes() == &long[..len]);
        assert!(rt;
            writer.anchor(&pool, &mut reader, 3) && reader.read(&pool) == ReadAnswer::NotYet
        );
        assert!(rt; !writer.anchor(&pool, &mut reader, 0));
        writer.note(&pool, &mut reader);
        pool.settle(&mut writer, reader);
    }
    Ok(())
}

#[test]
fn a_small_pool_wraps_under_a_reader(rt: HostRuntime) -> Result<(), Fail> {
    assert!(rt; all_come(&rt, rt.alloc(), 16) == Some(true));
    Ok(())
}

#[test]
fn a_large_pool_keeps_up_with_a_reader(rt: HostRuntime) -> Result<(), Fail> {
    assert!(rt; all_come(&rt, rt.alloc(), 65_536) == Some(true));
    Ok(())
}
