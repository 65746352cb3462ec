//! Journals of worked bytes, with their records and signs beside them.
ghost use Rattle.std.specs.Prelude.{◌≡◌, ◌<◌, ◌≤◌, ◌+◌, length};
ghost use Rattle.global_defs.specs.declared.limits.TheConstants.{MOST_GENERATIONS, MOST_REGIONS};

use entry_index::{PlacedSign, read_sign};
use gvn_key::Bytes;
use jnl_file::journal_file;
use jnl_record::{PlacedRecord, decode};
use repl_disk::{Disk, MemDisk};
use std::alloc::Global;
use std::process::Abort;

/// What a part says.
#[derive(Clone, Copy)]
pub struct Worked {
    /// The entry's number.
    pub number: u64,
    /// The regions of the entry.
    pub mask: u8,
    /// The updater that made it.
    pub updater: u8,
    /// How many updates it has in all regions.
    pub count: u16,
    /// So many of the positions are those of the region's updates.
    pub many: u16,
    /// The positions, of which there may be fewer.
    pub positions: [u16; 2],
    /// The name that each update kills.
    pub name: u8,
}

/// The body of a part's record.
fn body_of(rt: &impl Abort, alloc: Global, part: &Worked) -> Bytes {
    let mut body = Bytes::new(alloc);
    body.push(5).expect(rt, "memory");
    body.push_all(&part.number.to_be_bytes())
        .expect(rt, "memory");
    body.push_all(&[part.mask, part.updater, 0, 0, 0, 1])
        .expect(rt, "memory");
    body.push_all(&part.count.to_be_bytes())
        .expect(rt, "memory");
    body.push_all(&part.many.to_be_bytes()).expect(rt, "memory");
    for (i, position) in part.positions.iter().enumerate() {
        if i < usize::from(part.many) {
            body.push(4).expect(rt, "memory");
            body.push_all(&position.to_be_bytes()).expect(rt, "memory");
            body.push_all(&[2, 2, part.name, 0]).expect(rt, "memory");
        }
    }
    body
}

/// Writes a file from its start.
fn write_bytes<D: Disk>(rt: &impl Abort, disk: &mut D, file: u32, bytes: &[u8]) {
    disk.room(file, 1, bytes.len() as u64).expect(rt, "memory");
    disk.write_at(file, 0, bytes).expect(rt, "a write");
}

/// How the journal of a generation begins, with this one before it.
fn begun(rt: &impl Abort, alloc: Global, region: u8, generation: u32, previous: u32) -> Bytes {
    let mut bytes = Bytes::new(alloc);
    bytes
        .push_all(&[1, 0, 0, 0, 12, 1, 1, region, 1])
        .expect(rt, "memory");
    bytes
        .push_all(&generation.to_be_bytes())
        .expect(rt, "memory");
    bytes.push_all(&previous.to_be_bytes()).expect(rt, "memory");
    bytes
}

/// The parts of a region in journal order, and their signs.
#[derive(Drop)]
pub struct Journal {
    pub records: Vec<PlacedRecord>,
    pub signs: Vec<PlacedSign>,
    /// The newest generation, and its file.
    generation: u32,
    bytes: Bytes,
}

/// The journal of no record.
pub fn empty(alloc: Global) -> Journal {
    Journal {
        records: Vec::new(alloc),
        signs: Vec::new(alloc),
        generation: 0,
        bytes: Bytes::new(alloc),
    }
}

impl Journal {
    /// Puts a part at the end of a region's journal of a generation, the newest or the next one.
    pub fn add(
        &mut self,
        rt: &impl Abort,
        alloc: Global,
        disk: &mut MemDisk,
        region: u8,
        generation: u32,
        part: &Worked,
    )
        requires region { region < MOST_REGIONS }
        requires generation { generation ≤ MOST_GENERATIONS }
    {
        let body = body_of(rt, alloc, part);
        let long = u32::try_from(body.len()).expect(rt, "a short body");
        if self.generation != generation {
            self.bytes = begun(rt, alloc, region, generation, self.generation);
            self.generation = generation;
        }
        let offset = self.bytes.len() as u64;
        self.bytes.push(1).expect(rt, "memory");
        self.bytes
            .push_all(&long.to_be_bytes())
            .expect(rt, "memory");
        self.bytes.push_all(body.as_slice()).expect(rt, "memory");
        let mut whole = Bytes::of(alloc, self.bytes.as_slice()).expect(rt, "memory");
        whole.push(0).expect(rt, "memory");
        let file = journal_file(region, generation);
        write_bytes(rt, disk, file, whole.as_slice());
        let what = decode(alloc, body.as_slice(), offset).expect(rt, "a record");
        let sign = read_sign(body.as_slice()).expect(rt, "a sign");
        let record = PlacedRecord { generation, what };
        self.records.push(record).expect(rt, "memory");
        let placed = PlacedSign {
            generation,
            offset,
            sign,
        };
        self.signs.push(placed).expect(rt, "memory");
    }
}
