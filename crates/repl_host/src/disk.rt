//! A disk over a folder.
ghost use Rattle.std.specs.Prelude.{◌≡◌, IfOk, OnOk, OnErr};
ghost use Rattle.global_defs.specs.Counts.{HasCause, counted_on};

use crate::files::HostFiles;
use repl_disk::{Disk, Failed, NoMemory};
use std::alloc::Global;
use std::io;

/// A disk whose files stand in a folder of the machine, under their numbers.
///
/// It tells no bytes, and isn't simulated. A folder or a file that isn't there is made at its first write, and a file has length 0
/// until then. From its first call on the folder is locked, and another program that asks for it fails, and says so by its count.
///
/// Behind a sync that the system failed every call fails.
#[derive(Drop)]
pub struct HostDisk {
    files: HostFiles,
    faults: u64,
}

impl HostDisk {
    /// The disk of a number within a folder, without a fault. Nothing is asked of the machine yet.
    pub fn new(
        alloc: Global,
        rt: HostRuntime,
        folder: &str,
        number: u32,
    ) -> Result<HostDisk, NoMemory>
        ensures none { IfOk result (λ made. made.faults ≡ 0) }
    {
        match HostFiles::new(alloc, rt, folder, number) {
            Ok(files) => Ok(HostDisk { files, faults: 0 }),
            Err(_) => Err(NoMemory),
        }
    }
}

/// Counts a fault exactly where there was one.
fn counted<T: Drop>(faults: &mut u64, outcome: io::Result<T>) -> Result<T, Failed>
    ensures cause { HasCause faults.old faults.new result }
    ensures counted { OnErr result (faults.new ≡ counted_on faults.old) }
    ensures not_counted { OnOk result (faults.new ≡ faults.old) }
{
    match outcome {
        Ok(value) => Ok(value),
        Err(_) => {
            *faults = faults.saturating_add(1);
            Err(Failed)
        }
    }
}

impl Disk for HostDisk {
    ghost use Rattle.repl_disk.specs.Blind.{blind_view, blind_lawful};

    ghost disk = { λ d. blind_view d.faults };

    ghost lawful = { λ d. blind_lawful d.faults };

    fn faults(&self) -> u64 {
        self.faults
    }

    fn simulated(&self) -> bool {
        false
    }

    fn len(&mut self, file: u32) -> Result<u64, Failed> {
        counted(&mut self.faults, self.files.len(file))
    }

    fn read_at(&mut self, file: u32, at: u64, buf: &mut [u8]) -> Result<(), Failed> {
        counted(&mut self.faults, self.files.read_at(file, at, buf))
    }

    fn room(&mut self, _file: u32, _calls: u32, _bytes: u64) -> Result<(), NoMemory> {
        Ok(())
    }

    fn write_at(&mut self, file: u32, at: u64, bytes: &[u8]) -> Result<(), Failed> {
        counted(&mut self.faults, self.files.write_at(file, at, bytes))
    }

    fn sync(&mut self, file: u32) -> Result<(), Failed> {
        counted(&mut self.faults, self.files.sync(file))
    }

    fn fuse(&mut self, _calls: u64) {}

    fn crash(&mut self, _pick: u64) {}
}
