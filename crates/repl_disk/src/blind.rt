//! A disk that tells nothing: it shows that the trait asks no bytes of a disk.
ghost use Rattle.std.specs.Prelude.{◌≤◌};
ghost use Rattle.disk_defs.specs.Disk.{Rose};

use crate::disk::{Disk, Failed, NoMemory};

/// A disk over nothing, each of whose calls fails.
#[derive(Drop)]
struct Blind {
    faults: u64,
}

impl Blind {
    fn fail(&mut self) -> Failed
        ensures later { self.old.faults ≤ self.new.faults }
        ensures rose { Rose self.old.faults self.new.faults }
    {
        self.faults = self.faults.saturating_add(1);
        Failed
    }
}

impl Disk for Blind {
    ghost use Rattle.repl_disk.specs.Blind.{blind_view, blind_lawful};

    ghost disk = { λ b. blind_view b.faults };

    ghost lawful = { λ b. blind_lawful b.faults };

    fn faults(&self) -> u64 {
        self.faults
    }

    fn simulated(&self) -> bool {
        false
    }

    fn len(&mut self, _file: u32) -> Result<u64, Failed> {
        Err(self.fail())
    }

    fn read_at(&mut self, _file: u32, _at: u64, _buf: &mut [u8]) -> Result<(), Failed> {
        Err(self.fail())
    }

    fn room(&mut self, _file: u32, _calls: u32, _bytes: u64) -> Result<(), NoMemory> {
        Ok(())
    }

    fn write_at(&mut self, _file: u32, _at: u64, _bytes: &[u8]) -> Result<(), Failed> {
        Err(self.fail())
    }

    fn sync(&mut self, _file: u32) -> Result<(), Failed> {
        Err(self.fail())
    }

    fn fuse(&mut self, _calls: u64) {}

    fn crash(&mut self, _pick: u64) {}
}
