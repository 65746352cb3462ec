//! The open files of a disk, a bounded number of them.
ghost use Rattle.std.specs.Prelude.{◌≡◌, ◌+◌, ◌-◌, ◌^◌, ℕ, max, min, length, IfOk, OnOk, OnErr, Some, None, Ok, option_map};

use std::alloc::{AllocError, Global};
use std::fs::File;
use std::io;
use std::io::ErrorKind;
use std::os::unix::fs::FileExt;

/// How many files of a disk are open at once at most.
const MOST_OPEN: usize = 24;

/// An open file.
#[derive(Drop)]
pub struct Handle {
    number: u32,
    file: File,
    /// Whether something was written since the last sync.
    is_dirty: bool,
    /// How long the file is, where that is known.
    length: Option<u64>,
}

impl Handle {
    /// The handle of a file that was opened or made.
    pub fn new(number: u32, file: File) -> Handle
        ensures unknown { result.length ≡ None }
    {
        Handle {
            number,
            file,
            is_dirty: false,
            length: None,
        }
    }

    /// How long the file is. The system is asked where that isn't known: nobody else writes the file.
    pub fn len(&mut self) -> io::Result<u64>
        ensures known { (n : ℕ) → self.old.length ≡ Some n → result ≡ Ok n }
        ensures kept { IfOk result (λ n. self.new.length ≡ Some n) }
        ensures unknown { OnErr result (self.new.length ≡ None) }
    {
        if let Some(length) = self.length {
            return Ok(length);
        }
        let length = self.file.metadata()?.len();
        self.length = Some(length);
        Ok(length)
    }

    /// Fills the buffer with the bytes from a place on, which fails where the file ends before.
    pub fn read_at(&self, at: u64, buf: &mut [u8]) -> io::Result<()> {
        self.file.read_exact_at(buf, at)
    }

    /// Writes all the bytes at a place. Where that fails it isn't known how many of them were written.
    pub fn write_at(&mut self, at: u64, bytes: &[u8]) -> io::Result<()>
        ensures grown { OnOk result (self.new.length ≡ option_map (λ n. max n (min (at + length bytes.now) (2 ^ 64 - 1))) self.old.length) }
        ensures unknown { OnErr result (self.new.length ≡ None) }
    {
        let known = self.length.take();
        self.is_dirty = true;
        self.file.write_all_at(bytes, at)?;
        let end = at.saturating_add(bytes.len() as u64);
        self.length = known.map(|length| length.max(end));
        Ok(())
    }

    /// Puts the file's bytes and length on the disk for good.
    pub fn sync(&mut self) -> io::Result<()> {
        self.file.sync_data()?;
        self.is_dirty = false;
        Ok(())
    }
}

/// The open files of a disk, the one that was used last at the end.
#[derive(Drop)]
pub struct Handles {
    open: Vec<Handle>,
}

impl Handles {
    /// No file is open. The memory for all that will be is taken.
    pub fn new(alloc: Global) -> Result<Handles, AllocError> {
        Ok(Handles {
            open: Vec::with_capacity(alloc, MOST_OPEN)?,
        })
    }

    /// Moves a file to the end, and answers whether it's open.
    pub fn touch(&mut self, number: u32) -> bool {
        match self.open.iter().rposition(|open| open.number == number) {
            None => false,
            Some(i) => {
                let used = self.open.remove(i);
                self.open.push(used).is_ok()
            }
        }
    }

    /// The file that was used last. It fails where none is open.
    pub fn last(&mut self) -> io::Result<&mut Handle> {
        match self.open.last_mut() {
            Some(used) => Ok(used),
            None => Err(ErrorKind::NotFound.into()),
        }
    }

    /// Closes the file that wasn't used longest, where no more may be open. It's synced before, where something was written to it.
    pub fn make_room(&mut self) -> io::Result<()> {
        if self.open.len() < MOST_OPEN {
            return Ok(());
        }
        let mut oldest = self.open.remove(0);
        if oldest.is_dirty {
            oldest.sync()?;
        }
        Ok(())
    }

    /// Adds a file at the end.
    pub fn add(&mut self, opened: Handle) -> Result<(), AllocError> {
        self.open.push(opened)?;
        Ok(())
    }
}
