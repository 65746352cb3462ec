//! The files of a disk's folder, by their numbers.
ghost use Rattle.std.specs.Prelude.{◌≡◌, true, IsErr, OnErr};

use crate::folder::Folder;
use crate::handle::{Handle, Handles};
use std::alloc::{AllocError, Global};
use std::io;
use std::io::ErrorKind;

/// The files that stand in a folder.
///
/// Behind a sync that failed every call fails: the system may have dropped what was written, and report that no more.
#[derive(Drop)]
pub struct HostFiles {
    folder: Folder,
    handles: Handles,
    sync_failed: bool,
}

impl HostFiles {
    /// The files of a disk of that number within a folder. Nothing is asked of the machine yet.
    pub fn new(
        alloc: Global,
        rt: HostRuntime,
        folder: &str,
        number: u32,
    ) -> Result<HostFiles, AllocError> {
        Ok(HostFiles {
            folder: Folder::new(alloc, rt, folder, number)?,
            handles: Handles::new(alloc)?,
            sync_failed: false,
        })
    }

    /// Fails behind a sync that failed.
    fn test_syncs(&self) -> io::Result<()>
        ensures failed { self.now.sync_failed ≡ true → IsErr result }
    {
        if self.sync_failed {
            return Err(ErrorKind::Other.into());
        }
        Ok(())
    }

    /// Closes a file where no more may be open.
    fn make_room(&mut self) -> io::Result<()>
        ensures stays { self.old.sync_failed ≡ true → self.new.sync_failed ≡ true }
    {
        let closed = self.handles.make_room();
        if closed.is_err() {
            self.sync_failed = true;
        }
        closed
    }

    /// Makes a file the one that was used last, and opens it where it isn't open. It answers whether one stands in the folder.
    fn open(&mut self, file: u32) -> io::Result<bool>
        ensures failed { self.old.sync_failed ≡ true → IsErr result }
        ensures stays { self.old.sync_failed ≡ true → self.new.sync_failed ≡ true }
    {
        self.test_syncs()?;
        if self.handles.touch(file) {
            return Ok(true);
        }
        if !self.folder.lock()? {
            return Ok(false);
        }
        self.make_room()?;
        match self.folder.open(file)? {
            None => Ok(false),
            Some(found) => {
                self.handles.add(Handle::new(file, found))?;
                Ok(true)
            }
        }
    }

    /// Makes a file that doesn't stand in the folder.
    fn create(&mut self, file: u32) -> io::Result<()>
        ensures stays { self.old.sync_failed ≡ true → self.new.sync_failed ≡ true }
    {
        self.folder.lock_or_create()?;
        self.make_room()?;
        let made = self.folder.create(file)?;
        self.handles.add(Handle::new(file, made))?;
        Ok(())
    }

    /// The length of a file; 0 where none stands there.
    pub fn len(&mut self, file: u32) -> io::Result<u64>
        ensures failed { self.old.sync_failed ≡ true → IsErr result }
        ensures stays { self.old.sync_failed ≡ true → self.new.sync_failed ≡ true }
    {
        if !self.open(file)? {
            return Ok(0);
        }
        self.handles.last()?.len()
    }

    /// Fills the buffer with the bytes from a place on.
    pub fn read_at(&mut self, file: u32, at: u64, buf: &mut [u8]) -> io::Result<()>
        ensures failed { self.old.sync_failed ≡ true → IsErr result }
        ensures stays { self.old.sync_failed ≡ true → self.new.sync_failed ≡ true }
    {
        if self.open(file)? {
            return self.handles.last()?.read_at(at, buf);
        }
        if !buf.is_empty() {
            return Err(ErrorKind::UnexpectedEof.into());
        }
        Ok(())
    }

    /// Writes all the bytes at a place, in a file that is made where none stands there.
    pub fn write_at(&mut self, file: u32, at: u64, bytes: &[u8]) -> io::Result<()>
        ensures failed { self.old.sync_failed ≡ true → IsErr result }
        ensures stays { self.old.sync_failed ≡ true → self.new.sync_failed ≡ true }
    {
        if !self.open(file)? {
            self.create(file)?;
        }
        self.handles.last()?.write_at(at, bytes)
    }

    /// Puts the file that was opened last, and all names that lead to it, on the disk for good. Where that fails every later call does.
    fn sync_opened(&mut self) -> io::Result<()>
        ensures stays { self.old.sync_failed ≡ true → self.new.sync_failed ≡ true }
        ensures fails { OnErr result (self.new.sync_failed ≡ true) }
    {
        let synced = match self.handles.last() {
            Ok(opened) => opened.sync(),
            Err(error) => Err(error),
        };
        let synced = match synced {
            Ok(()) => self.folder.sync_names(),
            Err(error) => Err(error),
        };
        if synced.is_err() {
            self.sync_failed = true;
        }
        synced
    }

    /// Puts a file, and all names that lead to it, on the disk for good. To a file that isn't there nothing was written. A file that can't
    /// be opened, as where another program has the folder, was asked for nothing, so that later calls may go well.
    pub fn sync(&mut self, file: u32) -> io::Result<()>
        ensures failed { self.old.sync_failed ≡ true → IsErr result }
        ensures stays { self.old.sync_failed ≡ true → self.new.sync_failed ≡ true }
    {
        if !self.open(file)? {
            return Ok(());
        }
        self.sync_opened()
    }
}
