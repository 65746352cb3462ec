//! The folder of one disk: its paths, its lock, its making and its syncs.
use itoa::Buffer;
use std::alloc::{AllocError, Global};
use std::fs::{File, OpenOptions};
use std::io::ErrorKind;
use std::os::fd::AsRawFd;
use std::{fs, io};

/// How many digits a file's number has at most.
const DIGITS: usize = 10;

/// What is known of the folder.
#[derive(Drop)]
enum Access {
    /// Nothing was asked of it.
    Unknown,
    /// It wasn't there.
    Missing,
    /// It's open, and locked for this program.
    Locked(File),
}

/// A disk's folder, within the folder of a program's disks, which is called the root.
#[derive(Drop)]
pub struct Folder {
    rt: HostRuntime,
    /// The paths of the root, of the folder above it, and of this folder, each with a slash at its end.
    root: String,
    above: String,
    own: String,
    /// The path of a file, with the memory for the longest one.
    path: String,
    access: Access,
    /// Whether the names of the files that stand there are on the disk for good.
    names_synced: bool,
    /// Whether the folder's own name and the root's are.
    root_synced: bool,
}

/// A folder's path, a slash, and a name.
fn below(alloc: Global, folder: &str, name: &str) -> Result<String, AllocError> {
    let mut path = String::from_str(alloc, folder)?;
    path.push('/')?;
    path.push_str(name)?;
    Ok(path)
}

/// Puts the names that stand in a folder on the disk for good.
fn sync_folder(rt: &HostRuntime, path: &str) -> io::Result<()> {
    File::open(rt, path)?.sync_all()
}

/// Opens a folder and locks it. The system lets the lock go with the program, however that ends.
fn open_locked(rt: &HostRuntime, path: &str) -> io::Result<File> {
    let folder = File::open(rt, path)?;
    folder.try_lock()?;
    Ok(folder)
}

/// Makes a folder where none is.
fn create_missing(rt: &HostRuntime, path: &str) -> io::Result<()> {
    match fs::create_dir(rt, path) {
        Err(error) if error.kind() == ErrorKind::AlreadyExists => Ok(()),
        made => made,
    }
}

/// Puts what the system has of a file on the disk, and forgets it, so that it's read from the disk: behind a sync that failed in an
/// earlier program the two may differ.
fn forget_cached(file: &File) -> io::Result<()> {
    file.sync_all()?;
    match libc::posix_fadvise(file.as_raw_fd(), 0, 0, libc::POSIX_FADV_DONTNEED) {
        0 => Ok(()),
        error => Err(io::Error::from_raw_os_error(error)),
    }
}

impl Folder {
    /// The folder of the disk of that number. Nothing is asked of the machine yet.
    pub fn new(
        alloc: Global,
        rt: HostRuntime,
        root: &str,
        number: u32,
    ) -> Result<Folder, AllocError> {
        let mut digits = Buffer::new();
        let mut own = below(alloc, root, digits.format(number))?;
        own.push('/')?;
        let mut path = String::from_str(alloc, own.as_str())?;
        path.reserve(DIGITS)?;
        Ok(Folder {
            rt,
            root: below(alloc, root, "")?,
            above: below(alloc, root, "../")?,
            own,
            path,
            access: Access::Unknown,
            names_synced: false,
            root_synced: false,
        })
    }

    /// Locks the folder where it's there, and answers whether it's this program's now.
    ///
    /// It fails where another program has it, or where something else stands there.
    pub fn lock(&mut self) -> io::Result<bool> {
        match self.access {
            Access::Locked(_) => return Ok(true),
            Access::Missing => return Ok(false),
            Access::Unknown => {}
        }
        match open_locked(&self.rt, self.own.as_str()) {
            Ok(folder) => {
                self.access = Access::Locked(folder);
                Ok(true)
            }
            Err(error) if error.kind() == ErrorKind::NotFound => {
                self.access = Access::Missing;
                Ok(false)
            }
            Err(error) => Err(error),
        }
    }

    /// Locks the folder, and makes it where it wasn't there.
    ///
    /// A folder that another program made meanwhile isn't taken, since it may have filled it.
    pub fn lock_or_create(&mut self) -> io::Result<()> {
        if self.lock()? {
            return Ok(());
        }
        self.access = Access::Unknown;
        create_missing(&self.rt, self.root.as_str())?;
        fs::create_dir(&self.rt, self.own.as_str())?;
        self.access = Access::Locked(open_locked(&self.rt, self.own.as_str())?);
        Ok(())
    }

    /// The path of a file.
    fn path_of(&mut self, file: u32) -> Result<&str, AllocError> {
        let mut digits = Buffer::new();
        self.path.clear();
        self.path.push_str(self.own.as_str())?;
        self.path.push_str(digits.format(file))?;
        Ok(self.path.as_str())
    }

    /// Opens a file that stands there, and answers nothing where none does. Anything but a plain file is an error.
    pub fn open(&mut self, file: u32) -> io::Result<Option<File>> {
        let rt = self.rt;
        let path = self.path_of(file)?;
        let found = match OpenOptions::new().read(true).write(true).open(&rt, path) {
            Ok(found) => found,
            Err(error) if error.kind() == ErrorKind::NotFound => return Ok(None),
            Err(error) => return Err(error),
        };
        if !found.metadata()?.is_file() {
            return Err(ErrorKind::Unsupported.into());
        }
        forget_cached(&found)?;
        Ok(Some(found))
    }

    /// Makes a file that doesn't stand there.
    pub fn create(&mut self, file: u32) -> io::Result<File> {
        let rt = self.rt;
        self.names_synced = false;
        File::create_new(&rt, self.path_of(file)?)
    }

    /// Puts the names of all files that stand there on the disk for good, and once the folder's own and the root's.
    pub fn sync_names(&mut self) -> io::Result<()> {
        if self.names_synced {
            return Ok(());
        }
        match &self.access {
            Access::Locked(folder) => folder.sync_all()?,
            _ => return Err(ErrorKind::NotFound.into()),
        }
        if !self.root_synced {
            sync_folder(&self.rt, self.root.as_str())?;
            sync_folder(&self.rt, self.above.as_str())?;
            self.root_synced = true;
        }
        self.names_synced = true;
        Ok(())
    }
}
