//! What a disk is.
ghost use Rattle.std.specs.Prelude.{◌≡◌, ◌≤◌, ◌+◌, ℕ, length, take, drop, false, IfOk, IfSome, OnOk, IsTrue};
ghost use Rattle.disk_defs.specs.Disk.{Files, View, Image, IsLawful, written, Torn, OnFile, Same, Passes, ReadsAfter, Reads, HasCause, IsDurable, RoomStays, RoomUsed, RoomAdded};

use thiserror::Error;

/// A call of the disk failed, and its count of faults rose.
#[derive(Clone, Copy, Debug, PartialEq, Eq, Error)]
#[error("a disk call failed")]
pub struct Failed;

/// There was no memory.
#[derive(Clone, Copy, Debug, PartialEq, Eq, Error)]
#[error("out of memory")]
pub struct NoMemory;

/// Files of bytes, by their numbers.
///
/// A file that was never written has length 0. A crash leaves any bytes in each range that was written since the file's last
/// [`sync`](Disk::sync) that succeeded, and any end between the synced and the written one; all other bytes stay.
/// The clauses speak of every moment since a call's start.
///
/// What files hold is optional: a disk may tell nothing, and then the clauses promise nothing of bytes. A disk that is
/// simulated tells it.
pub trait Disk: Drop {
    /// What reads give, what a crash may leave at each moment, the count of faults and the room that is left.
    ghost disk: { Self → View };

    /// How many calls have failed. At `2^64 - 1` the count stays.
    fn faults(&self) -> u64
        ensures { result ≡ (disk self.now).faults };

    /// Whether it can be made to fail and to crash.
    fn simulated(&self) -> bool
        ensures { result ≡ (disk self.now).simulated };

    /// The length of a file in bytes; 0 where it was never written.
    fn len(&mut self, file: u32) -> Result<u64, Failed>
        ensures length { IfOk result (λ n. IfSome (disk self.old).content (λ files. n ≡ length (files file))) }
        ensures reads { Reads (disk self.old) (disk self.new) }
        ensures cause { HasCause (disk self.old).faults (disk self.new).faults result };

    /// Fills the buffer with the bytes from a place on. The range has to lie in the file.
    fn read_at(&mut self, file: u32, at: u64, buf: &mut [u8]) -> Result<(), Failed>
        requires { IfSome (disk self.old).content (λ files. at + length buf.old ≤ length (files file)) }
        ensures bytes { OnOk result (IfSome (disk self.old).content (λ files. buf.new ≡ take (length buf.old) (drop at (files file)))) }
        ensures reads { Reads (disk self.old) (disk self.new) }
        ensures cause { HasCause (disk self.old).faults (disk self.new).faults result };

    /// Adds room on a file for so many more calls of `write_at` and `sync` that write at most so many more bytes together.
    fn room(&mut self, file: u32, calls: u32, bytes: u64) -> Result<(), NoMemory>
        ensures added { OnOk result (RoomAdded file calls bytes (disk self.old) (disk self.new)) }
        ensures reads { Reads (disk self.old) (disk self.new) }
        ensures faults { (disk self.new).faults ≡ (disk self.old).faults };

    /// Writes over what is there, and past the end. It uses up room and takes no memory.
    ///
    /// Until a sync of the file, a crash may leave any bytes in the range. So may a write that fails.
    fn write_at(&mut self, file: u32, at: u64, bytes: &[u8]) -> Result<(), Failed>
        requires place { IfSome (disk self.old).content (λ files. at ≤ length (files file)) }
        requires room { (disk self.old).has_room file 1 (length bytes.now) }
        ensures ok { OnOk result (ReadsAfter (OnFile file (λ old new. new ≡ written old at bytes.now)) (disk self.old).content (disk self.new).content) }
        ensures content { ReadsAfter (OnFile file (Torn at (length bytes.now))) (disk self.old).content (disk self.new).content }
        ensures passes { Passes (OnFile file (Torn at (length bytes.now))) (disk self.old) (disk self.new) }
        ensures room { RoomUsed file (length bytes.now) (disk self.old) (disk self.new) }
        ensures cause { HasCause (disk self.old).faults (disk self.new).faults result };

    /// After it, a crash leaves of the file what a read gives. It uses up room and takes no memory.
    fn sync(&mut self, file: u32) -> Result<(), Failed>
        requires { (disk self.old).has_room file 1 0 }
        ensures durable { OnOk result (IfSome (disk self.old).content (λ files. IsDurable (disk self.new) file (files file))) }
        ensures content { (disk self.new).content ≡ (disk self.old).content }
        ensures passes { Passes Same (disk self.old) (disk self.new) }
        ensures room { RoomUsed file 0 (disk self.old) (disk self.new) }
        ensures cause { HasCause (disk self.old).faults (disk self.new).faults result };

    /// Lets so many more calls of `len`, `read_at`, `write_at` and `sync` succeed, and each after them fail, where the disk is
    /// simulated. Otherwise it does nothing.
    fn fuse(&mut self, calls: u64)
        ensures reads { Reads (disk self.old) (disk self.new) }
        ensures faults { (disk self.new).faults ≡ (disk self.old).faults };

    /// Makes one of its images what it has, all of it on the disk for good, where the disk is simulated. Otherwise it does
    /// nothing. It takes no memory.
    ///
    /// The moments begin anew: no clause on a run of calls reaches over a crash.
    fn crash(&mut self, pick: u64)
        ensures still { (disk self.old).simulated ≡ false → Reads (disk self.old) (disk self.new) }
        ensures image { IsTrue (disk self.old).simulated → IfSome (disk self.new).content (Image (disk self.old)) }
        ensures durable { IsTrue (disk self.old).simulated → IfSome (disk self.new).content (λ files. (c : Files) → Image (disk self.new) c → c ≡ files) }
        ensures simulated { (disk self.new).simulated ≡ (disk self.old).simulated }
        ensures room { (f : ℕ) → RoomStays (disk self.old) (disk self.new) f }
        ensures faults { (disk self.new).faults ≡ (disk self.old).faults };

    ghost lawful: { (d : Self) → IsLawful (disk d) };
}
