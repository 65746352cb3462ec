//! A file, read a piece at a time.
ghost use Rattle.std.specs.Prelude.{◌≡◌, ◌≤◌, ◌<◌, ◌+◌, ◌-◌, ◌^◌, ◌∷◌, [], ◌↔◌, ℕ, length, take, drop, IfOk, IfSome, OnOk, IsErrOf, IsTrue};
ghost use Rattle.std.specs.Int.{from_be_bytes, to_be_bytes, w32};
ghost use Rattle.disk_defs.specs.Disk.{Files, Reads, MayFailUncounted};
ghost use Rattle.disk_defs.specs.Gates.{NoGate, gate_at};
ghost use Rattle.gated_file.specs.Reading.{BodyAt};
ghost use Rattle.entry_index.specs.Pieces.{IsPieceOf, HasBytes, IsSameFile, IsBodyOf, BeginsWithBody};

use jnl_file::JournalError;
use repl_disk::Disk;
use std::alloc::Global;

/// The greatest length of a body in bytes.
pub const LONGEST: u64 = global_defs::limits::LONGEST_BODY as u64;

/// How many bytes are read at once, where the file has them and no body is longer.
const PIECE: u64 = 1 << 11;

/// Past this place no body is told by what is at hand.
const FARTHEST: u64 = 1 << 63;

/// A file that is read, and a piece of it.
#[derive(Drop)]
pub struct Pieces {
    /// The file's number.
    pub file: u32,
    /// Its length in bytes.
    pub size: u64,
    /// Where the piece begins, in bytes from the file's start.
    pub start: u64,
    /// The piece.
    pub bytes: Vec<u8>,
}

/// The number that four bytes spell, the greatest part first.
pub fn big_endian(bytes: [u8; 4]) -> u32
    ensures value { result ≡ from_be_bytes w32 bytes }
    ensures spelled { to_be_bytes w32 result ≡ bytes }
{
    u32::from_be_bytes(bytes)
}

/// The number that these four bytes spell.
fn number_of(bytes: &[u8]) -> u32
    requires { length bytes.now ≡ 4 }
    ensures value { result ≡ from_be_bytes w32 bytes.now }
    ensures spelled { to_be_bytes w32 result ≡ bytes.now }
{
    big_endian([bytes[0], bytes[1], bytes[2], bytes[3]])
}

/// The body behind an open gate with which these bytes begin, where it's there with the gate behind it.
#[inline(always)]
fn body_behind(bytes: &[u8]) -> Option<&[u8]>
    ensures begins { IfSome result (λ body. BeginsWithBody bytes.now body.now) }
{
    let [1, a, b, c, d, rest @ ..] = bytes else {
        return None;
    };
    let n = u64::from(big_endian([*a, *b, *c, *d]));
    if n == 0 || n > LONGEST || n >= rest.len() as u64 {
        return None;
    }
    Some(&rest[..n as usize])
}

/// Makes a list so many bytes of a file from a place on.
pub fn fill<D: Disk>(
    disk: &mut D,
    file: u32,
    at: u64,
    many: u64,
    into: &mut Vec<u8>,
) -> Result<(), JournalError>
    requires inside { IfSome (D.disk disk.old).content (λ files. at + many ≤ length (files file)) }
    ensures bytes { OnOk result (IfSome (D.disk disk.old).content (λ files. into.new.items ≡ take many (drop at (files file)))) }
    ensures length { OnOk result (length into.new.items ≡ many) }
    ensures reads { Reads (D.disk disk.old) (D.disk disk.new) }
    ensures faults { MayFailUncounted (D.disk disk.old).faults (D.disk disk.new).faults (IsErrOf result JournalError.Failed) }
    ensures outside { (offset : ℕ) → IsErrOf result (JournalError.NotARecord offset) → ⊥ }
{
    fill_behind(disk, file, at, 0, many, into)
}

/// Makes a list so many bytes of a file from a place on, where the first of them stand in it.
fn fill_behind<D: Disk>(
    disk: &mut D,
    file: u32,
    at: u64,
    held: u64,
    many: u64,
    into: &mut Vec<u8>,
) -> Result<(), JournalError>
    requires place { at + held < 2 ^ 64 }
    requires fewer { held ≤ many }
    requires there { held ≤ length into.old.items }
    requires held { IfSome (D.disk disk.old).content (λ files. take held into.old.items ≡ take held (drop at (files file))) }
    requires inside { IfSome (D.disk disk.old).content (λ files. at + many ≤ length (files file)) }
    ensures bytes { OnOk result (IfSome (D.disk disk.old).content (λ files. into.new.items ≡ take many (drop at (files file)))) }
    ensures length { OnOk result (length into.new.items ≡ many) }
    ensures reads { Reads (D.disk disk.old) (D.disk disk.new) }
    ensures faults { MayFailUncounted (D.disk disk.old).faults (D.disk disk.new).faults (IsErrOf result JournalError.Failed) }
    ensures outside { (offset : ℕ) → IsErrOf result (JournalError.NotARecord offset) → ⊥ }
{
    if into.resize(many as usize, 0).is_err() {
        return Err(JournalError::NoMemory);
    }
    let behind = &mut into[held as usize..];
    if disk.read_at(file, at + held, behind).is_err() {
        return Err(JournalError::Failed);
    }
    Ok(())
}

impl Pieces {
    /// A file of which nothing is at hand yet.
    pub fn of<D: Disk>(alloc: Global, disk: &mut D, file: u32) -> Result<Pieces, JournalError>
        ensures told { IfOk result (λ made. IfSome (D.disk disk.new).content (IsPieceOf made)) }
        ensures file { IfOk result (λ made. made.file ≡ file) }
        ensures reads { Reads (D.disk disk.old) (D.disk disk.new) }
        ensures faults { MayFailUncounted (D.disk disk.old).faults (D.disk disk.new).faults (IsErrOf result JournalError.Failed) }
        ensures outside { (offset : ℕ) → IsErrOf result (JournalError.NotARecord offset) → ⊥ }
    {
        let Ok(size) = disk.len(file) else {
            return Err(JournalError::Failed);
        };
        Ok(Pieces {
            file,
            size,
            start: 0,
            bytes: Vec::new(alloc),
        })
    }

    /// Whether so many bytes from a place on are at hand.
    fn has(&self, at: u64, n: u64) -> bool
        ensures { IsTrue result ↔ HasBytes self.now at n }
    {
        let held = self.bytes.len() as u64;
        self.start <= at && at - self.start <= held && n <= held - (at - self.start)
    }

    /// How many bytes are at hand from a place on.
    fn held(&self, at: u64) -> u64
        ensures has { 0 < result → HasBytes self.now at result }
        ensures all { (n : ℕ) → HasBytes self.now at n → n ≤ result }
    {
        let Some(from) = at.checked_sub(self.start) else {
            return 0;
        };
        (self.bytes.len() as u64).saturating_sub(from)
    }

    /// Moves the bytes that are at hand from a place on to the front, at most so many, and tells how many these are.
    fn keep_from(&mut self, at: u64, most: u64) -> u64
        ensures bytes { (files : Files) → IsPieceOf self.old files → take result self.new.bytes.items ≡ take result (drop at (files self.old.file)) }
        ensures all { (n : ℕ) → n ≤ most → HasBytes self.old at n → n ≤ result }
        ensures most { result ≤ most }
        ensures there { result ≤ length self.new.bytes.items }
        ensures same { IsSameFile self.old self.new }
    {
        let held = self.held(at).min(most);
        if held > 0 {
            let from = (at - self.start) as usize;
            self.bytes.copy_within(from..from + held as usize, 0);
        }
        held
    }

    /// Makes so many bytes from a place on be at hand, by reading those of the file that aren't.
    #[inline(never)]
    fn read_on<D: Disk>(&mut self, disk: &mut D, at: u64, n: u64) -> Result<(), JournalError>
        requires told { IfSome (D.disk disk.old).content (IsPieceOf self.old) }
        requires inside { at + n ≤ self.old.size }
        ensures told { OnOk result (IfSome (D.disk disk.new).content (IsPieceOf self.new)) }
        ensures has { OnOk result (HasBytes self.new at n) }
        ensures same { IsSameFile self.old self.new }
        ensures reads { Reads (D.disk disk.old) (D.disk disk.new) }
        ensures faults { MayFailUncounted (D.disk disk.old).faults (D.disk disk.new).faults (IsErrOf result JournalError.Failed) }
        ensures outside { (offset : ℕ) → IsErrOf result (JournalError.NotARecord offset) → ⊥ }
    {
        let many = n.max(PIECE).min(self.size - at);
        let held = self.keep_from(at, many);
        fill_behind(disk, self.file, at, held, many, &mut self.bytes)?;
        self.start = at;
        Ok(())
    }

    /// Makes so many bytes from a place on be at hand.
    #[inline(always)]
    pub fn load<D: Disk>(&mut self, disk: &mut D, at: u64, n: u64) -> Result<(), JournalError>
        requires told { IfSome (D.disk disk.old).content (IsPieceOf self.old) }
        requires inside { at + n ≤ self.old.size }
        ensures told { OnOk result (IfSome (D.disk disk.new).content (IsPieceOf self.new)) }
        ensures has { OnOk result (HasBytes self.new at n) }
        ensures same { IsSameFile self.old self.new }
        ensures reads { Reads (D.disk disk.old) (D.disk disk.new) }
        ensures faults { MayFailUncounted (D.disk disk.old).faults (D.disk disk.new).faults (IsErrOf result JournalError.Failed) }
        ensures outside { (offset : ℕ) → IsErrOf result (JournalError.NotARecord offset) → ⊥ }
    {
        if self.has(at, n) {
            return Ok(());
        }
        self.read_on(disk, at, n)
    }

    /// Bytes that are at hand.
    pub fn shown(&self, at: u64, n: u64) -> &[u8]
        requires { HasBytes self.now at n }
        ensures value { (files : Files) → IsPieceOf self.now files → result.now ≡ take n (drop at (files self.now.file)) }
        ensures length { length result.now ≡ n }
    {
        let from = (at - self.start) as usize;
        let end = from + n as usize;
        &self.bytes[from..end]
    }

    /// The body behind an open gate at a place, where it's at hand with the gate behind it.
    #[inline(always)]
    pub fn body_at_hand(&self, at: u64) -> Option<&[u8]>
        ensures body { IfSome result (λ body. (files : Files) → IsPieceOf self.now files → IsBodyOf (files self.now.file) at body.now) }
        ensures near { IfSome result (λ body. at + length body.now + 6 < 2 ^ 64) }
    {
        if at >= FARTHEST {
            return None;
        }
        let from = at.checked_sub(self.start)?;
        if from > self.bytes.len() as u64 {
            return None;
        }
        body_behind(&self.bytes[from as usize..])
    }

    /// The byte at a place.
    fn byte_at<D: Disk>(&mut self, disk: &mut D, at: u64) -> Result<u8, JournalError>
        requires told { IfSome (D.disk disk.old).content (IsPieceOf self.old) }
        requires inside { at < self.old.size }
        ensures value { IfOk result (λ b. IfSome (D.disk disk.old).content (λ files. b ∷ [] ≡ take 1 (drop at (files self.old.file)))) }
        ensures told { OnOk result (IfSome (D.disk disk.new).content (IsPieceOf self.new)) }
        ensures same { IsSameFile self.old self.new }
        ensures reads { Reads (D.disk disk.old) (D.disk disk.new) }
        ensures faults { MayFailUncounted (D.disk disk.old).faults (D.disk disk.new).faults (IsErrOf result JournalError.Failed) }
        ensures outside { (offset : ℕ) → IsErrOf result (JournalError.NotARecord offset) → ⊥ }
    {
        self.load(disk, at, 1)?;
        let shown = self.shown(at, 1);
        Ok(shown[0])
    }

    /// The number that four bytes spell from a place on.
    fn number_at<D: Disk>(&mut self, disk: &mut D, at: u64) -> Result<u32, JournalError>
        requires told { IfSome (D.disk disk.old).content (IsPieceOf self.old) }
        requires inside { at + 4 ≤ self.old.size }
        ensures value { IfOk result (λ n. IfSome (D.disk disk.old).content (λ files. to_be_bytes w32 n ≡ take 4 (drop at (files self.old.file)))) }
        ensures read { IfOk result (λ n. IfSome (D.disk disk.old).content (λ files. n ≡ from_be_bytes w32 (take 4 (drop at (files self.old.file))))) }
        ensures told { OnOk result (IfSome (D.disk disk.new).content (IsPieceOf self.new)) }
        ensures same { IsSameFile self.old self.new }
        ensures reads { Reads (D.disk disk.old) (D.disk disk.new) }
        ensures faults { MayFailUncounted (D.disk disk.old).faults (D.disk disk.new).faults (IsErrOf result JournalError.Failed) }
        ensures outside { (offset : ℕ) → IsErrOf result (JournalError.NotARecord offset) → ⊥ }
    {
        self.load(disk, at, 4)?;
        Ok(number_of(self.shown(at, 4)))
    }

    /// The length of the body behind an open gate, or `None` at a closed one.
    pub fn body_length<D: Disk>(
        &mut self,
        disk: &mut D,
        at: u64,
    ) -> Result<Option<u64>, JournalError>
        requires told { IfSome (D.disk disk.old).content (IsPieceOf self.old) }
        requires long { 2 ≤ self.old.size }
        ensures found { IfOk result (λ found. IfSome (D.disk disk.old).content (λ files. BodyAt (files self.old.file) at found)) }
        ensures inside { IfOk result (λ found. IfSome found (λ n. at + n + 6 ≤ self.old.size)) }
        ensures outside { IsErrOf result (JournalError.NotARecord at) → IfSome (D.disk disk.old).content (λ files. gate_at (files self.old.file) at ≡ NoGate) }
        ensures only_here { (offset : ℕ) → IsErrOf result (JournalError.NotARecord offset) → offset ≡ at }
        ensures told { OnOk result (IfSome (D.disk disk.new).content (IsPieceOf self.new)) }
        ensures same { IsSameFile self.old self.new }
        ensures reads { Reads (D.disk disk.old) (D.disk disk.new) }
        ensures faults { MayFailUncounted (D.disk disk.old).faults (D.disk disk.new).faults (IsErrOf result JournalError.Failed) }
    {
        if at >= self.size {
            return Err(JournalError::NotARecord { offset: at });
        }
        let gate = self.byte_at(disk, at)?;
        if gate != 1 {
            return Ok(None);
        }
        if self.size - at < 6 {
            return Err(JournalError::NotARecord { offset: at });
        }
        let n = u64::from(self.number_at(disk, at + 1)?);
        if n == 0 || n > LONGEST || self.size - at < n + 6 {
            return Err(JournalError::NotARecord { offset: at });
        }
        Ok(Some(n))
    }
}
