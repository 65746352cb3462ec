//! Pieces of several files, the one that was used last in front.
ghost use Rattle.std.specs.Prelude.{◌≡◌, ◌≢◌, ◌≤◌, ◌<◌, ◌+◌, ◌∷◌, ℕ, true, length, take, drop, slice_index_or, IfSome, IsTrue};
ghost use Rattle.std.specs.List.{All};
ghost use Rattle.disk_defs.specs.Disk.{Files};
ghost use Rattle.disk_defs.specs.Frames.{Only, SameOutside};
ghost use Rattle.read_ahead.specs.Kept.{IsPieceOf, AreKept};

use super::piece::Piece;
use std::alloc::Global;

/// How many pieces are kept, each of another file.
const MOST_PIECES: usize = 10;

/// The place of the piece of a file, if there is one.
fn place_of(pieces: &[Piece], file: u32) -> Option<usize>
    ensures inside { IfSome result (λ place. place < length pieces.now) }
    ensures file { IfSome result (λ place. (d : Piece) → (slice_index_or pieces.now place d).file ≡ file) }
{
    pieces.iter().position(|piece| piece.file == file)
}

/// Puts the piece at a place in front.
fn put_in_front(pieces: &mut [Piece], place: usize)
    requires { place < length pieces.old }
    ensures kept { (files : Files) → AreKept files pieces.old → AreKept files pieces.new }
{
    pieces[..place + 1].rotate_right(1);
}

/// Fills the buffer with the bytes of a file from a place on, if they are at hand.
pub fn give(pieces: &mut [Piece], file: u32, at: u64, buf: &mut [u8]) -> bool
    ensures given { result ≡ true → (files : Files) → AreKept files pieces.old → buf.new ≡ take (length buf.old) (drop at (files file)) }
    ensures kept { (files : Files) → AreKept files pieces.old → AreKept files pieces.new }
{
    let Some(place) = place_of(pieces, file) else {
        return false;
    };
    if !pieces[place].give(at, buf) {
        return false;
    }
    put_in_front(pieces, place);
    true
}

/// Adds a piece of nothing behind the others, where there are few and there is memory.
fn grow(pieces: &mut Vec<Piece>, alloc: Global)
    ensures kept { (files : Files) → AreKept files pieces.old.items → AreKept files pieces.new.items }
{
    if pieces.len() < MOST_PIECES {
        let _ = pieces.push(Piece::none(alloc));
    }
}

/// The place of the piece of a file or, where there is none, of a new one or the one that was used longest ago. `None` where there
/// is no memory for the first.
fn place_for(pieces: &mut Vec<Piece>, alloc: Global, file: u32) -> Option<usize>
    ensures inside { IfSome result (λ place. place < length pieces.new.items) }
    ensures kept { (files : Files) → AreKept files pieces.old.items → AreKept files pieces.new.items }
{
    if let Some(place) = place_of(pieces, file) {
        return Some(place);
    }
    grow(pieces, alloc);
    pieces.len().checked_sub(1)
}

/// The piece of a file in front or, where there is none, a new one or the one that was used longest ago. It answers false where there
/// is no memory for the first.
pub fn bring(pieces: &mut Vec<Piece>, alloc: Global, file: u32) -> bool
    ensures there { result ≡ true → 1 ≤ length pieces.new.items }
    ensures kept { (files : Files) → AreKept files pieces.old.items → AreKept files pieces.new.items }
{
    let Some(place) = place_for(pieces, alloc, file) else {
        return false;
    };
    put_in_front(pieces, place);
    true
}

/// Keeps nothing of a file.
pub fn forget(pieces: &mut [Piece], file: u32)
    ensures { (old new : Files) → SameOutside (Only file) old new → AreKept old pieces.old → AreKept new pieces.new }
{
    for piece in pieces.iter_mut() {
        piece.forget(file);
    }
}
