//! A stream of frames in pieces.
ghost use Rattle.std.specs.Prelude.{◌≡◌, ◌≤◌, ◌++◌, [], length, take, IfErr, OnOk, IfOk, IsErrOf};
ghost use Rattle.wire_defs.specs.Frames as defs;
ghost use Rattle.wire_defs.specs.Frames.{BeginsFrame, IsFrame, spelled_frame};
ghost use Rattle.repl_wire.specs.Values.{frame_value};
ghost use Rattle.repl_wire.specs.Feeds.{Takes, Fails, IsSpelled, IsWithin};
ghost use Rattle.repl_wire.specs.Wholes.{IsAhead};

use super::field::Scan;
use super::frame::{Frame, FrameError, FrameList};
use super::reading::read_frame;
use super::run::{Ran, run};
use super::whole::whole_entry;
use gvn_key::NoMemory;
use std::alloc::Global;
use std::marker::Model;

/// A reader of a connection's frames: it takes the bytes in any pieces, and keeps those of the frame that isn't whole yet.
#[derive(Debug, Drop)]
pub struct Frames {
    rest: Vec<u8>,
    scan: Scan,
    offset: u64,
}

impl Model for Frames {
    ghost use Rattle.wire_defs.specs.Frames as defs;
    ghost use Rattle.repl_wire.specs.Feeds.{IsWithin};

    ghost Value = { defs.Reading };

    ghost view = { λ f. record { offset = f.offset; rest = f.rest.items } };

    ghost invariant = { λ f. IsWithin f.scan f.rest.items };
}

/// What is behind the whole frames of some bytes.
#[derive(Clone, Copy, Debug)]
struct Tail<'a> {
    offset: u64,
    scan: Scan,
    rest: &'a [u8],
}

/// The frame of these bytes.
fn frame_of(alloc: Global, bytes: &[u8]) -> Result<Frame, NoMemory>
    requires { IsSpelled bytes.now }
    ensures spelled { IfOk result (λ frame. spelled_frame (frame_value frame) ≡ bytes.now) }
    ensures form { IfOk result (λ frame. IsFrame (frame_value frame)) }
{
    match read_frame(alloc, bytes)? {
        Some(frame) => Ok(frame),
        None => unreachable!(),
    }
}

/// What stands at the front of bytes.
#[derive(Debug, Drop)]
pub enum Ahead {
    /// A frame of so many bytes.
    Whole(Frame, usize),
    /// The beginning of a frame.
    Open(Scan),
    /// No frame begins so.
    Bad,
}

/// What a scan from the first of these bytes finds.
fn scanned(alloc: Global, bytes: &[u8]) -> Result<Ahead, NoMemory>
    ensures { IfOk result (λ found. IsAhead found bytes.now) }
{
    match run(Scan::new(), bytes) {
        Ran::Bad => Ok(Ahead::Bad),
        Ran::Open(scan) => Ok(Ahead::Open(scan)),
        Ran::Whole(count) => {
            let (front, _) = bytes.split_at(count);
            Ok(Ahead::Whole(frame_of(alloc, front)?, count))
        }
    }
}

/// What stands at the front of these bytes, looked at byte by byte.
fn look(alloc: Global, bytes: &[u8]) -> Result<Ahead, NoMemory>
    ensures { IfOk result (λ found. IsAhead found bytes.now) }
{
    if bytes.is_empty() {
        return Ok(Ahead::Open(Scan::new()));
    }
    scanned(alloc, bytes)
}

/// Adds the whole frames at the front of these bytes, the first of which begins at that offset. They are looked at byte by byte only where
/// no whole ENTRY stands.
fn take_frames<'a>(
    alloc: Global,
    offset: u64,
    bytes: &'a [u8],
    out: &mut FrameList,
) -> Result<Tail<'a>, FrameError>
    ensures ok { IfOk result (λ tail. Takes offset bytes.now out.old out.new tail.offset tail.rest.now) }
    ensures within { IfOk result (λ tail. IsWithin tail.scan tail.rest.now) }
    ensures err { IfErr result (λ e. Fails e offset bytes.now out.old out.new) }
{
    let mut rest = bytes;
    let mut offset = offset;
    loop {
        let (frame, count) = match whole_entry(alloc, rest)? {
            Some(entry) => entry,
            None => match look(alloc, rest)? {
                Ahead::Bad => return Err(FrameError::BadFrame { offset }),
                Ahead::Open(scan) => return Ok(Tail { offset, scan, rest }),
                Ahead::Whole(frame, count) => (frame, count),
            },
        };
        let (_, back) = rest.split_at(count);
        out.push(frame)?;
        offset = offset.saturating_add(count as u64);
        rest = back;
    }
}

/// The frame that the bytes kept and these are. The bytes kept stay.
fn join(alloc: Global, kept: &mut Vec<u8>, front: &[u8]) -> Result<Frame, NoMemory>
    requires { IsSpelled (kept.old.items ++ front.now) }
    ensures kept { kept.new.items ≡ kept.old.items }
    ensures spelled { IfOk result (λ frame. spelled_frame (frame_value frame) ≡ kept.old.items ++ front.now) }
    ensures form { IfOk result (λ frame. IsFrame (frame_value frame)) }
{
    let before = kept.len();
    kept.extend_from_slice(front)?;
    let read = frame_of(alloc, kept);
    kept.truncate(before);
    read
}

/// The reader that keeps this rest.
fn keeping(alloc: Global, offset: u64, scan: Scan, rest: &[u8]) -> Result<Frames, FrameError>
    requires { IsWithin scan rest.now }
    ensures ok { IfOk result (λ f. (f.offset ≡ offset) × (f.rest ≡ rest.now)) }
    ensures err { IfErr result (λ e. e ≡ FrameError.NoMemory) }
{
    let rest = Vec::from_slice(alloc, rest)?;
    Ok(Frames { rest, scan, offset })
}

/// The reader behind these bytes, the first frame of which begins at that offset.
fn behind(
    alloc: Global,
    offset: u64,
    bytes: &[u8],
    out: &mut FrameList,
) -> Result<Frames, FrameError>
    ensures ok { IfOk result (λ f. Takes offset bytes.now out.old out.new f.offset f.rest) }
    ensures err { IfErr result (λ e. Fails e offset bytes.now out.old out.new) }
{
    match take_frames(alloc, offset, bytes, out) {
        Ok(tail) => keeping(alloc, tail.offset, tail.scan, tail.rest),
        Err(error) => Err(error),
    }
}

/// The reader behind a piece whose first `count` bytes complete the frame that was begun at that offset. The bytes kept stay.
fn advanced(
    alloc: Global,
    kept: &mut Vec<u8>,
    offset: u64,
    piece: &[u8],
    count: usize,
    out: &mut FrameList,
) -> Result<Frames, FrameError>
    requires within { count ≤ length piece.now }
    requires whole { IsSpelled (kept.old.items ++ take count piece.now) }
    ensures kept { kept.new.items ≡ kept.old.items }
    ensures ok { IfOk result (λ f. Takes offset (kept.old.items ++ piece.now) out.old out.new f.offset f.rest) }
    ensures err { IfErr result (λ e. Fails e offset (kept.old.items ++ piece.now) out.old out.new) }
{
    let (front, back) = piece.split_at(count);
    let frame = join(alloc, kept, front)?;
    out.push(frame)?;
    let begun = offset.saturating_add(kept.as_slice().len() as u64);
    behind(alloc, begun.saturating_add(count as u64), back, out)
}

impl Frames {
    /// Before a connection's first byte. It takes no memory yet.
    pub fn new(alloc: Global) -> Self
        ensures { result ≡ record { offset = 0; rest = [] } }
    {
        Frames {
            rest: Vec::new(alloc),
            scan: Scan::new(),
            offset: 0,
        }
    }

    /// Where the first frame begins that wasn't whole yet, counted from the connection's first byte.
    pub fn offset(&self) -> u64
        ensures { result ≡ self.now.offset }
    {
        self.offset
    }

    /// Takes a piece that begins where a frame does.
    fn feed_first(&mut self, piece: &[u8], out: &mut FrameList) -> Result<(), FrameError>
        requires none { self.old.rest ≡ [] }
        ensures ok { OnOk result (Takes self.old.offset (self.old.rest ++ piece.now) out.old out.new self.new.offset self.new.rest) }
        ensures partial { OnOk result (BeginsFrame self.new.rest) }
        ensures err { IfErr result (λ e. Fails e self.old.offset (self.old.rest ++ piece.now) out.old out.new) }
        ensures unchanged { IfErr result (λ _. self.new ≡ self.old) }
    {
        let alloc = *self.rest.allocator();
        let tail = take_frames(alloc, self.offset, piece, out)?;
        self.rest.extend_from_slice(tail.rest)?;
        self.scan = tail.scan;
        self.offset = tail.offset;
        Ok(())
    }

    /// Takes a piece of the stream, and adds the frames that are whole now to `out`. The bytes of a frame that isn't whole yet
    /// are kept. A bad frame is told as soon as no well-formed frame begins so, and nothing is to be fed after it.
    pub fn feed(&mut self, piece: &[u8], out: &mut FrameList) -> Result<(), FrameError>
        // the stream is these frames and no others, up to a rest that begins one
        ensures ok { OnOk result (Takes self.old.offset (self.old.rest ++ piece.now) out.old out.new self.new.offset self.new.rest) }
        ensures partial { OnOk result (BeginsFrame self.new.rest) }
        // a bad frame's offset, or want of memory
        ensures err { IfErr result (λ e. Fails e self.old.offset (self.old.rest ++ piece.now) out.old out.new) }
        ensures unchanged { IfErr result (λ _. self.new ≡ self.old) }
    {
        if self.rest.is_empty() {
            return self.feed_first(piece, out);
        }
        match run(self.scan, piece) {
            Ran::Bad => Err(FrameError::BadFrame {
                offset: self.offset,
            }),
            Ran::Open(scan) => {
                self.rest.extend_from_slice(piece)?;
                self.scan = scan;
                Ok(())
            }
            Ran::Whole(count) => {
                let alloc = *self.rest.allocator();
                let next = advanced(alloc, &mut self.rest, self.offset, piece, count, out)?;
                *self = next;
                Ok(())
            }
        }
    }
}
