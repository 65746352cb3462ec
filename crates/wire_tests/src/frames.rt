// The worked bytes of frames, whole and in pieces.
ghost use Rattle.std.specs.Prelude.{OnOk};
ghost use Rattle.std.specs.List.{AllByRecursion};
ghost use Rattle.wire_defs.specs.Frames.{IsFrame};

use gvn_key::Bytes;
use repl_wire::{
    Frame, FrameError, FrameList, Frames, entry_head, frame_length, write_entry_frame, write_frame,
};
use std::alloc::Global;
use std::process::Abort;
use std::test::Fail;

/// The HELLO of an empty secondary B.
const HELLO: &[u8] =
    b"\x01\x00\x00\x00\x0f\x01\x01B\x00\x00\x00\x00\x00\x00\x00\x00\x00\x00\x00\x00";

/// RESUME from 1.
const RESUME: &[u8] = b"\x02\x00\x00\x00\x08\x00\x00\x00\x00\x00\x00\x00\x01";

/// The HISTORY of A.1 from 1.
const HISTORY: &[u8] = b"\x04\x00\x00\x00\x0e\x01A\x00\x00\x00\x01\x00\x00\x00\x00\x00\x00\x00\x01";

/// SET ^X(1)="a" as number 1.
const ENTRY: &[u8] =
    b"\x05\x00\x00\x00\x1a\x00\x00\x00\x00\x00\x00\x00\x01\x01\x00\x00\x00\x01\x00\x01\x01\x06X\x00\x03A1\x00\x00\x01a";

/// The HELLO of a secondary B with 9 entries and the reign Abc.7 from 3.
const HELLO_OF_A_REIGN: &[u8] =
    b"\x01\x00\x00\x00\x1f\x01\x01B\x00\x00\x00\x00\x00\x00\x00\x09\x00\x00\x00\x01\x03Abc\x00\x00\x00\x07\x00\x00\x00\x00\x00\x00\x00\x03";

/// ROLLBACKFIRST from 5.
const ROLLBACK_FIRST: &[u8] = b"\x03\x00\x00\x00\x08\x00\x00\x00\x00\x00\x00\x00\x05";

/// SET ^X="" and KILL ^Y as number 2, job 2 of updater 64.
const ENTRY_OF_TWO: &[u8] =
    b"\x05\x00\x00\x00\x19\x00\x00\x00\x00\x00\x00\x00\x02\x40\x00\x00\x00\x02\x00\x02\x01\x02X\x00\x00\x00\x02\x02Y\x00";

/// BYE at 6 entries.
const BYE: &[u8] = b"\x06\x00\x00\x00\x08\x00\x00\x00\x00\x00\x00\x00\x06";

/// The frame of a letter.
fn frame_of(letter: u8) -> &'static [u8] {
    match letter {
        b'H' => HELLO,
        b'R' => RESUME,
        b'Y' => HISTORY,
        b'E' => ENTRY,
        b'A' => HELLO_OF_A_REIGN,
        b'F' => ROLLBACK_FIRST,
        b'T' => ENTRY_OF_TWO,
        _ => BYE,
    }
}

/// Feeds a stream in pieces of a size, and answers where a bad frame was told and how many bytes had been fed.
fn fed(
    alloc: Global,
    stream: &[u8],
    size: usize,
    out: &mut FrameList,
) -> Result<Option<(u64, usize)>, Fail>
    requires { AllByRecursion IsFrame out.old }
    ensures { OnOk result (AllByRecursion IsFrame out.new) }
{
    let mut frames = Frames::new(alloc);
    let mut count = 0usize;
    for piece in stream.chunks(size.max(1)) {
        count = count.wrapping_add(piece.len());
        match frames.feed(piece, out) {
            Err(FrameError::BadFrame { offset }) => return Ok(Some((offset, count))),
            Err(error) => return Err(Fail::from(error)),
            Ok(()) => {}
        }
    }
    Ok(None)
}

/// The frames of a stream again as bytes.
fn written(alloc: Global, list: &FrameList) -> Result<Bytes, Fail>
    requires { AllByRecursion IsFrame list.now }
{
    let mut out = Bytes::new(alloc);
    for i in 0..list.len() {
        write_frame(list.item(i), &mut out)?;
    }
    Ok(out)
}

/// How many bytes the frames of a list have.
fn counted(list: &FrameList) -> u64
    requires { AllByRecursion IsFrame list.now }
{
    let mut count = 0u64;
    for i in 0..list.len() {
        count = count.saturating_add(frame_length(list.item(i)));
    }
    count
}

/// A stream of each of these frames.
fn stream(alloc: Global) -> Result<Bytes, Fail> {
    let mut stream = Bytes::new(alloc);
    for letter in b"HRYEAFTB" {
        stream.push_all(frame_of(*letter))?;
    }
    Ok(stream)
}

fn comes_in_pieces(rt: &impl Abort, alloc: Global, stream: &[u8], size: usize) -> Result<(), Fail> {
    let mut out = FrameList::new(alloc);
    assert_eq!(rt; fed(alloc, stream, size, &mut out)?, None);
    assert_eq!(rt; out.len(), 8, "in pieces of {size}");
    let bytes = written(alloc, &out)?;
    assert_eq!(rt; bytes.as_slice(), stream);
    assert_eq!(rt; counted(&out), 175);
    Ok(())
}

#[test]
fn takes_frames_in_pieces(rt: HostRuntime) -> Result<(), Fail> {
    let stream = stream(rt.alloc())?;
    assert_eq!(rt; stream.len(), 175);
    for size in [1, 2, 3, 7, 175] {
        comes_in_pieces(&rt, rt.alloc(), stream.as_slice(), size)?;
    }
    Ok(())
}

#[test]
fn tells_a_bad_type(rt: HostRuntime) -> Result<(), Fail> {
    let mut out = FrameList::new(rt.alloc());
    let told = fed(rt.alloc(), b"\x07\x00\x00\x00\x00", 5, &mut out)?;
    assert_eq!(rt; told, Some((0, 5)));
    Ok(())
}

/// A bad type behind a frame, and a frame that isn't whole yet.
#[test]
fn keeps_the_frames_before(rt: HostRuntime) -> Result<(), Fail> {
    let mut out = FrameList::new(rt.alloc());
    let mut stream = Bytes::of(rt.alloc(), HELLO)?;
    stream.push(9)?;
    let told = fed(rt.alloc(), stream.as_slice(), 1, &mut out)?;
    assert_eq!(rt; told, Some((20, 21)));
    assert_eq!(rt; out.len(), 1);
    assert_eq!(rt; fed(rt.alloc(), &HELLO[..10], 10, &mut out)?, None);
    assert_eq!(rt; out.len(), 1);
    Ok(())
}

/// A frame, a place in it, and the byte that is put there.
const FAULTS: &str = "\
H 0 0
H 5 2
H 6 2
H 7 49
H 10 1
H 19 1
R 4 9
R 7 2
R 12 0
Y 10 0
E 13 65
E 19 0
E 20 4
E 24 255
E 29 2";

/// The frame with another byte at a place.
fn changed(alloc: Global, frame: &[u8], place: usize, byte: u8) -> Result<Bytes, Fail> {
    let mut stream = Bytes::new(alloc);
    for (i, b) in frame.iter().enumerate() {
        stream.push(if i == place { byte } else { *b })?;
    }
    Ok(stream)
}

fn is_told(rt: &impl Abort, alloc: Global, row: &str) -> Result<(), Fail> {
    let (letter, row) = row.split_once(' ').ok_or("no letter")?;
    let (place, byte) = row.split_once(' ').ok_or("no place")?;
    let frame = frame_of(letter.as_bytes().first().copied().unwrap_or(0));
    let place = place.parse::<usize>()?;
    let stream = changed(alloc, frame, place, byte.parse()?)?;
    let told = fed(alloc, stream.as_slice(), 1, &mut FrameList::new(alloc))?;
    assert_eq!(rt; told, Some((0, place.wrapping_add(1))), "{row}");
    Ok(())
}

/// Each frame with one byte changed is refused at that byte.
#[test]
fn tells_a_fault_at_its_byte(rt: HostRuntime) -> Result<(), Fail> {
    for row in FAULTS.split('\n') {
        is_told(&rt, rt.alloc(), row)?;
    }
    Ok(())
}

#[test]
fn writes_frames_made_here(rt: HostRuntime) -> Result<(), Fail> {
    let mut list = FrameList::new(rt.alloc());
    assert!(rt; list.is_empty());
    list.push(Frame::Resume(1))?;
    list.push(Frame::RollbackFirst(5))?;
    list.push(Frame::Bye(6))?;
    assert_eq!(rt; list.as_slice().len(), 3);
    let bytes = written(rt.alloc(), &list)?;
    assert!(rt; bytes.as_slice().starts_with(RESUME));
    assert!(rt; bytes.as_slice().ends_with(BYE));
    assert_eq!(rt; bytes.len(), 39);
    Ok(())
}

#[test]
fn tells_where_the_next_frame_begins(rt: HostRuntime) -> Result<(), Fail> {
    let mut frames = Frames::new(rt.alloc());
    let mut out = FrameList::new(rt.alloc());
    assert_eq!(rt; frames.offset(), 0);
    frames.feed(HELLO, &mut out)?;
    frames.feed(RESUME, &mut out)?;
    frames.feed(&ENTRY[..30], &mut out)?;
    assert_eq!(rt; frames.offset(), 33);
    let given = out.into_vec();
    assert_eq!(rt; given.len(), 2);
    assert!(rt; matches!(given.last(), Some(Frame::Resume(1))));
    Ok(())
}

#[test]
fn writes_an_entry_by_its_bytes(rt: HostRuntime) -> Result<(), Fail> {
    let mut out = Bytes::new(rt.alloc());
    write_entry_frame(&ENTRY[5..], &mut out)?;
    assert_eq!(rt; out.as_slice(), ENTRY);
    assert_eq!(rt; entry_head(26).as_slice(), &ENTRY[..5]);
    Ok(())
}
