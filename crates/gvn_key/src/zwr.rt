//! The ZWR form of bytes: runs of printable bytes in quotes, other bytes by their codes.
ghost use Rattle.std.specs.Prelude.{◌≡◌, ◌++◌, IfOk, OnOk, OnErr};
ghost use Rattle.global_defs.specs.Zwr.{is_plain, quoted_byte, zwr};
ghost use Rattle.gvn_key.specs.Pieces.{opened, plain_text, code_text, byte_text, closing};

use super::bytes::{Bytes, NoMemory};

/// How many bytes a text of printable bytes alone has beside them, where none is a quote.
const QUOTES: usize = 2;

/// The piece that is open while bytes are written.
#[derive(Clone, Copy)]
enum Open {
    Nothing,
    Quotes,
    Codes,
}

/// From space to tilde.
pub fn is_plain(byte: u8) -> bool
    ensures { result ≡ is_plain byte }
{
    32 <= byte && byte <= 126
}

/// A byte inside quotes: a quote is doubled.
fn write_quoted(byte: u8, out: &mut Bytes) -> Result<(), NoMemory>
    ensures { OnOk result (out.new ≡ out.old ++ quoted_byte byte) }
{
    if byte == b'"' {
        out.push_all(b"\"\"")
    } else {
        out.push(byte)
    }
}

fn write_plain(piece: Open, byte: u8, out: &mut Bytes) -> Result<(), NoMemory>
    ensures { OnOk result (out.new ≡ out.old ++ plain_text piece byte) }
{
    match piece {
        Open::Nothing => out.push_all(b"\"")?,
        Open::Quotes => {}
        Open::Codes => out.push_all(b")_\"")?,
    }
    write_quoted(byte, out)
}

fn write_code(piece: Open, byte: u8, out: &mut Bytes) -> Result<(), NoMemory>
    ensures { OnOk result (out.new ≡ out.old ++ code_text piece byte) }
{
    match piece {
        Open::Nothing => out.push_all(b"$C(")?,
        Open::Quotes => out.push_all(b"\"_$C(")?,
        Open::Codes => out.push_all(b",")?,
    }
    out.push_decimal(u64::from(byte))
}

/// A byte, and before it what ends one piece and opens the next.
fn write_byte(piece: Open, byte: u8, out: &mut Bytes) -> Result<Open, NoMemory>
    ensures next { IfOk result (λ next. next ≡ opened byte) }
    ensures text { OnOk result (out.new ≡ out.old ++ byte_text piece byte) }
{
    if is_plain(byte) {
        write_plain(piece, byte, out)?;
        Ok(Open::Quotes)
    } else {
        write_code(piece, byte, out)?;
        Ok(Open::Codes)
    }
}

fn close(piece: Open, out: &mut Bytes) -> Result<(), NoMemory>
    ensures { OnOk result (out.new ≡ out.old ++ closing piece) }
{
    match piece {
        Open::Nothing => Ok(()),
        Open::Quotes => out.push_all(b"\""),
        Open::Codes => out.push_all(b")"),
    }
}

/// Adds the ZWR form of bytes at the end.
pub fn push_zwr(bytes: &[u8], out: &mut Bytes) -> Result<(), NoMemory>
    ensures { OnOk result (out.new ≡ out.old ++ zwr bytes.now) }
{
    if bytes.is_empty() {
        return out.push_all(b"\"\"");
    }
    let mut piece = Open::Nothing;
    for byte in bytes {
        piece = write_byte(piece, *byte, out)?;
    }
    close(piece, out)
}

/// Adds the ZWR form of bytes at the end. Without memory nothing is added.
pub fn zwr_write(bytes: &[u8], out: &mut Bytes) -> Result<(), NoMemory>
    ensures ok { OnOk result (out.new ≡ out.old ++ zwr bytes.now) }
    ensures err { OnErr result (out.new ≡ out.old) }
{
    let room = bytes.len().saturating_add(QUOTES);
    let mut text = Bytes::with_capacity(out.allocator(), room)?;
    push_zwr(bytes, &mut text)?;
    out.push_all(text.as_slice())
}
