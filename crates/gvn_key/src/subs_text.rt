//! The text of subscripts from their encoded bytes.
ghost use Rattle.std.specs.Prelude.{◌≡◌, ◌++◌, true, false, List, OnOk};
ghost use Rattle.std.specs.List.{list_all, flat_map};
ghost use Rattle.global_defs.specs.Encoded.{encoded_sub};
ghost use Rattle.global_defs.specs.Key.{Sub};
ghost use Rattle.global_defs.specs.NodeText.{subs_text};
ghost use Rattle.global_defs.specs.Valid.{is_sub};
ghost use Rattle.global_defs.specs.Zwr.{zwr};
ghost use Rattle.gvn_key.specs.Decoding.{AddsText, text_read, unescaped};

use super::bytes::{Bytes, NoMemory};
use super::decode::{has_no_escapes, push_negative, push_positive, sub_end, unescaped};
use super::zwr::push_zwr;

/// Adds the ZWR form of a string from its escaped form.
fn push_string(bytes: &[u8], out: &mut Bytes) -> Result<(), NoMemory>
    ensures { OnOk result (out.new ≡ out.old ++ zwr (unescaped false bytes.now)) }
{
    if has_no_escapes(bytes) {
        return push_zwr(bytes, out);
    }
    let string = unescaped(out.allocator(), bytes)?;
    push_zwr(string.as_slice(), out)
}

/// Adds the text of a subscript from its encoded form without the last byte. It makes no list of the subscript's own bytes.
fn push_sub(bytes: &[u8], out: &mut Bytes) -> Result<(), NoMemory>
    ensures { OnOk result (AddsText (text_read bytes.now) out.old out.new) }
{
    match bytes {
        [] => out.push(b'0'),
        [4, string @ ..] => push_string(string, out),
        [3, rest @ ..] => {
            push_positive(rest, out)?;
            Ok(())
        }
        [1, rest @ ..] => {
            push_negative(rest, out)?;
            Ok(())
        }
        _ => Ok(()),
    }
}

/// Adds the text of encoded subscripts, in brackets and with commas between them, nothing where there are none.
pub fn push_subs_text(bytes: &[u8], out: &mut Bytes) -> Result<(), NoMemory>
    ensures { (subs : List Sub) → list_all is_sub subs ≡ true → flat_map encoded_sub subs ≡ bytes.now → OnOk result (out.new ≡ out.old ++ subs_text subs) }
{
    let mut lead = b'(';
    let mut rest = bytes;
    while let Some(last) = sub_end(rest) {
        out.push(lead)?;
        push_sub(&rest[..last], out)?;
        lead = b',';
        rest = &rest[last + 1..];
    }
    if lead == b',' { out.push(b')') } else { Ok(()) }
}
