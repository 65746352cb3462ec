//! The lines of a ZWRITE.
ghost use Rattle.std.specs.Prelude.{◌≡◌, [], ◌∷◌, ◌++◌, OnOk, OnErr};
ghost use Rattle.global_defs.specs.NodeText.{node_text};
ghost use Rattle.global_defs.specs.Prefix.{IsPrefix};
ghost use Rattle.global_defs.specs.Zwr.{zwr};

use gvn_key::{Bytes, Key, NoMemory, zwr_write};

/// How many bytes a line mostly has beside those of the encoded key and the value, where nothing in them has a code.
const BESIDE_TEXTS: usize = 8;

fn push_node(key: &Key, value: &[u8], out: &mut Bytes) -> Result<(), NoMemory>
    ensures ok { OnOk result (out.new ≡ out.old ++ (node_text key.now ++ 61 ∷ zwr value.now ++ 10 ∷ [])) }
    ensures front { OnErr result (IsPrefix out.old out.new) }
{
    key.write(out)?;
    out.push_all(b"=")?;
    zwr_write(value, out)?;
    out.push_all(b"\n")
}

/// Adds a ZWRITE line at the end: the node, an equals sign, its value in ZWR form and LF. Without memory nothing is added.
pub fn write_node(key: &Key, value: &[u8], out: &mut Bytes) -> Result<(), NoMemory>
    ensures ok { OnOk result (out.new ≡ out.old ++ (node_text key.now ++ 61 ∷ zwr value.now ++ 10 ∷ [])) }
    ensures err { OnErr result (out.new ≡ out.old) }
{
    let room = BESIDE_TEXTS
        .saturating_add(key.as_encoded().len())
        .saturating_add(value.len());
    let before = out.len();
    out.reserve(room)?;
    match push_node(key, value, out) {
        Ok(()) => Ok(()),
        Err(error) => {
            out.truncate(before);
            Err(error)
        }
    }
}
