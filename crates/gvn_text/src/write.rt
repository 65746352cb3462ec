//! Statements written.
ghost use Rattle.std.specs.Prelude.{◌≡◌, ◌++◌, ◌∷◌, ◌-◌, [], length, take, OnOk, OnErr};
ghost use Rattle.global_defs.specs.Jobs as jobs;
ghost use Rattle.gvn_key.specs.Terms.{statement_value};
ghost use Rattle.global_defs.specs.Zwr.{zwr};
ghost use Rattle.global_defs.specs.Key.{sub_of};
ghost use Rattle.global_defs.specs.NodeText.{node_text, sub_text};
ghost use Rattle.script_defs.specs.Statements.{text_above, statement_text};

use gvn_key::terms::Statement;
use gvn_key::{Bytes, Key, NoMemory, is_number, write_integer, zwr_write};

fn push_setting(word: &[u8], key: &Key, value: &Bytes, out: &mut Bytes) -> Result<(), NoMemory>
    ensures { OnOk result (out.new ≡ out.old ++ (word.now ++ (node_text key.now ++ 61 ∷ zwr value.now))) }
{
    out.push_all(word)?;
    key.write(out)?;
    out.push_all(b"=")?;
    zwr_write(value.as_slice(), out)
}

fn push_node(word: &[u8], key: &Key, out: &mut Bytes) -> Result<(), NoMemory>
    ensures { OnOk result (out.new ≡ out.old ++ (word.now ++ node_text key.now)) }
{
    out.push_all(word)?;
    key.write(out)
}

/// A subscript by its own bytes: a number by its numeral, a string in ZWR form.
fn push_sub(sub: &[u8], out: &mut Bytes) -> Result<(), NoMemory>
    ensures { OnOk result (out.new ≡ out.old ++ sub_text (sub_of sub.now)) }
{
    if is_number(sub) {
        out.push_all(sub)
    } else {
        zwr_write(sub, out)
    }
}

/// A node's text up to where one subscript more may stand.
fn push_above(key: &Key, out: &mut Bytes) -> Result<(), NoMemory>
    ensures { OnOk result (out.new ≡ out.old ++ text_above key.now) }
{
    let mut node = Bytes::new(out.allocator());
    key.write(&mut node)?;
    if key.depth() == 0 {
        out.push_all(node.as_slice())?;
        return out.push_all(b"(");
    }
    out.push_all(without_last(node.as_slice()))?;
    out.push_all(b",")
}

/// All but the last byte.
fn without_last(text: &[u8]) -> &[u8]
    ensures { result.now ≡ take (length text.now - 1) text.now }
{
    &text[..text.len().saturating_sub(1)]
}

fn push_level(key: &Key, last: &Bytes, out: &mut Bytes) -> Result<(), NoMemory>
    ensures { OnOk result (out.new ≡ out.old ++ statement_text (jobs.Order key.now last.now)) }
{
    out.push_all(b"ORDER ")?;
    push_above(key, out)?;
    push_sub(last.as_slice(), out)?;
    out.push_all(b")")
}

fn push_statement(s: &Statement, out: &mut Bytes) -> Result<(), NoMemory>
    ensures { OnOk result (out.new ≡ out.old ++ statement_text (statement_value s.now)) }
{
    match s {
        Statement::Set(key, value) => push_setting(b"SET ", key, value, out),
        Statement::Kill(key) => push_node(b"KILL ", key, out),
        Statement::ZKill(key) => push_node(b"ZKILL ", key, out),
        Statement::Incr(key, number) => {
            push_node(b"INCR ", key, out)?;
            out.push_all(b" ")?;
            write_integer(*number, out)
        }
        Statement::Get(key) => push_node(b"GET ", key, out),
        Statement::Defined(key) => push_node(b"DATA ", key, out),
        Statement::Order(key, last) => push_level(key, last, out),
        Statement::CheckIs(key, value) => push_setting(b"CHECK ", key, value, out),
        Statement::CheckAtLeast(key, number) => {
            push_node(b"CHECK ", key, out)?;
            out.push_all(b">=")?;
            write_integer(*number, out)
        }
    }
}

/// Adds the canonical text of a statement at the end: one space between parts, and a value in ZWR form. Without memory nothing
/// is added.
pub fn write_statement(s: &Statement, out: &mut Bytes) -> Result<(), NoMemory>
    ensures ok { OnOk result (out.new ≡ out.old ++ statement_text (statement_value s.now)) }
    ensures err { OnErr result (out.new ≡ out.old) }
{
    let mut text = Bytes::new(out.allocator());
    push_statement(s, &mut text)?;
    out.push_all(text.as_slice())
}
