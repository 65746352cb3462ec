//! Statements read from the front.
ghost use Rattle.std.specs.Prelude.{◌≡◌, Ok, IfOk, drop};
ghost use Rattle.gvn_key.specs.Terms.{statement_value};
ghost use Rattle.global_defs.specs.Jobs as jobs;
ghost use Rattle.script_defs.specs.Parts.{key_end};
ghost use Rattle.script_defs.specs.Statements.{value_statement, node_statement, incr_reading, order_reading, is_at_least, check_integer, check_reading, operand_reading, statement_reading, statement_text, SpellsStatement, IsStatement};
ghost use Rattle.gvn_text.specs.Reads.{Reads, ReadsText};

use super::fault::{Fault, TextError};
use super::levels::{last_level, last_node};
use super::parts::{key_end, node_at, without_spaces, word_end};
use super::values::{assigned, last_integer};
use gvn_key::terms::Statement;
use std::alloc::Global;

fn read_set(alloc: Global, len: usize, left: &[u8]) -> Result<Statement, Fault>
    ensures { Reads statement_value (value_statement jobs.Set len left.now (key_end left.now)) result }
{
    let (part, rest) = left.split_at(key_end(left));
    let key = node_at(alloc, len, left, part)?;
    let value = assigned(alloc, len, rest)?;
    Ok(Statement::Set(key, value))
}

fn read_incr(alloc: Global, len: usize, left: &[u8]) -> Result<Statement, Fault>
    ensures { Reads statement_value (incr_reading len left.now) result }
{
    let (part, rest) = left.split_at(word_end(left));
    let key = node_at(alloc, len, left, part)?;
    let number = last_integer(len, without_spaces(rest))?;
    Ok(Statement::Incr(key, number))
}

fn read_order(alloc: Global, len: usize, left: &[u8]) -> Result<Statement, Fault>
    ensures { Reads statement_value (order_reading len left.now) result }
{
    let (key, last) = last_level(alloc, len, left)?;
    Ok(Statement::Order(key, last))
}

/// Whether a greater-than sign ends the part before an equals sign.
fn is_at_least(part: &[u8], rest: &[u8]) -> bool
    ensures { result ≡ is_at_least part.now rest.now }
{
    matches!(part, [.., b'>']) && matches!(rest, [b'=', ..])
}

/// What stands behind the first byte.
fn behind_first(text: &[u8]) -> &[u8]
    ensures { result.now ≡ drop 1 text.now }
{
    match text {
        [] => text,
        [_, rest @ ..] => rest,
    }
}

/// An integer behind both signs.
fn check_integer(
    alloc: Global,
    len: usize,
    left: &[u8],
    part: &[u8],
    rest: &[u8],
) -> Result<Statement, Fault>
    ensures { Reads statement_value (check_integer len left.now part.now rest.now) result }
{
    let key = node_at(alloc, len, left, &part[..part.len().saturating_sub(1)])?;
    let number = last_integer(len, behind_first(rest))?;
    Ok(Statement::CheckAtLeast(key, number))
}

fn check_value(alloc: Global, len: usize, left: &[u8]) -> Result<Statement, Fault>
    ensures { Reads statement_value (value_statement jobs.CheckIs len left.now (key_end left.now)) result }
{
    let (part, rest) = left.split_at(key_end(left));
    let key = node_at(alloc, len, left, part)?;
    let value = assigned(alloc, len, rest)?;
    Ok(Statement::CheckIs(key, value))
}

fn read_check(alloc: Global, len: usize, left: &[u8]) -> Result<Statement, Fault>
    ensures { Reads statement_value (check_reading len left.now) result }
{
    let (part, rest) = left.split_at(key_end(left));
    if is_at_least(part, rest) {
        check_integer(alloc, len, left, part, rest)
    } else {
        check_value(alloc, len, left)
    }
}

/// A word's statement, by what stands behind it.
fn read_operand(alloc: Global, word: &[u8], len: usize, left: &[u8]) -> Result<Statement, Fault>
    ensures { Reads statement_value (operand_reading word.now len left.now) result }
{
    if word == b"SET".as_slice() {
        return read_set(alloc, len, left);
    }
    if word == b"KILL".as_slice() {
        return Ok(Statement::Kill(last_node(alloc, len, left)?));
    }
    if word == b"ZKILL".as_slice() {
        return Ok(Statement::ZKill(last_node(alloc, len, left)?));
    }
    if word == b"INCR".as_slice() {
        return read_incr(alloc, len, left);
    }
    if word == b"GET".as_slice() {
        return Ok(Statement::Get(last_node(alloc, len, left)?));
    }
    if word == b"DATA".as_slice() {
        return Ok(Statement::Defined(last_node(alloc, len, left)?));
    }
    if word == b"ORDER".as_slice() {
        return read_order(alloc, len, left);
    }
    if word == b"CHECK".as_slice() {
        return read_check(alloc, len, left);
    }
    Err(Fault {
        part: 0,
        error: TextError::BadChar { at: 0 },
    })
}

/// The statement of a text, or its first fault with the part that has it.
pub fn read_located(alloc: Global, text: &[u8]) -> Result<Statement, Fault>
    // Which statement, or which fault of which part.
    ensures { Reads statement_value (statement_reading text.now) result }
{
    let (word, rest) = text.split_at(word_end(text));
    read_operand(alloc, word, text.len(), without_spaces(rest))
}

/// The statement of a text, as `SET ^X(1)="a"`, or the text's first fault. Parts are separated by one space or more.
pub fn read_statement(alloc: Global, text: &[u8]) -> Result<Statement, TextError>
    // Which statement, or which fault.
    ensures reading { ReadsText statement_value (statement_reading text.now) result }
    // What is read is in the grammar.
    ensures found { IfOk result (λ s. SpellsStatement text.now (statement_value s)) }
    // What is in the grammar is read to its statement.
    ensures only { (s : jobs.Statement) → SpellsStatement text.now s → ReadsText statement_value (Ok s) result }
    // What was written is read back.
    ensures again { (s : jobs.Statement) → IsStatement s → text.now ≡ statement_text s → ReadsText statement_value (Ok s) result }
{
    match read_located(alloc, text) {
        Ok(statement) => Ok(statement),
        Err(fault) => Err(fault.error),
    }
}
