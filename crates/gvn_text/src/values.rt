//! Values and integers.
ghost use Rattle.std.specs.Prelude.{◌≡◌, ◌≢◌, Some};
ghost use Rattle.script_defs.specs.Parts.{inside, valued, value_reading, sized, last_value, last_integer, assigned};
ghost use Rattle.gvn_text.specs.Reads.{Reads, fault_value};

use super::fault::{Fault, TextError, bad, place, too_long};
use super::parts::{alone, word_end};
use global_defs::limits::LONGEST_VALUE;
use gvn_key::{Bytes, NoMemory, ZwrError, integer_of, is_number, zwr_read};
use std::alloc::Global;

/// A value's own fault, by its place in the value.
fn inside(len: usize, left: &[u8], fault: ZwrError) -> Fault
    requires { fault ≢ ZwrError.NoMemory }
    ensures { fault_value result ≡ Some (inside len left.now fault) }
{
    let part = place(len, left);
    let error = match fault {
        ZwrError::BadQuote { at } => TextError::BadQuote {
            at: part.saturating_add(at),
        },
        ZwrError::BadChar { at } => TextError::BadChar {
            at: part.saturating_add(at),
        },
        ZwrError::NoMemory => TextError::NoMemory,
    };
    Fault { part, error }
}

/// The value of a part that stands at the front of what is left.
fn valued(alloc: Global, len: usize, left: &[u8], part: &[u8]) -> Result<Bytes, Fault>
    ensures { Reads (λ value. value) (valued len left.now (value_reading part.now)) result }
{
    if is_number(part) {
        return Ok(Bytes::of(alloc, part)?);
    }
    match zwr_read(alloc, part) {
        Ok(value) => Ok(value),
        Err(ZwrError::NoMemory) => Err(Fault::from(NoMemory)),
        Err(fault) => Err(inside(len, left, fault)),
    }
}

/// A value behind which nothing may come. One that is too long is bad where something comes.
fn sized(len: usize, left: &[u8], rest: &[u8], value: Bytes) -> Result<Bytes, Fault>
    ensures { Reads (λ v. v) (sized len left.now rest.now value) result }
{
    if LONGEST_VALUE < value.len() {
        return Err(if rest.is_empty() {
            too_long(len, left)
        } else {
            bad(len, left)
        });
    }
    alone(len, rest)?;
    Ok(value)
}

fn last_value(alloc: Global, len: usize, left: &[u8]) -> Result<Bytes, Fault>
    ensures { Reads (λ v. v) (last_value len left.now) result }
{
    let (part, rest) = left.split_at(word_end(left));
    let value = valued(alloc, len, left, part)?;
    sized(len, left, rest, value)
}

/// A value behind an equals sign, and nothing more.
pub fn assigned(alloc: Global, len: usize, left: &[u8]) -> Result<Bytes, Fault>
    ensures { Reads (λ v. v) (assigned len left.now) result }
{
    match left {
        [b'=', value @ ..] => last_value(alloc, len, value),
        _ => Err(bad(len, left)),
    }
}

/// An integer behind which nothing may come.
pub fn last_integer(len: usize, left: &[u8]) -> Result<i64, Fault>
    ensures { Reads (λ n. n) (last_integer len left.now) result }
{
    let (part, rest) = left.split_at(word_end(left));
    match integer_of(part) {
        None => Err(bad(len, left)),
        Some(number) => {
            alone(len, rest)?;
            Ok(number)
        }
    }
}
