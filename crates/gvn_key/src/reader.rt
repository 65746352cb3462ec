//! Text in ZWR form read from the front.
ghost use Rattle.std.specs.Prelude.{◌≡◌, ◌≤◌, ◌++◌, ◌<◌, ℕ, List, length, drop, IfOk, IfErr};
ghost use Rattle.gvn_key.specs.ZwrText.{at_start, in_quotes, behind_quote, expecting, first_digit, digit_more, in_number, step, scan, is_whole, lacks_piece, fault_at, IsBytes, IsZwr, TellsPlace, zwr_reading, ReadsZwr};
ghost use Rattle.global_defs.specs.Zwr.{zwr};

use super::bytes::{Bytes, NoMemory};
use super::zwr::is_plain;
use std::alloc::Global;
use thiserror::Error;

/// Why a text isn't in ZWR form: the first fault, at a place from 0. A place of 2 ^ 32 or more is told as 2 ^ 32 - 1.
#[derive(Clone, Copy, Debug, PartialEq, Eq, Error)]
pub enum ZwrError {
    /// A piece is missing, or a quoted piece isn't closed.
    #[error("a missing or unclosed piece at {at}")]
    BadQuote { at: u32 },
    /// A byte, or the text's end, can't stand there.
    #[error("a wrong byte at {at}")]
    BadChar { at: u32 },
    /// There was no memory.
    #[error("out of memory")]
    NoMemory,
}

impl From<NoMemory> for ZwrError {
    ghost use Rattle.gvn_key.specs.declared.reader.ZwrError.TheVariants as errors;

    ghost from_gives = { λ _ e. e ≡ errors.NoMemory };

    fn from(_: NoMemory) -> Self {
        ZwrError::NoMemory
    }
}

/// Where in a text a reader stands.
#[derive(Clone, Copy)]
pub enum State {
    /// Where a piece begins.
    Start,
    /// Inside quotes.
    Quotes,
    /// Behind a quote that ends a piece, unless a second one follows.
    Closed,
    /// Behind the dollar sign of `$C(`.
    Dollar,
    /// Behind the C of `$C(`.
    Paren,
    /// Where a number begins.
    First,
    /// Inside a number.
    Number(u8),
    /// Behind a bracket that ends a piece.
    Done,
}

/// What a byte does.
#[derive(Clone, Copy)]
pub enum Effect {
    /// It can't stand there.
    Stop,
    /// It leads on.
    Silent(State),
    /// It leads on, and a byte of the value is known.
    Emit(State, u8),
}

fn at_start(byte: u8) -> Effect
    ensures { result ≡ at_start byte }
{
    match byte {
        b'"' => Effect::Silent(State::Quotes),
        b'$' => Effect::Silent(State::Dollar),
        _ => Effect::Stop,
    }
}

fn in_quotes(byte: u8) -> Effect
    ensures { result ≡ in_quotes byte }
{
    if byte == b'"' {
        Effect::Silent(State::Closed)
    } else if is_plain(byte) {
        Effect::Emit(State::Quotes, byte)
    } else {
        Effect::Stop
    }
}

fn behind_quote(byte: u8) -> Effect
    ensures { result ≡ behind_quote byte }
{
    match byte {
        b'"' => Effect::Emit(State::Quotes, b'"'),
        b'_' => Effect::Silent(State::Start),
        _ => Effect::Stop,
    }
}

fn expecting(wanted: u8, next: State, byte: u8) -> Effect
    ensures { result ≡ expecting wanted next byte }
{
    if byte == wanted {
        Effect::Silent(next)
    } else {
        Effect::Stop
    }
}

fn first_digit(byte: u8) -> Effect
    ensures { result ≡ first_digit byte }
{
    if byte.is_ascii_digit() {
        Effect::Silent(State::Number(byte - b'0'))
    } else {
        Effect::Stop
    }
}

/// A digit more: a number has no leading zero and is below 256.
fn digit_more(number: u8, byte: u8) -> Effect
    ensures { result ≡ digit_more number byte }
{
    if !byte.is_ascii_digit() || number == 0 {
        return Effect::Stop;
    }
    let longer = u16::from(number) * 10 + u16::from(byte - b'0');
    if longer < 256 {
        Effect::Silent(State::Number(longer as u8))
    } else {
        Effect::Stop
    }
}

fn in_number(number: u8, byte: u8) -> Effect
    ensures { result ≡ in_number number byte }
{
    match byte {
        b',' => Effect::Emit(State::First, number),
        b')' => Effect::Emit(State::Done, number),
        _ => digit_more(number, byte),
    }
}

fn step(state: State, byte: u8) -> Effect
    ensures { result ≡ step state byte }
{
    match state {
        State::Start => at_start(byte),
        State::Quotes => in_quotes(byte),
        State::Closed => behind_quote(byte),
        State::Dollar => expecting(b'C', State::Paren, byte),
        State::Paren => expecting(b'(', State::First, byte),
        State::First => first_digit(byte),
        State::Number(number) => in_number(number, byte),
        State::Done => expecting(b'_', State::Start, byte),
    }
}

/// Where a reader stopped: before the first byte that can't stand there, or at the end.
#[derive(Clone, Copy)]
pub struct Stopped {
    /// Its state.
    pub state: State,
    /// The place, from 0.
    pub at: usize,
}

/// Reads as far as the bytes can go on, and adds the value at the end.
pub fn scan(text: &[u8], value: &mut Bytes) -> Result<Stopped, NoMemory>
    ensures state { IfOk result (λ s. s.state ≡ (scan State.Start text.now).state) }
    ensures left { IfOk result (λ s. drop s.at text.now ≡ (scan State.Start text.now).left) }
    ensures within { IfOk result (λ s. s.at ≤ length text.now) }
    ensures value { IfOk result (λ s. value.new ≡ value.old ++ (scan State.Start text.now).value) }
{
    let mut state = State::Start;
    let mut at = 0;
    for byte in text {
        match step(state, *byte) {
            Effect::Stop => return Ok(Stopped { state, at }),
            Effect::Silent(next) => state = next,
            Effect::Emit(next, known) => {
                value.push(known)?;
                state = next;
            }
        }
        at += 1;
    }
    Ok(Stopped { state, at })
}

/// Whether a text may end so.
pub fn is_whole(state: State) -> bool
    ensures { result ≡ is_whole state }
{
    matches!(state, State::Closed | State::Done)
}

/// Whether a piece is missing there, or a quoted one isn't closed.
fn lacks_piece(state: State, left: &[u8]) -> bool
    ensures { result ≡ lacks_piece state left.now }
{
    match state {
        State::Start => match left {
            [] => true,
            [byte, ..] => *byte == b'_',
        },
        State::Quotes => left.is_empty(),
        _ => false,
    }
}

fn fault_at(at: usize, lacking: bool) -> ZwrError
    ensures { result ≡ fault_at at lacking }
{
    let at = at.min(4_294_967_295) as u32;
    if lacking {
        ZwrError::BadQuote { at }
    } else {
        ZwrError::BadChar { at }
    }
}

fn read(alloc: Global, text: &[u8]) -> Result<Bytes, ZwrError>
    ensures { ReadsZwr (zwr_reading text.now) result }
{
    let mut value = Bytes::new(alloc);
    let stopped = scan(text, &mut value)?;
    let left = &text[stopped.at..];
    if is_whole(stopped.state) && left.is_empty() {
        Ok(value)
    } else {
        Err(fault_at(stopped.at, lacks_piece(stopped.state, left)))
    }
}

/// The bytes of a text in ZWR form: any pieces of both kinds joined with `_`.
pub fn zwr_read(alloc: Global, text: &[u8]) -> Result<Bytes, ZwrError>
    // Which value, or which fault at which place.
    ensures reading { ReadsZwr (zwr_reading text.now) result }
    // What is read is in the grammar.
    ensures found { IfOk result (λ value. IsZwr text.now value) }
    // What is in the grammar is read to its value.
    ensures only { (value : List ℕ) → IsZwr text.now value → ReadsZwr (Ok value) result }
    // A fault's place is the first at which no text in ZWR form goes on as this one.
    ensures place { length text.now < 4294967296 → IfErr result (TellsPlace text.now) }
    // What was written is read back.
    ensures again { (bytes : List ℕ) → IsBytes bytes → text.now ≡ zwr bytes → ReadsZwr (Ok bytes) result }
{
    read(alloc, text)
}
