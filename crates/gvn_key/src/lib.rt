//! Keys of globals: names and subscripts in M collation, as text and as bytes.
//!
//! # Modules
//!
//! `key` is a key, `order` its order, and `encoding`, `decode` and `parts` are its bytes. `prefix` tells which bytes begin a key of a known
//! length, by a `place` in the layout of keys. `next` tells keys behind one another, by what was `told` of the one before. `parse`,
//! `subs_text`, `zwr` and `reader` are text.
#![tactic(auto)]

mod bytes;
mod decode;
mod digits;
mod encoding;
mod fronts;
mod integer;
mod key;
mod lengths;
mod name;
mod next;
mod numeral;
mod numeral_front;
mod order;
mod parse;
mod parts;
mod place;
mod places;
mod plain;
mod prefix;
mod reader;
mod subs_text;
pub mod terms;
mod told;
mod words;
mod zwr;

pub use bytes::{Bytes, NoMemory};
pub use decode::value as digits_value;
pub use integer::{integer_of, write_integer};
pub use key::{Key, KeyError, write_sub};
pub use lengths::keys_have_each_length;
pub use next::{first_key, is_key, next_key};
pub use numeral::is_number;
pub use prefix::KeyPrefix;
pub use reader::{ZwrError, zwr_read};
pub use told::Seen;
pub use words::{compare_bytes, half_at, word_at};
pub use zwr::zwr_write;
