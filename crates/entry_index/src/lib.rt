//! The journals of an open site, looked through once, and where its entries stand in them, each read again from there by its number.
//!
//! A record's sign is what it says, but for its values and images. It is told from the record's body in one pass and without memory; the
//! record itself is read again from its place by who needs it. The journals of all regions are read side by side, a piece at a time and
//! entry by entry: the parts of an entry leave their places in an index, 16 bytes for each entry and region, and of the other records
//! those signs are kept that tell images, epochs and generations.
//!
//! Where the numbers of a region's parts don't rise, as no site writes them, the signs of all records are taken, region by region, and
//! the index is built from these.
//!
//! # Modules
//!
//! `side_by_side` looks through all regions with a `cursor` for each: a `reader` of its journals by `pieces`, and the signs that are
//! `kept`. `generations` takes all signs of one region, and `telling` tells a sign out of a body. `placed_record` reads a record by its
//! place. `building` builds an index from signs by number and region (`table`), and `completing` says which entries are complete.
#![tactic(auto)]

mod building;
mod completing;
mod cursor;
mod error;
mod generations;
mod index;
mod items;
mod kept;
mod kinds;
pub mod laws;
mod parts;
mod pieces;
mod place;
mod placed;
mod placed_record;
mod reader;
mod reading;
mod side_by_side;
mod sign;
mod signed_part;
mod table;
mod telling;
mod updates;

pub use error::IndexError;
pub use generations::{RegionSigns, index_generations};
pub use index::EntryIndex;
pub use place::{NOWHERE, PartPlace};
pub use placed::PlacedSign;
pub use placed_record::read_placed;
pub use side_by_side::{FoundJournals, look_side_by_side};
pub use sign::{Sign, Span};
pub use telling::read_sign;
