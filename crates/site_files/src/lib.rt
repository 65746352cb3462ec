//! The files of a site: its instance file, and a journal for each generation of each of its regions.
//!
//! Opening a site begins here: its files are synced and read, which leaves an index of the entries and the signs and places of the
//! records that are kept. Then the next generation is drawn and begun in each region, with the text of what was broken beside it.
//! Whatever a crash leaves of that, the files stand for the same sequence.
#![tactic(auto)]

mod cuts;
mod drawing;
mod error;
mod finding;
mod laws;
mod mapping;
mod past;
mod reading;
mod remembering;
mod texts;

pub use cuts::cut_off;
pub use drawing::{Drawn, draw, draw_next};
pub use error::FilesError;
pub use finding::{in_instance, read_instance, sync_instance};
pub use laws::{
    cutting_off_leaves_a_site, drawing_keeps_the_sequence, images_have_what_was_read,
    lost_files_are_free, reading_gives_the_records,
};
pub use mapping::directory_of;
pub use reading::{ReadEntries, ReadSite, read_records, read_site, see_ahead};
pub use remembering::{Remembered, remember_all};
pub use texts::write_lost;
