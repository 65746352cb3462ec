//! Frames on a connection: written whole, and read in whatever pieces they come.
#![tactic(auto)]

mod bodies;
mod field;
mod frame;
mod frames;
mod front;
mod items;
mod laws;
mod measuring;
mod reading;
mod run;
mod scan;
mod whole;
mod writing;

pub use frame::{Frame, FrameError, FrameList};
pub use frames::Frames;
pub use laws::{frames_apart_hold, one_reading};
pub use measuring::frame_length;
pub use writing::{entry_head, write_entry, write_entry_frame, write_frame};
