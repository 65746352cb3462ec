//! The global directory of a site: which region takes the global of a name.
//!
//! A pattern is a global's name, or a name and a star, which takes each name that begins so. An exact name wins over every
//! prefix, a longer prefix over a shorter one, and region 0 takes what no pattern takes.
#![tactic(auto)]

mod directory;
mod error;
mod forms;
mod pattern;

pub use directory::Directory;
pub use error::DirError;
pub use forms::patterns_have_forms;
pub use pattern::Pattern;
