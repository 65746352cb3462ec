//! A section at a primary: the jobs of its updaters, decided one after another.
//!
//! Each job is decided in three steps. It is evaluated on the site's globals, and where it has updates it becomes the site's next entry;
//! what was entered is hardened; and the reply is released, which an entry's reply may be once the entry is hardened.
#![tactic(auto)]

mod deciding;
mod decision;
mod entering;
mod error;
mod fitting;
mod reign;
mod replying;
mod running;
mod settling;
mod sink;
mod source;

pub use decision::Decision;
pub use error::DecideError;
pub use reign::Reign;
pub use running::RunError;
pub use sink::ReplySink;
pub use source::JobSource;
