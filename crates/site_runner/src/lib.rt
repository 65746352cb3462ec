//! Does all that the program does: reads a script, runs its commands on sites over disks, and writes their answers.
#![tactic(auto)]

mod answering;
mod attach;
mod cause;
mod create;
mod ending;
mod epoch;
mod execute;
mod extracting;
mod finding;
mod fusing;
mod looking;
mod mapping;
mod marking;
mod moving;
mod printing;
mod recovering;
mod refusing;
mod rolling;
mod section;
mod setting;
mod showing;
mod slot;
mod start;
mod status;
mod stop;
mod text;
mod top;
mod write;
mod zwriting;

pub use status::Status;
pub use top::run;
