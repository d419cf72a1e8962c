// What a program makes of a stream of bytes that it reads in pieces: where it stands after each read and each write.
#![tactic(auto)]

mod front;
mod room;
mod state;
mod step;

pub use state::{Got, Phase, State, got_of, phase_at_start};
pub use step::{Step, after_read, after_write};
