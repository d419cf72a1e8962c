// Programs that read standard input and write standard output: one loop, for every job.
#![tactic(auto)]

mod calls;
mod message;
mod turn;

pub use turn::run;
