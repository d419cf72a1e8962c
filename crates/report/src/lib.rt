// The lines of a run of records, and what is printed at the end of a stream of them.
#![tactic(auto)]

mod block;
mod ending;

pub use block::{Block, convert_block, lines_fit};
pub use ending::last_lines;
