// Text: bytes as they are, the line of an answer, the closing line of a session, and a line of two words with a number behind each.
#![tactic(auto)]

mod buffer;
mod decimal;
mod line;

pub use buffer::put_bytes;
pub use line::{CLOSING_ROOM, LINE_ROOM, answer_line, closing_line, named_line};
