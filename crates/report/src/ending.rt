// What is printed at the end.
ghost use Rattle.std.specs.Prelude.{leb, length};
ghost use Rattle.lines.specs.Buffer.{Placed};
ghost use Rattle.report.specs.Program.{end_room, end_of};

use super::block::line_at;
use lines::{CLOSING_ROOM, LINE_ROOM, closing_line};
use record::SIZE;
use session::Session;

// Puts the last lines at the front of the text: the line of a tail that is not empty, which has the number `next`, and the closing
// line. Answers how many bytes they have; nothing where the text is too short.
pub fn last_lines(session: Session, next: u64, tail: &[u8], text: &mut [u8]) -> Option<usize>
    ensures { Placed (leb end_room (length text.old)) (end_of session next tail.now) text.old result text.new }
{
    if text.len() < LINE_ROOM + CLOSING_ROOM {
        return None;
    }
    if tail.is_empty() {
        return closing_line(session, text);
    }
    let mut output = [0u8; SIZE];
    let fed = session.feed(tail, &mut output);
    let line = line_at(text, 0, next, fed.answer);
    let closing = closing_line(fed.session, &mut text[line..]).unwrap();
    Some(line + closing)
}
