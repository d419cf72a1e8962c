// The line of an answer, the closing line of a session, and a line of two words with a number behind each.
ghost use Rattle.std.specs.Prelude.{◌++◌, ◌+◌, ◌≤◌, ◌<◌, leb, length};
ghost use Rattle.digits.specs.Put.{Put};
ghost use Rattle.lines.specs.Decimal.{decimal_of, number_text};
ghost use Rattle.lines.specs.Buffer.{Placed};
ghost use Rattle.lines.specs.Line.{space, line_feed, refused_word, at_word, named, by_number, line_of, closing_of, line_room, closing_room, named_room};

use super::buffer::put_at;
use super::decimal::{put_decimal, put_number};
use session::Session;

// The room for a line: a refusal of 3 digits, a number of 20, and 13 bytes of words, spaces and a line feed. Two numbers of 11 bytes
// want less.
pub const LINE_ROOM: usize = 36;

// The room for the closing line: two counts of 20 digits, and 16 bytes of words, spaces and a line feed.
pub const CLOSING_ROOM: usize = 56;

// The room for two numbers of 20 digits and a line feed.
const NUMBERS_ROOM: usize = 41;

// A word, and the whole number behind it.
#[derive(Clone, Copy)]
struct Named<'a> {
    word: &'a [u8],
    number: u64,
}

impl Named<'_> {
    // Puts both at a place, and answers the place behind them.
    fn put(self, text: &mut [u8], at: usize) -> usize
        requires { at + length self.word.now + length (decimal_of self.number) ≤ length text.old }
        ensures { Put text.old at (named self.entry.word.now self.entry.number) result text.new }
    {
        let gap = put_at(text, at, self.word);
        put_decimal(text, gap, self.number)
    }
}

// Puts the line of the answer to the record of this number at the front of the text, and answers how many bytes it has; nothing where
// the text is too short. A refusal goes by its number, and any number has its line.
#[tactic(auto, using(crate::proofs::Buffers::too_short))]
pub fn answer_line(number: u64, answer: Result<(i32, i32), u8>, text: &mut [u8]) -> Option<usize>
    ensures { Placed (leb line_room (length text.old)) (line_of number (by_number answer)) text.old result text.new }
{
    if text.len() < LINE_ROOM {
        return None;
    }
    Some(put_line(text, number, answer))
}

// Puts the closing line of a session there likewise.
#[tactic(auto, using(crate::proofs::Buffers::too_short))]
pub fn closing_line(session: Session, text: &mut [u8]) -> Option<usize>
    ensures { Placed (leb closing_room (length text.old)) (closing_of session) text.old result text.new }
{
    if text.len() < CLOSING_ROOM {
        return None;
    }
    Some(put_closing(text, session))
}

// Puts the line of two words, each with a whole number behind it, there likewise. Words and numbers come apart here, as README has them.
#[tactic(auto, using(crate::proofs::Buffers::too_short, crate::proofs::Decimals::decimal_le_64))]
pub fn named_line(first: &[u8], m: u64, second: &[u8], n: u64, text: &mut [u8]) -> Option<usize>
    ensures { Placed (leb (named_room (length first.now) (length second.now)) (length text.old)) (named first.now m ++ (named second.now n ++ line_feed)) text.old result text.new }
{
    // the lengths are taken off one by one: their sum may not have 64 bits
    let words = text.len().checked_sub(NUMBERS_ROOM)?;
    words.checked_sub(first.len())?.checked_sub(second.len())?;
    let first = Named {
        word: first,
        number: m,
    };
    let second = Named {
        word: second,
        number: n,
    };
    Some(put_both(text, first, second))
}

// Puts the line of an answer at the front of a text with the room for it, and answers the place behind it. Each that puts a line asks for
// the room: a part of that length would leave each caller to say what the text behind it holds.
#[tactic(auto, unfolding(crate::specs::Line::line_of))]
fn put_line(text: &mut [u8], number: u64, answer: Result<(i32, i32), u8>) -> usize
    requires { line_room ≤ length text.old }
    ensures { Put text.old 0 (line_of number (by_number answer)) result text.new }
{
    match answer {
        Ok((x, y)) => put_pair(text, x, y),
        Err(refusal) => put_refused(text, refusal, number),
    }
}

// Puts the line of two coordinates likewise.
fn put_pair(text: &mut [u8], x: i32, y: i32) -> usize
    requires { line_room ≤ length text.old }
    ensures { Put text.old 0 (number_text x ++ (space ++ (number_text y ++ line_feed))) result text.new }
{
    let gap = put_number(text, 0, x);
    let second = put_at(text, gap, b" ");
    let end = put_number(text, second, y);
    put_at(text, end, b"\n")
}

// Puts the line of a refusal and the number of its record likewise.
#[tactic(auto, using(crate::proofs::Decimals::decimal_le_8, crate::proofs::Decimals::decimal_le_64))]
fn put_refused(text: &mut [u8], refusal: u8, number: u64) -> usize
    requires { line_room ≤ length text.old }
    ensures { Put text.old 0 (named refused_word refusal ++ (named at_word number ++ line_feed)) result text.new }
{
    let refused = Named {
        word: b"refused ",
        number: u64::from(refusal),
    };
    let at = Named {
        word: b" at ",
        number,
    };
    put_both(text, refused, at)
}

// Puts the closing line likewise.
#[tactic(auto, using(crate::proofs::Decimals::decimal_le_64), unfolding(crate::specs::Line::closing_of))]
fn put_closing(text: &mut [u8], session: Session) -> usize
    requires { closing_room ≤ length text.old }
    ensures { Put text.old 0 (closing_of session) result text.new }
{
    let moved = Named {
        word: b"moved ",
        number: session.moved,
    };
    let refused = Named {
        word: b" refused ",
        number: session.refused,
    };
    put_both(text, moved, refused)
}

// Puts the line of two words with their numbers likewise.
fn put_both(text: &mut [u8], first: Named, second: Named) -> usize
    requires { length first.word.now + length (decimal_of first.number) + length second.word.now + length (decimal_of second.number) < length text.old }
    ensures { Put text.old 0 (named first.entry.word.now first.entry.number ++ (named second.entry.word.now second.entry.number ++ line_feed)) result text.new }
{
    let gap = first.put(text, 0);
    let end = second.put(text, gap);
    put_at(text, end, b"\n")
}
