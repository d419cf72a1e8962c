// The whole records of a run of bytes, fed one after the other.
ghost use Rattle.std.specs.Prelude.{◌≡◌, ◌+◌, ◌≤◌, length};
ghost use Rattle.refusal.specs.Number.{meaning};
ghost use Rattle.digits.specs.Put.{Put};
ghost use Rattle.lines.specs.Line.{line_of, line_room};
ghost use Rattle.report.specs.Block.{lines_fit, Converted};

use lines::{LINE_ROOM, answer_line};
use record::SIZE;
use refusal::Refusal;
use session::Session;

// What a block came to: the session after it, and how many bytes its lines have; nothing where they do not fit.
#[derive(Clone, Copy)]
pub struct Block {
    pub session: Session,
    pub text: Option<usize>,
}

// Whether a text of this length has the room of a line for each of so many records from number `next` on, and their numbers and the
// one behind them have 64 bits.
pub fn lines_fit(next: u64, count: usize, room: usize) -> bool
    ensures { result ≡ lines_fit next count room }
{
    room / LINE_ROOM >= count && u64::MAX - next >= count as u64
}

// Feeds the whole records of the input to the session, and puts their lines at the front of the text; the first of them has the
// number `next`. Where the lines do not fit, no record is fed. Session, number and bytes come apart, as README has them.
pub fn convert_block(session: Session, next: u64, input: &[u8], text: &mut [u8]) -> Block
    ensures { Converted session next input.now text.old result text.new }
{
    if !lines_fit(next, input.len() / SIZE, text.len()) {
        return Block {
            session,
            text: None,
        };
    }
    let mut output = [0u8; SIZE];
    let mut state = session;
    let mut end = 0;
    for (i, record) in input.chunks_exact(SIZE).enumerate() {
        let fed = state.feed(record, &mut output);
        state = fed.session;
        end = line_at(text, end, next + i as u64, fed.answer);
    }
    Block {
        session: state,
        text: Some(end),
    }
}

// Puts the line of an answer at a place with the room for it, and answers the place behind it. No more than that room is
// lent, so that the line ends within it.
pub(crate) fn line_at(
    text: &mut [u8],
    at: usize,
    number: u64,
    answer: Result<(i32, i32), Refusal>,
) -> usize
    requires { at + line_room ≤ length text.old }
    ensures put { Put text.old at (line_of number (meaning answer)) result text.new }
    ensures upper_bound { result ≤ at + line_room }
{
    let part = &mut text[at..at + LINE_ROOM];
    let count = answer_line(number, answer.map_err(u8::from), part).unwrap();
    at + count
}
