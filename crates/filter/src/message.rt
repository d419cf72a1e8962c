// What is said on standard error.
ghost use Rattle.std.specs.Prelude.{true, ◌≡◌, length};
ghost use Rattle.std.specs.Io.{StartsWith};
ghost use Rattle.messages.specs.Message.{message_fits};

use super::calls::write_whole;
use jobs::Job;
use messages::{has_error, message};
use std::io::{Cursor, Write};
use std::{io, str};
use stream::Phase;

// The room for the text of an error and what std puts behind it.
const ERROR_ROOM: usize = 128;

// Says why a run stopped, or at its end what there is to say of the bytes that waited, which a run's text always has room for. The text
// of the error, by its number, stands behind it. Where nothing can be said, there is nothing left to do.
#[tactic(auto, using(lines::proofs::Buffers::counted_le, crate::proofs::Said::said_there))]
pub(crate) fn say<E: Write>(
    job: Job,
    phase: Phase,
    error: Option<i32>,
    rest: &[u8],
    text: &mut [u8],
    errors: &mut E,
)
    requires { message_fits job phase rest.now (length text.old) ≡ true }
{
    let count = message(job, phase, rest, text).unwrap();
    let _ = write_whole(errors, &text[..count]);
    if let Some(number) = error
        && has_error(phase)
    {
        say_error(number, errors);
    }
}

// Says a colon and the system's text of an error, and ends the line.
fn say_error<E: Write>(number: i32, errors: &mut E) {
    let mut text = Cursor::new([0; ERROR_ROOM]);
    let _ = write!(text, "{}", io::Error::from_raw_os_error(number));
    let text = text.into_inner();
    let said = str::from_utf8(&text).map_or("", without_number);
    let _ = write_whole(errors, b": ");
    let _ = write_whole(errors, said.as_bytes());
    let _ = write_whole(errors, b"\n");
}

// A text without " (os error N)", which stands at its end.
fn without_number(text: &str) -> &str
    ensures { StartsWith text.now result.now }
{
    text.rsplit_once(" (").map_or(text, |(said, _)| said)
}
