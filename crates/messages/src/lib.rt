// What a program says on standard error where its run stops.
#![tactic(auto)]

ghost use Rattle.std.specs.Prelude.{◌≡◌, true, ◌++◌, ◌+◌, ◌≤◌, length};
ghost use Rattle.lines.specs.Buffer.{Placed};
ghost use Rattle.messages.specs.Message.{name_of, name_room, message_of, message_fits, ended_of, ended_fits, has_error};

use jobs::Job;
use lines::put_bytes;
use listing::listing;
use stream::Phase;

// The room for a message but at the end.
pub const MESSAGE_ROOM: usize = 64;

// Puts what is to be said where a run stops in a phase, with the bytes that waited then, at the front of the text, and answers how many
// bytes that is; nothing where it does not fit.
#[tactic(auto, using(lines::proofs::Buffers::too_short), unfolding(crate::specs::Message::message_of))]
pub fn message(job: Job, phase: Phase, rest: &[u8], text: &mut [u8]) -> Option<usize>
    ensures { Placed (message_fits job phase rest.now (length text.old)) (message_of job phase rest.now) text.old result text.new }
{
    if text.len() < MESSAGE_ROOM {
        return None;
    }
    // phases are a closed set, and no closures: this leaves none out
    match phase {
        Phase::Reading => named(job, b"standard input: too many reads\n", text),
        Phase::Ended => at_end(job, rest, text),
        Phase::NotStarted => named(job, b"takes no arguments, and reads standard input\n", text),
        Phase::NotRead => named(job, b"standard input", text),
        Phase::NotWritten => named(job, b"standard output", text),
        Phase::TooLong => named(job, b"standard input: more than 65536 bytes\n", text),
    }
}

// The same at the end.
#[tactic(auto, using(lines::proofs::Buffers::placed_none), unfolding(crate::specs::Message::ended_of))]
fn at_end(job: Job, rest: &[u8], text: &mut [u8]) -> Option<usize>
    ensures { Placed (ended_fits job rest.now (length text.old)) (ended_of job rest.now) text.old result text.new }
{
    match job {
        Job::Convert | Job::Reproject => Some(0),
        Job::Salvage => listing(rest, text),
    }
}

// Whether the text of a call's error comes behind the message.
pub fn has_error(phase: Phase) -> bool
    ensures { result ≡ has_error phase }
{
    matches!(phase, Phase::NotRead | Phase::NotWritten)
}

// Puts the name that a job goes by, and words behind it, at the front of a text with the room for both.
fn named(job: Job, words: &[u8], text: &mut [u8]) -> Option<usize>
    requires { name_room + length words.now ≤ length text.old }
    ensures { Placed true (name_of job ++ words.now) text.old result text.new }
{
    let name = put_bytes(name(job), text).unwrap();
    Some(name + put_bytes(words, &mut text[name..]).unwrap())
}

// The name that a job goes by.
#[tactic(auto, unfolding(crate::specs::Message::name_of))]
fn name(job: Job) -> &'static [u8]
    ensures value { result.now ≡ name_of job }
    ensures short { length result.now ≤ name_room }
{
    match job {
        Job::Convert => b"convert: ",
        Job::Reproject => b"reproject: ",
        Job::Salvage => b"salvage: ",
    }
}
