// What the programs make of what they read: each is a job.
#![tactic(auto)]

ghost use Rattle.std.specs.Prelude.{length};
ghost use Rattle.lines.specs.Buffer.{Placed};
ghost use Rattle.jobs.specs.Job.{ending_of, end_fits, Works};

use by_record::reproject_block;
use lines::put_bytes;
use report::{Block, convert_block, last_lines};
use session::Session;
use whole_input::put_taken;

mod by_record;
mod room;
mod whole_input;

pub use room::{has_room, takes, waiting, worked};

// A closed set, and no trait or closure: `work`, `finish` and `filter::run` take a job as a value of one type, and each `match` on it
// leaves none out.
#[derive(Clone, Copy)]
pub enum Job {
    Convert,
    Reproject,
    Salvage,
}

// Works on the whole records of the input, of which the first has the number `next`, and puts what is to be written of them at the
// front of the text. Where that does not fit, nothing is worked on. Session, number and bytes come apart, as README has them.
#[tactic(auto, using(lines::proofs::Buffers::placed_none), unfolding(crate::specs::Job::session_of, crate::specs::Job::block_of))]
pub fn work(job: Job, session: Session, next: u64, input: &[u8], text: &mut [u8]) -> Block
    ensures { Works job session next input.now text.old result text.new }
{
    match job {
        Job::Convert => convert_block(session, next, input, text),
        Job::Reproject => Block {
            session,
            text: reproject_block(input, text),
        },
        Job::Salvage => Block {
            session,
            text: Some(0),
        },
    }
}

// Puts what is to be written at the end of the input at the front of the text, and answers how many bytes that is; nothing where the
// text is too short.
#[tactic(auto, unfolding(crate::specs::Job::ending_of))]
pub fn finish(job: Job, session: Session, next: u64, rest: &[u8], text: &mut [u8]) -> Option<usize>
    ensures { Placed (end_fits job rest.now (length text.old)) (ending_of job session next rest.now) text.old result text.new }
{
    match job {
        Job::Convert => last_lines(session, next, rest, text),
        Job::Reproject => put_bytes(rest, text),
        Job::Salvage => put_taken(rest, text),
    }
}
