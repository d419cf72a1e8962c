// How much a job works on, takes and wants, by the bytes that it has.
ghost use Rattle.std.specs.Prelude.{◌≡◌};
ghost use Rattle.jobs.specs.Job.{worked_in, waiting_in, takes_in, lines_room, room_for};

use super::Job;
use lines::{CLOSING_ROOM, LINE_ROOM};
use record::SIZE;
use report::lines_fit;
use torn::MOST;

// How many records of so many bytes are worked on.
pub fn worked(job: Job, count: usize) -> usize
    ensures { result ≡ worked_in job count }
{
    match job {
        Job::Convert | Job::Reproject => count / SIZE,
        Job::Salvage => 0,
    }
}

// How many of so many bytes wait for those that come behind.
pub fn waiting(job: Job, count: usize) -> usize
    ensures { result ≡ waiting_in job count }
{
    match job {
        Job::Convert | Job::Reproject => count % SIZE,
        Job::Salvage => count,
    }
}

// Whether a job takes so many bytes.
pub fn takes(job: Job, count: usize) -> bool
    ensures { result ≡ takes_in job count }
{
    match job {
        Job::Convert | Job::Reproject => true,
        Job::Salvage => count <= MOST,
    }
}

// Whether a text of this length has the room for what a job writes of so many bytes, where the first record among them has the number
// `next`.
pub fn has_room(job: Job, next: u64, count: usize, text: usize) -> bool
    ensures { result ≡ room_for job next count text }
{
    match job {
        Job::Convert | Job::Reproject => lines_room(next, count, text),
        Job::Salvage => count <= text,
    }
}

// The same for jobs that go by the record: a line of each, and the last lines.
fn lines_room(next: u64, count: usize, text: usize) -> bool
    ensures { result ≡ lines_room next count text }
{
    lines_fit(next, count / SIZE, text) && text >= LINE_ROOM + CLOSING_ROOM
}
