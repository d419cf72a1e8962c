// What follows a read and what follows a write: functions of the state and the buffers alone.
ghost use Rattle.std.specs.Prelude.{◌≡◌, true, length};
ghost use Rattle.jobs.specs.Job.{room_for};
ghost use Rattle.stream.specs.Run.{phase_with};
ghost use Rattle.stream.specs.Step.{Follows, write_after};
ghost use Rattle.stream.specs.Inside.{TakesIn};

use super::front::move_to_front;
use super::room::with_room;
use super::state::{Got, Phase, State};
use jobs::{Job, finish, takes, waiting, work, worked};

// The state after a read, and how many bytes of the text are to be written.
#[derive(Clone, Copy)]
pub struct Step {
    pub state: State,
    pub offered: usize,
}

// What follows a read whose bytes stand in the buffer behind those held over. Where they do not fit the buffer and the text, it counts
// as a read that failed.
pub fn after_read(job: Job, state: State, got: Got, buffer: &mut [u8], text: &mut [u8]) -> Step
    ensures { Follows job state got buffer.old text.old result buffer.new text.new }
{
    match with_room(job, got, state, buffer.len(), text.len()) {
        Got::Bytes(n) => take_in(job, state, &mut buffer[..state.held + n], text),
        Got::End => {
            let rest = &buffer[..state.held];
            let lines = finish(job, state.session, state.next, rest, text);
            Step {
                state: State {
                    phase: Phase::Ended,
                    ..state
                },
                offered: lines.unwrap(),
            }
        }
        Got::Interrupted => Step { state, offered: 0 },
        Got::Failed => Step {
            state: State {
                phase: Phase::NotRead,
                ..state
            },
            offered: 0,
        },
    }
}

// Works on the bytes, and brings those that wait to their front.
fn take_in(job: Job, state: State, bytes: &mut [u8], text: &mut [u8]) -> Step
    requires { room_for job state.next (length bytes.old) (length text.old) ≡ true }
    ensures { TakesIn job state bytes.old text.old result bytes.new text.new }
{
    let block = work(job, state.session, state.next, bytes, text);
    let count = bytes.len();
    let held = waiting(job, count);
    move_to_front(bytes, count - held);
    Step {
        state: State {
            session: block.session,
            next: state.next + worked(job, count) as u64,
            held,
            phase: phase_with(job, count),
        },
        offered: block.text.unwrap(),
    }
}

// The phase after a read, with this many bytes: a job that does not take so many stops.
fn phase_with(job: Job, count: usize) -> Phase
    ensures { result ≡ phase_with job count }
{
    if takes(job, count) {
        Phase::Reading
    } else {
        Phase::TooLong
    }
}

// What follows a write, by whether all was written.
pub fn after_write(state: State, written: bool) -> State
    ensures { result ≡ write_after written state }
{
    if written {
        state
    } else {
        State {
            phase: Phase::NotWritten,
            ..state
        }
    }
}
