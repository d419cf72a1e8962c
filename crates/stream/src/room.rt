// Whether a buffer and a text have the room for what a read came to.
ghost use Rattle.std.specs.Prelude.{◌≡◌};
ghost use Rattle.stream.specs.Step.{with_room};
ghost use Rattle.stream.specs.Inside.{Ready};

use super::state::{Got, State};
use jobs::{Job, has_room};

// What a read came to, by the lengths of the buffer and of the text: where it does not fit them, a read that failed.
pub(crate) fn with_room(job: Job, got: Got, state: State, buffer: usize, text: usize) -> Got
    ensures value { result ≡ with_room job got state buffer text }
    ensures ready { Ready job result state buffer text }
{
    match state.held.checked_add(got.count()) {
        Some(total) if total <= buffer && has_room(job, state.next, total, text) => got,
        _ => Got::Failed,
    }
}
