// Where a run stands, and what a read came to.
ghost use Rattle.std.specs.Prelude.{◌≡◌};
ghost use Rattle.stream.specs.Run.{phase_at_start};
ghost use Rattle.stream.specs.Step.{bytes_of, came_to, got_of};

use session::Session;

// Only `Ended` says that all was read and written.
#[derive(Clone, Copy, Debug, PartialEq, Eq)]
pub enum Phase {
    Reading,
    Ended,
    NotStarted,
    NotRead,
    NotWritten,
    TooLong,
}

// The session, the number of the next record, how many bytes are held over at the front of the buffer, and the phase. The buffer is
// lent, since no memory is taken here.
#[derive(Clone, Copy)]
pub struct State {
    pub session: Session,
    pub next: u64,
    pub held: usize,
    pub phase: Phase,
}

// What a read came to. It is no `Result` of a count, since `after_read` takes any: `Bytes(0)` is not `End`.
#[derive(Clone, Copy)]
pub enum Got {
    Bytes(usize),
    End,
    Interrupted,
    Failed,
}

impl Got {
    // How many bytes came.
    pub(crate) fn count(self) -> usize
        ensures { result ≡ bytes_of self }
    {
        match self {
            Got::Bytes(n) => n,
            Got::End | Got::Interrupted | Got::Failed => 0,
        }
    }
}

// The number of the error of a call that a signal interrupted.
const EINTR: i32 = 4;

// By how many bytes came, or the number of the error.
impl From<Result<usize, i32>> for Got {
    ghost from_gives = { λ came got. got ≡ came_to came };

    fn from(came: Result<usize, i32>) -> Got {
        match came {
            Ok(0) => Got::End,
            Ok(n) => Got::Bytes(n),
            Err(EINTR) => Got::Interrupted,
            Err(_) => Got::Failed,
        }
    }
}

// The phase that a run begins in, by how many arguments the program has, its own name counted with them.
pub fn phase_at_start(arguments: usize) -> Phase
    ensures { result ≡ phase_at_start arguments }
{
    if arguments > 1 {
        Phase::NotStarted
    } else {
        Phase::Reading
    }
}

// What a read came to, by its answer and the error's number, as README and `Printing` of claims name it.
pub fn got_of(answer: isize, error: i32) -> Got
    ensures { result ≡ got_of answer error }
{
    Got::from(usize::try_from(answer).map_err(|_| error))
}
