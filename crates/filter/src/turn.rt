// The loop: here bytes are only moved.
ghost use Rattle.std.specs.Prelude.{◌≡◌, ◌+◌, ◌≤◌, length};
ghost use Rattle.std.specs.Result.{result_and, result_err};
ghost use Rattle.stream.specs.Step.{standing};
ghost use Rattle.report.specs.Block.{most_number};
ghost use Rattle.filter.specs.Turns.{records, held_most, TurnsBy, Reached};
ghost use Rattle.filter.specs.Moves.{TurnMoves, Passes};

use super::calls::{argument_count, read_once, write_whole};
use super::message::say;
use jobs::Job;
use lines::LINE_ROOM;
use record::SIZE;
use session::Session;
use std::io::{Read, Write};
use stream::{Got, Phase, State, after_read, after_write, phase_at_start};
use torn::MOST;

// The records of a read, and their bytes.
const RECORDS: usize = 4096;

const READ: usize = SIZE * RECORDS;

const BUFFER: usize = MOST + READ;

const TEXT: usize = LINE_ROOM * RECORDS;

// Room for the bytes of a read behind those held over, which may be a torn file, and for the lines of both: with the bytes held over a
// read has no more whole records.
#[derive(Drop)]
struct Room {
    buffer: [u8; BUFFER],
    text: [u8; TEXT],
}

// The state after a turn, and what its read and its write answered.
#[derive(Clone, Copy)]
pub struct Turned {
    pub state: State,
    pub came: Result<usize, i32>,
    pub sent: Result<(), i32>,
}

impl Turned {
    // The number of the error of the read, or of the write where the read did not fail.
    fn error(self) -> Option<i32>
        ensures { result ≡ result_err (result_and self.came self.sent) }
    {
        self.came.and(self.sent).err()
    }
}

// Where a run stopped, and the number of the error of its last turn.
#[derive(Clone, Copy)]
struct Stopped {
    state: State,
    error: Option<i32>,
}

// Runs a job from standard input to standard output. Where it does not come to the end, it says why on standard error; where it does,
// what the job has to say of it.
pub fn run(rt: &HostRuntime, job: Job) {
    let room = &mut Room {
        buffer: [0; BUFFER],
        text: [0; TEXT],
    };
    let arguments = argument_count(rt);
    let stopped = turns(job, arguments, room, &mut rt.stdin(), &mut rt.stdout());
    say(
        job,
        stopped.state.phase,
        stopped.error,
        &room.buffer[..stopped.state.held],
        &mut room.text,
        &mut rt.stderr(),
    );
}

// The turns of a run, which none uses up: at a million reads a second they last for 142 years. The numbers of all records that they
// can read, and the one behind them, have 64 bits.
const TURNS: u64 = (u64::MAX - 1) / RECORDS as u64;

// Takes turns until the run stops. A proved loop has to end, and nothing says that the input does: turns are counted.
fn turns<I: Read, O: Write>(
    job: Job,
    arguments: usize,
    room: &mut Room,
    input: &mut I,
    output: &mut O,
) -> Stopped
    ensures reached { Reached job arguments (standing result.state room.new.buffer) 0 }
    ensures held_in_bounds { result.state.held ≤ BUFFER }
    ensures passes { Passes job arguments (standing result.state room.new.buffer) (I.remaining input.old) (I.remaining input.new) (O.contents output.old) (O.contents output.new) }
{
    let mut state = State {
        session: Session::open(),
        next: 1,
        held: 0,
        phase: phase_at_start(arguments),
    };
    let mut error = None;
    for _ in 0..TURNS {
        if state.phase != Phase::Reading {
            break;
        }
        let turned = turn(job, state, room, input, output);
        state = turned.state;
        error = turned.error();
    }
    Stopped { state, error }
}

// Reads once, and writes what is to be written after that.
#[tactic(auto, using(crate::proofs::Turns::offered_there, crate::proofs::Turns::offered_long))]
fn turn<I: Read, O: Write>(
    job: Job,
    state: State,
    room: &mut Room,
    input: &mut I,
    output: &mut O,
) -> Turned
    requires { (state.held ≤ held_most job) × (state.next + records ≤ most_number) }
    ensures held_in_bounds { result.state.held ≤ BUFFER }
    ensures turns { TurnsBy job state room.old.buffer result room.new.buffer }
    ensures moves { TurnMoves job state room.old.buffer result room.new.buffer (I.remaining input.old) (I.remaining input.new) (O.contents output.old) (O.contents output.new) }
{
    let came = read_once(input, &mut room.buffer[state.held..state.held + READ]);
    let step = after_read(
        job,
        state,
        Got::from(came),
        &mut room.buffer,
        &mut room.text,
    );
    let sent = write_whole(output, &room.text[..step.offered]);
    Turned {
        state: after_write(step.state, sent.is_ok()),
        came,
        sent,
    }
}
