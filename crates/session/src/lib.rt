// The session: a small state that each call takes by value and hands back, and that a note hands over.
#![tactic(auto)]

ghost use Rattle.std.specs.Prelude.{◌≡◌, ◌+◌, ◌<◌, length};
ghost use Rattle.refusal.specs.Number.{meaning};
ghost use Rattle.note.specs.Note.{cap};
ghost use Rattle.record.specs.Answer.{output_after};
ghost use Rattle.session.specs.Session.{opened, is_full, feed_of, session_after, Counts};

use note::CAP;
use record::{both_of_size, convert_record};
use refusal::Refusal;

mod handover;

// Two counts, both 0 when opened: records that were converted, and records that were refused by other than 8 and 11.
#[derive(Clone, Copy)]
pub struct Session {
    pub moved: u64,
    pub refused: u64,
}

// The session after a call, and what the call is answered.
#[derive(Clone, Copy)]
pub struct Answered<T> {
    pub session: Session,
    pub answer: Result<T, Refusal>,
}

pub type Fed = Answered<(i32, i32)>;

pub type Restored = Answered<()>;

impl Session {
    pub fn open() -> Session
        ensures { result ≡ opened }
    {
        Session {
            moved: 0,
            refused: 0,
        }
    }

    // Converts the record in `input` into `output` and counts it, or answers the first refusal that applies and leaves
    // `output` as it is.
    pub fn feed(self, input: &[u8], output: &mut [u8]) -> Fed
        ensures answer_value { meaning result.answer ≡ feed_of self input.now (length output.old) }
        ensures session_value { result.session ≡ session_after self (feed_of self input.now (length output.old)) }
        ensures output_after { output.new ≡ output_after input.now output.old (feed_of self input.now (length output.old)) }
    {
        let answer = self.converted(input, output);
        Fed {
            session: self.after(answer),
            answer,
        }
    }

    // The answer alone: what is counted finds the session with room.
    #[tactic(auto, unfolding(crate::specs::Session::feed_of, record::specs::Answer::convert_of, record::specs::Answer::output_after, refusal::specs::Outcome::unless))]
    fn converted(self, input: &[u8], output: &mut [u8]) -> Result<(i32, i32), Refusal>
        ensures answer_value { meaning result ≡ feed_of self input.now (length output.old) }
        ensures has_room { Counts (meaning result) → (self.moved + self.refused < cap) }
        ensures output_after { output.new ≡ output_after input.now output.old (feed_of self input.now (length output.old)) }
    {
        if !both_of_size(input.len(), output.len()) {
            return Err(Refusal::Length);
        }
        if self.is_full() {
            return Err(Refusal::Full);
        }
        convert_record(input, output)
    }

    // Full from the cap up.
    fn is_full(self) -> bool
        ensures { result ≡ is_full self }
    {
        CAP <= self.moved.saturating_add(self.refused)
    }

    // The session with one answer more.
    #[tactic(auto, unfolding(crate::specs::Session::session_after))]
    fn after(mut self, answer: Result<(i32, i32), Refusal>) -> Session
        requires { Counts (meaning answer) → (self.moved + self.refused < cap) }
        ensures { result ≡ session_after self (meaning answer) }
    {
        match answer {
            Ok(_) => self.moved += 1,
            Err(Refusal::Length | Refusal::Full) => {}
            Err(_) => self.refused += 1,
        }
        self
    }
}
