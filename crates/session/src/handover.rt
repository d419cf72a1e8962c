// A session handed over: saved as a note, and restored from one.
ghost use Rattle.std.specs.Prelude.{◌≡◌, length};
ghost use Rattle.refusal.specs.Outcome.{or_else};
ghost use Rattle.refusal.specs.Number.{meaning, done};
ghost use Rattle.session.specs.Handover.{save_of, restore_of};

use super::{Restored, Session};
use note::{read_note, write_note};
use refusal::Refusal;

impl Session {
    // Saves the counts as a note; or answers the first refusal of 8 and 16, and leaves `note` as it is.
    pub fn save(self, note: &mut [u8]) -> Result<(), Refusal>
        ensures value { meaning result ≡ done (save_of self (length note.old)) }
        ensures note_after { note.new ≡ or_else note.old (save_of self (length note.old)) }
    {
        write_note(self.moved, self.refused, note)
    }

    // The session that a note says; or the session as it is, with the first refusal of 8, 9 and 16.
    pub fn restore(self, note: &[u8]) -> Restored
        ensures answer_value { meaning result.answer ≡ done (restore_of note.now) }
        ensures session_value { result.session ≡ or_else self (restore_of note.now) }
    {
        match read_note(note) {
            Ok((moved, refused)) => Restored {
                session: Session { moved, refused },
                answer: Ok(()),
            },
            Err(refusal) => Restored {
                session: self,
                answer: Err(refusal),
            },
        }
    }
}
