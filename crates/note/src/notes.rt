// Notes written and read.
ghost use Rattle.std.specs.Prelude.{◌≡◌, length};
ghost use Rattle.refusal.specs.Outcome.{or_else};
ghost use Rattle.refusal.specs.Number.{meaning, done};
ghost use Rattle.note.specs.Answer.{write_of, read_of};

use super::form::Form;
use refusal::Refusal;

// Writes a note of two counts; or answers the first refusal of 8 and 16, and leaves `note` as it is.
pub fn write_note(moved: u64, refused: u64, note: &mut [u8]) -> Result<(), Refusal>
    ensures value { meaning result ≡ done (write_of (moved, refused) (length note.old)) }
    ensures note_after { note.new ≡ or_else note.old (write_of (moved, refused) (length note.old)) }
{
    Form::narrow().write((moved, refused), note)
}

// The counts in a note; or the first refusal of 8, 9 and 16.
pub fn read_note(note: &[u8]) -> Result<(u64, u64), Refusal>
    ensures { meaning result ≡ read_of note.now }
{
    Form::narrow().read(note)
}
