// A line of the input, read a byte at a time: a letter, then numbers with spaces between them, or a space and a text, or
// a space and a note's digits. Reads cut a line anywhere, and it may be of any length.
use crate::letter::Letter;
use crate::note_digits::NoteDigits;
use crate::numbers::Numbers;
use crate::request::Request;
use crate::text::Text;
use crate::unreadable::Unreadable;

#[derive(Default, Drop)]
pub(crate) enum Line {
    // No byte yet.
    #[default]
    Empty,
    // A letter alone.
    Letter(Letter),
    Numbers(Numbers),
    Text(Text),
    Note(NoteDigits),
    // What no byte more makes a request of.
    Unreadable,
}

impl Line {
    // Adds a byte.
    pub(crate) fn push(&mut self, byte: u8) {
        if self.try_push(byte).is_err() {
            *self = Line::Unreadable;
        }
    }

    fn try_push(&mut self, byte: u8) -> Result<(), Unreadable> {
        match self {
            Line::Empty => *self = Line::Letter(Letter::try_from(byte)?),
            Line::Letter(letter) => *self = Line::behind(*letter, byte)?,
            Line::Numbers(numbers) => numbers.push(byte)?,
            Line::Text(text) => text.push(byte),
            Line::Note(note) => note.push(byte)?,
            Line::Unreadable => {}
        }
        Ok(())
    }

    // The line of a letter and the byte behind it, which is a space before a text or a note.
    fn behind(letter: Letter, byte: u8) -> Result<Line, Unreadable> {
        match (letter, byte) {
            (Letter::ReadText, b' ') => Ok(Line::Text(Text::new())),
            (Letter::RestoreNote, b' ') => Ok(Line::Note(NoteDigits::new())),
            (Letter::ReadText | Letter::RestoreNote, _) => Err(Unreadable),
            _ => {
                let mut numbers = Numbers::new(letter);
                numbers.push(byte)?;
                Ok(Line::Numbers(numbers))
            }
        }
    }

    // What the line, which has ended, asks for.
    pub(crate) fn request(self) -> Result<Request, Unreadable> {
        match self {
            Line::Numbers(numbers) => numbers.request(),
            Line::Text(text) => Ok(Request::ReadText(text)),
            Line::Note(note) => Ok(Request::RestoreNote(note.ended()?)),
            Line::Empty | Line::Letter(_) | Line::Unreadable => Err(Unreadable),
        }
    }
}
