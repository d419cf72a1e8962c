// What a line asks for, by its letter.
use crate::unreadable::Unreadable;

#[derive(Clone, Copy)]
pub(crate) enum Letter {
    Width,
    Forward,
    Inverse,
    ForwardDegrees,
    InverseDegrees,
    ReadText,
    WriteText,
    SaveNote,
    RestoreNote,
}

impl TryFrom<u8> for Letter {
    type Error = Unreadable;

    fn try_from(byte: u8) -> Result<Letter, Unreadable> {
        match byte {
            b'w' => Ok(Letter::Width),
            b'f' => Ok(Letter::Forward),
            b'i' => Ok(Letter::Inverse),
            b'F' => Ok(Letter::ForwardDegrees),
            b'I' => Ok(Letter::InverseDegrees),
            b'p' => Ok(Letter::ReadText),
            b't' => Ok(Letter::WriteText),
            b's' => Ok(Letter::SaveNote),
            b'r' => Ok(Letter::RestoreNote),
            _ => Err(Unreadable),
        }
    }
}
