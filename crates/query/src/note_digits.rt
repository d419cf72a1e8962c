// The note of a line, read a digit at a time: two hexadecimal digits to a byte, the higher one first.
use crate::text::Text;
use crate::unreadable::Unreadable;

#[derive(Drop)]
pub(crate) struct NoteDigits {
    bytes: Text,
    // The first digit of the byte that is being read.
    high: Option<u8>,
}

impl NoteDigits {
    // The note before its first digit.
    pub(crate) fn new() -> NoteDigits {
        NoteDigits {
            bytes: Text::new(),
            high: None,
        }
    }

    // Adds a digit.
    pub(crate) fn push(&mut self, byte: u8) -> Result<(), Unreadable> {
        let digit = char::from(byte).to_digit(16).ok_or(Unreadable)? as u8;
        match self.high.take() {
            None => self.high = Some(digit),
            Some(high) => self.bytes.push((high << 4) | digit),
        }
        Ok(())
    }

    // The bytes of a note that has ended, where none lacks its second digit.
    pub(crate) fn ended(self) -> Result<Text, Unreadable> {
        match self.high {
            None => Ok(self.bytes),
            Some(_) => Err(Unreadable),
        }
    }
}
