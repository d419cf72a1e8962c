// The numbers of a line, with spaces between them, read a byte at a time.
use crate::letter::Letter;
use crate::number::Number;
use crate::request::Request;
use crate::unreadable::Unreadable;
use arrayvec::ArrayVec;

// The most numbers that a request has.
const MOST: usize = 4;

#[derive(Drop)]
pub(crate) struct Numbers {
    letter: Letter,
    // Those that have ended, and the one that is being read.
    ended: ArrayVec<Number, MOST>,
    number: Option<Number>,
}

impl Numbers {
    // No number yet, behind this letter.
    pub(crate) fn new(letter: Letter) -> Numbers {
        Numbers {
            letter,
            ended: ArrayVec::new(),
            number: None,
        }
    }

    // Adds a byte.
    pub(crate) fn push(&mut self, byte: u8) -> Result<(), Unreadable> {
        if byte == b' ' {
            return self.end_number();
        }
        match &mut self.number {
            None => self.number = Some(Number::begun(byte)?),
            Some(number) => number.push(byte)?,
        }
        Ok(())
    }

    // Ends the number that is being read, if there is one.
    fn end_number(&mut self) -> Result<(), Unreadable> {
        if let Some(number) = self.number.take() {
            self.ended.try_push(number.ended()?)?;
        }
        Ok(())
    }

    // What the letter asks for with these numbers, of a line that has ended.
    pub(crate) fn request(mut self) -> Result<Request, Unreadable> {
        self.end_number()?;
        Request::of_numbers(self.letter, self.ended.as_slice())
    }
}
