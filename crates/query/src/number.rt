// A number of a line, read a byte at a time: a whole number by decimal digits, with '-' where it is below 0, or a float by
// its 64 bits, an 'x' and hexadecimal digits.
use crate::unreadable::Unreadable;
use std::num::f64_from_bits_with_nan;

// The most digits of a float: those of 64 bits.
const MOST_DIGITS: u8 = 16;

// How a number begins: by its first digit, '-' or 'x'.
#[derive(Clone, Copy, Default)]
enum Form {
    #[default]
    Plain,
    Minus,
    Bits,
}

#[derive(Clone, Copy, Default)]
pub(crate) struct Number {
    form: Form,
    // What its digits count; past 64 bits the largest that they hold.
    size: u64,
    // How many digits it has, or the largest count where it has more than that.
    digits: u8,
}

impl Number {
    // The number that begins with this byte.
    pub(crate) fn begun(byte: u8) -> Result<Number, Unreadable> {
        let mut number = Number::default();
        match byte {
            b'-' => number.form = Form::Minus,
            b'x' => number.form = Form::Bits,
            _ => number.push(byte)?,
        }
        Ok(number)
    }

    // Adds a digit.
    pub(crate) fn push(&mut self, byte: u8) -> Result<(), Unreadable> {
        let base = match self.form {
            Form::Plain | Form::Minus => 10,
            Form::Bits => 16,
        };
        let digit = char::from(byte).to_digit(base).ok_or(Unreadable)?;
        let shifted = self.size.saturating_mul(u64::from(base));
        self.size = shifted.saturating_add(u64::from(digit));
        self.digits = self.digits.saturating_add(1);
        Ok(())
    }

    // The number, which has ended.
    pub(crate) fn ended(self) -> Result<Number, Unreadable> {
        match (self.form, self.digits) {
            (Form::Plain | Form::Minus, 1..) | (Form::Bits, 1..=MOST_DIGITS) => Ok(self),
            _ => Err(Unreadable),
        }
    }

    // The number as a kind, or 0, which is none.
    pub(crate) fn kind(self) -> Result<u8, Unreadable> {
        match self.form {
            Form::Plain => Ok(u8::try_from(self.size).unwrap_or(0)),
            Form::Minus => Ok(0),
            Form::Bits => Err(Unreadable),
        }
    }

    // The number in 32 bits, or the farthest on its side of 0.
    pub(crate) fn whole(self) -> Result<i32, Unreadable> {
        match self.form {
            Form::Plain => Ok(i32::try_from(self.size).unwrap_or(i32::MAX)),
            Form::Minus => Ok(i32::try_from(self.size).map_or(i32::MIN, |size| -size)),
            Form::Bits => Err(Unreadable),
        }
    }

    // The number as a count, which has no sign.
    pub(crate) fn count(self) -> Result<u64, Unreadable> {
        match self.form {
            Form::Plain => Ok(self.size),
            Form::Minus | Form::Bits => Err(Unreadable),
        }
    }

    // The float with these bits. Every NaN's bits give one NaN, since no float is made of such bits.
    pub(crate) fn float(self) -> Result<f64, Unreadable> {
        match self.form {
            Form::Bits => Ok(f64_from_bits_with_nan(self.size)),
            Form::Plain | Form::Minus => Err(Unreadable),
        }
    }
}
