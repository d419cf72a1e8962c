// How answers are written.
ghost use Rattle.std.specs.Float.{NotNan};

use std::fmt;

// Two values, with a space between them.
#[derive(Drop)]
pub(crate) struct Pair<T>(T, T);

impl<T> From<(T, T)> for Pair<T> {
    fn from(pair: (T, T)) -> Pair<T> {
        let (first, second) = pair;
        Pair(first, second)
    }
}

impl<T: fmt::Display> fmt::Display for Pair<T> {
    fn fmt<W: fmt::Write>(&self, f: &mut fmt::Formatter<W>) -> fmt::Result {
        write!(f, "{} {}", self.0, self.1)
    }
}

// The bits of a float that is no NaN.
#[derive(Clone, Copy)]
pub(crate) struct Bits(u64);

impl Bits {
    pub(crate) fn of(x: f64) -> Bits
        requires { NotNan x }
    {
        Bits(x.to_bits())
    }
}

impl fmt::Display for Bits {
    fn fmt<W: fmt::Write>(&self, f: &mut fmt::Formatter<W>) -> fmt::Result {
        write!(f, "x{:016x}", self.0)
    }
}

// The text of a position, which is ASCII.
#[derive(Clone, Copy)]
pub(crate) struct Ascii(pub(crate) [u8; shape::SIZE]);

impl fmt::Display for Ascii {
    fn fmt<W: fmt::Write>(&self, f: &mut fmt::Formatter<W>) -> fmt::Result {
        for byte in self.0 {
            write!(f, "{}", char::from(byte))?;
        }
        Ok(())
    }
}

// The bytes of a note, by two hexadecimal digits each.
#[derive(Clone, Copy)]
pub(crate) struct Hexadecimal(pub(crate) [u8; note::SIZE]);

impl fmt::Display for Hexadecimal {
    fn fmt<W: fmt::Write>(&self, f: &mut fmt::Formatter<W>) -> fmt::Result {
        for byte in self.0 {
            write!(f, "{byte:02x}")?;
        }
        Ok(())
    }
}
