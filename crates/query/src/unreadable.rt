// The error of a line that asks for nothing.
use arrayvec::CapacityError;
use std::error::Error;
use std::fmt;

#[derive(Clone, Copy, Debug)]
pub(crate) struct Unreadable;

impl fmt::Display for Unreadable {
    fn fmt<W: fmt::Write>(&self, f: &mut fmt::Formatter<W>) -> fmt::Result {
        write!(f, "unreadable")
    }
}

impl Error for Unreadable {}

// More numbers than a request has.
impl<T: Drop> From<CapacityError<T>> for Unreadable {
    fn from(_full: CapacityError<T>) -> Unreadable {
        Unreadable
    }
}
