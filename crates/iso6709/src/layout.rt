// The parts of a text.

// An angle's part: where it begins, and how many digits of degrees it has.
#[derive(Clone, Copy)]
pub(crate) struct Part {
    pub at: usize,
    pub width: usize,
}

pub(crate) const LATITUDE: Part = Part { at: 0, width: 2 };

pub(crate) const LONGITUDE: Part = Part { at: 10, width: 3 };

// Where the slash stands.
pub(crate) const END: usize = 21;
