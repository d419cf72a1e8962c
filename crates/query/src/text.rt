// The text of a line, read a byte at a time: all bytes behind the letter and one space. A note's bytes are
// kept as a text is.
use arrayvec::ArrayVec;
use shape::SIZE;

// The bytes that are kept: one more than a text that can be read has, by which a longer one is told. A
// note that can be read is shorter.
const KEPT: usize = SIZE + 1;

#[derive(Drop)]
pub(crate) struct Text {
    bytes: ArrayVec<u8, KEPT>,
}

impl Text {
    // The text before its first byte.
    pub(crate) fn new() -> Text {
        Text {
            bytes: ArrayVec::new(),
        }
    }

    // Adds a byte, which is let go where KEPT of them stand.
    pub(crate) fn push(&mut self, byte: u8) {
        let _ = self.bytes.try_push(byte);
    }

    // Its first bytes.
    pub(crate) fn bytes(&self) -> &[u8] {
        self.bytes.as_slice()
    }
}
