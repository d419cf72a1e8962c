// A form of the note, and the bytes of a note that has it.
ghost use Rattle.std.specs.Prelude.{◌^◌, ◌≤◌, ◌<◌};

use little_endian::{get_whole, put_whole};
use refusal::Refusal;

// The mark's second byte, the bytes of a number, and the greatest sum of the two counts.
#[derive(Clone, Copy)]
pub struct Form {
    mark: u8,
    width: usize,
    cap: u64,
    ghost in_64_bits: { width ≤ 8 },
    ghost cap_fits: { cap < 256 ^ width },
}

// The mark's first byte.
const MARK: u8 = 0x4D;

// The bytes of the mark, and of a number.
const MARK_SIZE: usize = 2;

const NARROW_WIDTH: usize = 4;

// The length of a note.
pub const SIZE: usize = MARK_SIZE + NARROW_WIDTH + NARROW_WIDTH;

// From this sum of its counts up a session is full, and no note has a greater one.
pub const CAP: u64 = 1_000_000_000;

impl Form {
    ghost use Rattle.std.specs.Prelude.{◌≡◌, length};
    ghost use Rattle.refusal.specs.Outcome.{or_else};
    ghost use Rattle.refusal.specs.Number.{meaning, done};
    ghost use Rattle.note.specs.Note.{narrow, size_of, note_of, has_mark, counts_in};
    ghost use Rattle.note.specs.Refusal.{is_past};
    ghost use Rattle.note.specs.Answer.{written_as, read_as};

    // The form of 10 bytes, with numbers of 32 bits.
    pub(crate) fn narrow() -> Form
        ensures { result ≡ narrow }
    {
        Form {
            mark: 0xD3,
            width: NARROW_WIDTH,
            cap: CAP,
        }
    }

    // Writes a note of counts, moved and refused; or answers the first refusal of 8 and 16, and leaves `note` as it is.
    #[tactic(auto, unfolding(crate::specs::Answer::written_as, refusal::specs::Outcome::unless))]
    pub(crate) fn write(self, counts: (u64, u64), note: &mut [u8]) -> Result<(), Refusal>
        ensures value { meaning result ≡ done (written_as self counts (length note.old)) }
        ensures note_after { note.new ≡ or_else note.old (written_as self counts (length note.old)) }
    {
        if note.len() != self.size() {
            return Err(Refusal::Length);
        }
        if self.is_past(counts) {
            return Err(Refusal::Counts);
        }
        self.put(note, counts);
        Ok(())
    }

    // The counts in a note; or the first refusal of 8, 9 and 16.
    #[tactic(auto, unfolding(crate::specs::Answer::read_as, refusal::specs::Outcome::unless))]
    pub(crate) fn read(self, note: &[u8]) -> Result<(u64, u64), Refusal>
        ensures { meaning result ≡ read_as self note.now }
    {
        if note.len() != self.size() {
            return Err(Refusal::Length);
        }
        if !self.has_mark(note) {
            return Err(Refusal::Mark);
        }
        let counts = self.counts_in(note);
        if self.is_past(counts) {
            return Err(Refusal::Counts);
        }
        Ok(counts)
    }

    // The length of a note of this form.
    fn size(self) -> usize
        ensures { result ≡ size_of self }
    {
        MARK_SIZE + self.width + self.width
    }

    // Whether counts add to more than the cap.
    fn is_past(self, counts: (u64, u64)) -> bool
        ensures { result ≡ is_past self counts }
    {
        let (moved, refused) = counts;
        moved.checked_add(refused).is_none_or(|sum| self.cap < sum)
    }

    // Whether a note begins with the mark.
    fn has_mark(self, note: &[u8]) -> bool
        requires { length note.now ≡ size_of self }
        ensures { result ≡ has_mark self note.now }
    {
        note.starts_with(&[MARK, self.mark])
    }

    // The numbers behind the mark.
    #[tactic(auto, unfolding(crate::specs::Note::number_at))]
    fn counts_in(self, note: &[u8]) -> (u64, u64)
        requires { length note.now ≡ size_of self }
        ensures { result ≡ counts_in self note.now }
    {
        let (moved, refused) = note[MARK_SIZE..].split_at(self.width);
        (get_whole(moved), get_whole(refused))
    }

    // Fills a note with the mark and counts.
    #[tactic(auto, unfolding(crate::specs::Note::note_of))]
    fn put(self, note: &mut [u8], counts: (u64, u64))
        requires { length note.old ≡ size_of self }
        ensures { note.new ≡ note_of self counts }
    {
        let (mark, numbers) = note.split_at_mut(MARK_SIZE);
        let (first, second) = numbers.split_at_mut(self.width);
        let (moved, refused) = counts;
        mark.copy_from_slice(&[MARK, self.mark]);
        put_whole(first, moved);
        put_whole(second, refused);
    }
}
