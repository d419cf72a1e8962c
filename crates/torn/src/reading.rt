// The reading, from the front to the end.
ghost use Rattle.std.specs.Prelude.{◌≡◌, ◌+◌, ◌*◌, ◌≤◌, length};
ghost use Rattle.record.specs.Record.{size};
ghost use Rattle.digits.specs.Put.{Put};
ghost use Rattle.torn.specs.Inside.{Closes, Rooms, Reads};

use little_endian::put_whole;
use record::{SIZE, converts};

// The bytes of a number in the list, and of a run.
const NUMBER: usize = 4;

const RUN: usize = NUMBER + NUMBER;

// Reads from the front, into pieces of the right lengths. The bytes from `since` on are skipped, and not listed yet. Where fewer bytes
// are left than a record has, all of them are skipped.
pub(crate) fn read_all(input: &[u8], records: &mut [u8], list: &mut [u8]) -> (usize, usize)
    requires { Rooms input.now records.old list.old }
    ensures { Reads input.now records.old list.old result records.new list.new }
{
    let mut taken = Taken { records, count: 0 };
    let mut runs = Runs { list, count: 0 };
    let mut at = 0;
    let mut since = 0;
    // by place: the reading goes on by 16 bytes or by 1, as no iterator of the library does
    while let Some(found) = input[at..].first_chunk() {
        if converts(found) {
            runs.close(since, at);
            taken.put(found);
            at += SIZE;
            since = at;
        } else {
            at += 1;
        }
    }
    runs.close(since, input.len());
    (taken.count, runs.count)
}

// The record piece, and how many records stand at its front.
#[derive(Drop)]
struct Taken<'a> {
    records: &'a mut [u8],
    count: usize,
}

impl Taken<'_> {
    // Puts a record behind the others.
    #[tactic(auto, using(digits::proofs::Puts::put_exact))]
    fn put(&mut self, found: &[u8; SIZE])
        requires { size * self.old.count + size ≤ length self.old.records.now }
        ensures same_piece { self.new.records.ghost_name ≡ self.old.records.ghost_name }
        ensures counted { self.new.count ≡ self.old.count + 1 }
        ensures stored { Put self.old.records.now (size * self.old.count) found.now (size * self.old.count + size) self.new.records.now }
    {
        let at = SIZE * self.count;
        self.records[at..at + SIZE].copy_from_slice(found);
        self.count += 1;
    }
}

// The list piece, and how many runs are listed at its front.
#[derive(Drop)]
struct Runs<'a> {
    list: &'a mut [u8],
    count: usize,
}

impl Runs<'_> {
    // Lists the run from one place up to another, if there is one, behind the others.
    fn close(&mut self, from: usize, to: usize)
        requires { (from ≤ to) × (8 * self.old.count + 8 ≤ length self.old.list.now) }
        ensures same_piece { self.new.list.ghost_name ≡ self.old.list.ghost_name }
        ensures closes { Closes self.old.list.now self.old.count from to self.new.count self.new.list.now }
    {
        if from < to {
            let at = RUN * self.count;
            let behind = at + NUMBER;
            put_whole(&mut self.list[at..behind], from as u64);
            put_whole(&mut self.list[behind..behind + NUMBER], (to - from) as u64);
            self.count += 1;
        }
    }
}
