// A torn file, which is read as a whole.
ghost use Rattle.std.specs.Prelude.{leb, length};
ghost use Rattle.digits.specs.Put.{Put};
ghost use Rattle.lines.specs.Buffer.{Placed};
ghost use Rattle.jobs.specs.Job.{salvaged_of};
ghost use Rattle.jobs.specs.Inside.{Lent};

use record::SIZE;
use torn::{MOST, MOST_LIST, list_room, salvage};

// Puts the taken records of a torn file at the front of the text; of one that is too long, nothing.
#[tactic(auto, using(lines::proofs::Buffers::too_short, lines::proofs::Buffers::placed_none), unfolding(crate::specs::Job::salvaged_of))]
pub(crate) fn put_taken(input: &[u8], text: &mut [u8]) -> Option<usize>
    ensures { Placed (leb (length input.now) (length text.old)) (salvaged_of input.now) text.old result text.new }
{
    let count = input.len();
    if text.len() < count {
        return None;
    }
    if MOST < count {
        return Some(0);
    }
    let mut list = [0u8; MOST_LIST];
    let room = list_room(count);
    Some(put_by(input, text, &mut list[..room]))
}

// The same of a file that is not too long, with a list piece of its length.
fn put_by(input: &[u8], text: &mut [u8], list: &mut [u8]) -> usize
    requires { Lent input.now text.old list.old }
    ensures { Put text.old 0 (salvaged_of input.now) result text.new }
{
    let (records, _) = salvage(input, &mut text[..input.len()], list).unwrap();
    SIZE * records
}
