// What the program `salvage` says of a torn file.
#![tactic(auto)]

ghost use Rattle.std.specs.Prelude.{length};
ghost use Rattle.digits.specs.Put.{Put};
ghost use Rattle.lines.specs.Buffer.{Placed};
ghost use Rattle.listing.specs.Listing.{listing_of, listing_fits};
ghost use Rattle.listing.specs.Inside.{Rooms};

use runs::{RUN, all_lines};
use torn::{MOST, MOST_LIST, list_room, salvage};

mod runs;

// The room for the longest listing: 23 bytes for each run that the longest list holds, its length and its place having 5 digits, and 55
// for the closing line.
const LISTING_ROOM: usize = 23 * (MOST_LIST / RUN) + 55;

// Puts a line for each skipped run of the input, and the closing line with both counts, at the front of the text, and answers how many
// bytes they have; nothing where the input is too long or the text too short.
#[tactic(auto, using(lines::proofs::Buffers::too_short))]
pub fn listing(input: &[u8], text: &mut [u8]) -> Option<usize>
    ensures { Placed (listing_fits input.now (length text.old)) (listing_of input.now) text.old result text.new }
{
    if MOST < input.len() || text.len() < LISTING_ROOM {
        return None;
    }
    let mut records = [0u8; MOST];
    let mut list = [0u8; MOST_LIST];
    Some(listed(input, &mut records, &mut list, text))
}

// Puts them there by way of pieces that have the room for the salvage of any file.
fn listed(input: &[u8], records: &mut [u8], list: &mut [u8], text: &mut [u8]) -> usize
    requires { Rooms input.now records.old list.old text.old }
    ensures { Put text.old 0 (listing_of input.now) result text.new }
{
    let count = input.len();
    let room = list_room(count);
    let (taken, runs) = salvage(input, &mut records[..count], &mut list[..room]).unwrap();
    all_lines(&list[..RUN * runs], taken, text)
}
