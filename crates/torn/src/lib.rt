// The records of a torn file: what is whole is taken, and what was skipped is listed.
#![tactic(auto)]

ghost use Rattle.std.specs.Prelude.{◌≡◌, length};
ghost use Rattle.torn.specs.Pieces.{list_room, rooms_fit};
ghost use Rattle.torn.specs.Answer.{salvage_of, records_after, list_after};
ghost use Rattle.refusal.specs.Number.{meaning};

use reading::read_all;
use refusal::Refusal;

mod reading;

// The longest file, and the length of its list piece: `list_room` written out, since a constant's value calls no function.
pub const MOST: usize = 65536;

pub const MOST_LIST: usize = 8 * (MOST / 17) + 8;

// Salvages a torn file: puts the taken records at the front of `records` and the list of the skipped runs at the front of `list`, and
// answers how many records were taken and how many runs were skipped. Or answers the first refusal of 23 and 24, and leaves both pieces
// as they are.
#[tactic(auto, unfolding(crate::specs::Answer::salvage_of, crate::specs::Answer::records_after, crate::specs::Answer::list_after, refusal::specs::Outcome::unless))]
pub fn salvage(input: &[u8], records: &mut [u8], list: &mut [u8]) -> Result<(usize, usize), Refusal>
    ensures result_value { meaning result ≡ salvage_of input.now (length records.old) (length list.old) }
    ensures records_after { records.new ≡ records_after input.now records.old (salvage_of input.now (length records.old) (length list.old)) }
    ensures list_after { list.new ≡ list_after input.now list.old (salvage_of input.now (length records.old) (length list.old)) }
{
    if MOST < input.len() {
        return Err(Refusal::TooLong);
    }
    if !rooms_fit(input.len(), records.len(), list.len()) {
        return Err(Refusal::Rooms);
    }
    Ok(read_all(input, records, list))
}

// The length of the list piece for an input of this length: behind every run but the last stands a record, so that 17 bytes have one run
// at most.
pub fn list_room(input: usize) -> usize
    ensures { result ≡ list_room input }
{
    8 * (input / 17) + 8
}

// Whether the record piece is as long as the input, and the list piece has its length.
fn rooms_fit(input: usize, records: usize, list: usize) -> bool
    ensures { result ≡ rooms_fit input records list }
{
    records == input && list == list_room(input)
}
